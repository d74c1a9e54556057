ghost use Rattle.std.specs.Prelude.{ℕ, List};
ghost use Rattle.ascii_file.specs.declared.order.reads.Reads.{Reads};
ghost use Rattle.ascii_file.specs.order.Laws.{OrderedLaw, HasAtMostOneOrder, HasEachGateOnce, ReadsBefore, CycleLaw, ExistsLaw, KeepsOrder};

/// The computed order is an order of the gates, and there is at most one. Each gate of the file
/// stands at one place of it, after the gates that it reads.
pub fn order_laws()
    ensures computed { (gates : List Reads) (order : List ℕ) → OrderedLaw gates order }
    ensures one { (gates : List Reads) (first second : List ℕ) → HasAtMostOneOrder gates first second }
    ensures each { (gates : List Reads) (order : List ℕ) → HasEachGateOnce gates order }
    ensures before { (gates : List Reads) (order : List ℕ) → ReadsBefore gates order }
{}

/// There is an order if and only if no gates read each other in a cycle.
pub fn cycle_laws()
    ensures computed { (gates : List Reads) → CycleLaw gates }
    ensures exists { (gates : List Reads) → ExistsLaw gates }
{}

/// A file whose gates read only gates before them keeps its order.
pub fn in_order_law()
    ensures { (gates : List Reads) → KeepsOrder gates }
{}
