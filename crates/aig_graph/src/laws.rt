ghost use Rattle.std.specs.Prelude.{ℕ, List};
ghost use Rattle.aig_graph.specs.Graph.{Graph, IsGraph};
ghost use Rattle.aig_graph.specs.Circuits.{Netlist};
ghost use Rattle.aig_graph.specs.Value.{Inputs, Choice};
ghost use Rattle.aig_graph.specs.Laws.{ValueLaws, IsReflexive, IsTransitive, EmptySetLaws, ClosedBorderLaw, AtMostOne, PassableLaw};

/// The value of a literal, by its variable. It is that of a constant, an input, a latch at step 0
/// and at a later step, or a gate. A negated literal has the other value.
pub fn value_laws()
    ensures { (g : Graph) (x : Inputs) (f : Choice) → IsGraph g → ValueLaws g x f }
{}

/// A circuit has its own streams, with each free latch kept. From one circuit to the next to a
/// third, the lists of kept latches compose.
pub fn stream_laws()
    ensures reflexive { (c : Netlist) → IsReflexive c }
    ensures transitive { (c d e : Netlist) (first second : List ℕ)
        → IsTransitive c d e first second }
{}

/// A gate is passable if and only if each variable of its fan-ins is a known latch that isn't held,
/// or a passable gate. The empty set is closed, and its border is the known latches that are held
/// or read. The border of a closed set is the known latches and the members that are held or read
/// from outside. There is at most one greatest and at most one smallest least set.
pub fn set_laws()
    ensures passable { (g : Graph) (held : List ℕ) (v : ℕ) → IsGraph g → PassableLaw g held v }
    ensures empty { (c : Netlist) (held : List ℕ) → EmptySetLaws c held }
    ensures border { (c : Netlist) (held s : List ℕ) (v : ℕ) → ClosedBorderLaw c held s v }
    ensures one { (c : Netlist) (held s r : List ℕ) → AtMostOne c held s r }
{}
