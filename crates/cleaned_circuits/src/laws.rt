ghost use Rattle.std.specs.Prelude.{ℕ, List};
ghost use Rattle.aig_graph.specs.Circuits.{Netlist};
ghost use Rattle.cleaned_circuits.specs.Laws.{KeepsStreams, IsDetermined, IsHeldOnce};

/// A cleaned circuit has the streams of the circuit, by the free latches that stay. Cleaning is a
/// function: there is at most one cleaned circuit of a circuit, and one list of free latches. The
/// held latches stand at one list of positions there.
pub fn cleaning_laws()
    ensures streams { (held : List ℕ) (c d : Netlist) (kept : List ℕ) → KeepsStreams held c d kept }
    ensures one { (held : List ℕ) (c d e : Netlist) (first second : List ℕ)
        → IsDetermined held c d e first second }
    ensures held { (held : List ℕ) (c d : Netlist) (now other : List ℕ)
        → IsHeldOnce held c d now other }
{}
