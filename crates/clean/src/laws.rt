ghost use Rattle.std.specs.Prelude.{ℕ, List};
ghost use Rattle.aig_graph.specs.Circuits.{Netlist};
ghost use Rattle.aig_graph.specs.Move.{Move};
ghost use Rattle.clean.specs.Laws.{MovedIsNormalised, NormalisedIsCleaned, CleanedIsNormalised, NothingToClean, NormalisedHasNormalisedCopies};

/// A normalised circuit is normalised after a move, if the low copies are. And a normalised circuit
/// is what it is cleaned to.
pub fn normalised_laws()
    ensures moved { (m : Move) → MovedIsNormalised m }
    ensures cleaned { (held : List ℕ) (c : Netlist) → NormalisedIsCleaned held c }
    ensures normalised { (held : List ℕ) (c : Netlist) (kept : List ℕ) → CleanedIsNormalised held c kept }
    ensures copies { (held : List ℕ) (c : Netlist) (first : ℕ) → NormalisedHasNormalisedCopies held c first }
{}

/// After a frame's move nothing is to clean, if the low copies are normalised.
pub fn frame_law()
    ensures { (held : List ℕ) (c d : Netlist) (now s : List ℕ) (first : ℕ)
        → NothingToClean held c d now s first }
{}
