ghost use Rattle.std.specs.Prelude.{ℕ, List};
ghost use Rattle.aig_graph.specs.Circuits.{Netlist};
ghost use Rattle.witnesses.specs.declared.witness.Witness.{Witness as Way};
ghost use Rattle.witnesses.specs.Laws.{IsCarriedBack, ReachesAlike};

/// Let the properties of two circuits have equal values, step by step. Then a bad state of the one
/// is reached at exactly the steps at which that of the other is. A witness of the one, carried
/// back, is a witness of the other at its step.
pub fn witness_laws()
    ensures alike { (c d : Netlist) (kept : List ℕ) → ReachesAlike c d kept }
    ensures carried { (c d : Netlist) (kept : List ℕ) (w : Way) → IsCarriedBack c d kept w }
{}
