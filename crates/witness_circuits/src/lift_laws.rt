ghost use Rattle.std.specs.Prelude.{ℕ, List};
ghost use Rattle.aig_graph.specs.Circuits.{Netlist};
ghost use Rattle.witness_circuits.specs.declared.sharing.Sharing.{Sharing as Shares};
ghost use Rattle.witness_circuits.specs.LiftedLaws.{LiftsWitnesses};

/// Let a circuit have a map to another one. A witness circuit that passes its five checks for the
/// other one, lifted, passes them for the circuit.
pub fn lift_law()
    ensures { (c d : Netlist) (kept : List ℕ) (m w : Netlist) (k : Shares) (r : Netlist)
        → LiftsWitnesses c d kept m w k r }
{}
