ghost use Rattle.std.specs.Prelude.{ℕ, List};
ghost use Rattle.aig_graph.specs.Circuits.{Netlist};
ghost use Rattle.witness_circuits.specs.declared.sharing.Sharing.{Sharing as Shares};
ghost use Rattle.map_miters.specs.Lifting.{LiftsBack};

/// Let another circuit have a map to a circuit without free latches. A witness circuit that passes
/// its five checks for the other one, lifted back, passes them for the circuit.
pub fn back_lift_law()
    ensures { (c d : Netlist) (kept : List ℕ) (m w : Netlist) (k : Shares) (r : Netlist)
        → LiftsBack c d kept m w k r }
{}
