ghost use Rattle.aig_graph.specs.Circuits.{Netlist};
ghost use Rattle.witness_circuits.specs.declared.sharing.Sharing.{Sharing as Shares};
ghost use Rattle.witness_circuits.specs.Laws.{ShowsGood};

/// A witness circuit that passes its five checks shows that the model reaches no bad state while
/// its constraints hold.
pub fn witness_law()
    ensures { (c w : Netlist) (k : Shares) → ShowsGood c w k }
{}
