ghost use Rattle.std.specs.Prelude.{ℕ, List};
ghost use Rattle.aig_graph.specs.Circuits.{Netlist};
ghost use Rattle.aig_graph.specs.declared.choice.Choice.{Choice};
ghost use Rattle.aig_graph.specs.Chosen.{ChosenLaw};

/// By either choice there is at most one chosen set, and it is a least one.
pub fn chosen_law()
    ensures { (choice : Choice) (c : Netlist) (held s r : List ℕ) → ChosenLaw choice c held s r }
{}
