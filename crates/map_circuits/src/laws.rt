ghost use Rattle.std.specs.Prelude.{List, ℕ};
ghost use Rattle.aig_graph.specs.Circuits.{Netlist};
ghost use Rattle.aig_graph.specs.Graph.{Graph};
ghost use Rattle.map_circuits.specs.Steps.{MergedStep, MergingStep};

/// Let the functions be a map of a circuit's states to those of a second one. Let the constraints
/// also say that each latch of the second one is equal to its reading. Then the functions are a map
/// to the states of the circuit that the second one is merged to.
pub fn merging_step_law()
    ensures { (c d e : Netlist) (held reads kept : List ℕ) (g h : Graph)
        (functions old new : List ℕ) → MergingStep c d e held reads kept g h functions old new }
{}

/// That map is still one if each latch has the function of its reading.
pub fn merged_step_law()
    ensures { (c d e : Netlist) (held reads kept : List ℕ) (g h : Graph)
        (functions old new : List ℕ) → MergedStep c d e held reads kept g h functions old new }
{}
