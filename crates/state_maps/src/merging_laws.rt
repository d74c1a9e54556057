ghost use Rattle.std.specs.Prelude.{Bool, List, Option, ℕ};
ghost use Rattle.aig_graph.specs.Circuits.{Netlist};
ghost use Rattle.aig_graph.specs.Keep.{Holding};
ghost use Rattle.aig_graph.specs.declared.choice.Choice.{Choice};
ghost use Rattle.retimed_circuits.specs.declared.report.Retimed.{Retimed};
ghost use Rattle.state_maps.specs.MergingLaws.{HasMergingMap, MergedRetimingMaps, MergingMaps};

/// Merging maps each state of a circuit to itself, if each latch holds the value of its reading. So
/// a merged circuit has a map of the circuit's states, under a condition that can be tested in each
/// state. So has what a circuit is retimed to after its latches were merged.
pub fn merging_map_laws()
    ensures merging { (held reads : List ℕ) (c d : Netlist) → MergingMaps held reads c d }
    ensures has_map { (held reads : List ℕ) (c d : Netlist) → HasMergingMap held reads c d }
    ensures retiming { (bound : Option ℕ) (choice : Choice) (holding : Holding) (c : Netlist)
        (max_frames : ℕ) (certify : Bool) (r : Retimed)
        → MergedRetimingMaps bound choice holding c max_frames certify r }
{}
