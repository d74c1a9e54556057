ghost use Rattle.std.specs.Prelude.{ℕ, Bool, List, Option};
ghost use Rattle.aig_graph.specs.Circuits.{Netlist};
ghost use Rattle.aig_graph.specs.Keep.{Holding};
ghost use Rattle.aig_graph.specs.declared.choice.Choice.{Choice};
ghost use Rattle.retimed_circuits.specs.Laws.{CleaningKeepsHeld, FramesKeepHeld, IsDetermined, MergingKeepsHeld, MovingKeepsHeld};

/// The retimed circuit and its reports depend on the circuit and the options alone. The options are
/// merging, the bound on path length, the choice of least sets, held latches and the limit of
/// frames. If latches are merged, they depend on what the merged ones read as too. Certificates
/// that are wanted change nothing else. Their number, counts and gates depend on circuit and
/// options too; their routes may differ.
pub fn retiming_law()
    ensures { (merge : Bool) (bound : Option ℕ) (choice : Choice) (c : Netlist) (holding : Holding)
        (max_frames : ℕ) → IsDetermined merge bound choice c holding max_frames }
{}

/// Cleaning, merging and moving keep the held latches, with their names and resets, and so does a
/// whole run. Latches that were looked up by their names are still all those that have one of the
/// names.
pub fn held_laws()
    ensures cleaning { (held : List ℕ) (c : Netlist) → CleaningKeepsHeld held c }
    ensures merging { (held : List ℕ) (c : Netlist) → MergingKeepsHeld held c }
    ensures moving { (held : List ℕ) (c : Netlist) → MovingKeepsHeld held c }
    ensures frames { (bound : Option ℕ) (choice : Choice) (held : List ℕ) (c : Netlist)
        → FramesKeepHeld bound choice held c }
{}
