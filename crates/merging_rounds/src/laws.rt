ghost use Rattle.std.specs.Prelude.{ℕ, Bool, Option};
ghost use Rattle.aig_graph.specs.Circuits.{Netlist};
ghost use Rattle.aig_graph.specs.Keep.{Holding};
ghost use Rattle.aig_graph.specs.declared.choice.Choice.{Choice};
ghost use Rattle.merging_rounds.specs.Laws.{AreDetermined, RoundsKeepLevels, RoundsStayWithin};

/// States that a circuit that is retimed in rounds keeps the bound that it is retimed under. No
/// path is longer than that, but for those that it had.
pub fn round_levels_law()
    ensures { (merge : Bool) (bound : Option ℕ) (choice : Choice) (c : Netlist) (holding : Holding)
        (max_frames : ℕ) → RoundsKeepLevels merge bound choice c holding max_frames }
{}

/// States that a circuit that is retimed in rounds stays within the limits of a header. It keeps
/// the number of its properties and gets no new name.
pub fn round_limits_law()
    ensures { (merge : Bool) (bound : Option ℕ) (choice : Choice) (c : Netlist) (holding : Holding)
        (max_frames : ℕ) → RoundsStayWithin merge bound choice c holding max_frames }
{}

/// States that what a circuit is retimed to in rounds is one, and so are its certificates but for
/// their routes. It depends on what is asked for alone. If latches are merged, it depends on which
/// are in each round, and what they read as.
pub fn round_answer_law()
    ensures { (merge : Bool) (bound : Option ℕ) (choice : Choice) (c : Netlist) (holding : Holding)
        (max_frames : ℕ) → AreDetermined merge bound choice c holding max_frames }
{}
