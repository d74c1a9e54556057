ghost use Rattle.atomic_table.specs.Table.{State};
ghost use Rattle.batch_pool.specs.declared.rule.Hand.{Hand};
ghost use Rattle.batch_pool.specs.declared.rule.Plan.{Plan};
ghost use Rattle.batch_pool.specs.Rule.{IsGiven};
ghost use Rattle.batch_pool.specs.Laws.{IsCount};

/// Whatever has been drawn, the counter's word is the number of draws, which is at most that of the
/// jobs and the drawers together. The seats hold each number below the word once and no other.
pub fn counter_law()
    ensures { (plan : Plan) (state : State (Unit {0}) Hand) → IsGiven plan state
        → IsCount plan state }
{}
