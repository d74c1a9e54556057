ghost use Rattle.std.specs.Prelude.{◌≡◌, IfOk};
ghost use Rattle.rebuild.specs.Moved.{moved_props};
ghost use Rattle.rebuild.specs.Planned.{planned};

use crate::plan::Plan;
use aig_graph::{Lit, NoMemory, Props, Substitute};
use std::alloc::Global;

impl<'a> Substitute for Plan<'a> {
    ghost use Rattle.aig_graph.specs.Graph.{variables_end};
    ghost use Rattle.rebuild.specs.Moved.{moved_literal};
    ghost use Rattle.rebuild.specs.Planned.{planned};

    ghost known = { λ plan. variables_end (planned plan).circuit.aig };

    ghost literal_of = { λ plan. moved_literal (planned plan) };

    fn literal(&self, lit: Lit) -> Lit {
        Plan::literal(self, lit)
    }
}

/// Returns the properties after the move.
pub(crate) fn moved_props(alloc: Global, plan: &Plan<'_>) -> Result<Props, NoMemory>
    ensures { IfOk result (λ props. props ≡ moved_props (planned plan.now)) }
{
    plan.marks.circuit.props().mapped(alloc, plan)
}
