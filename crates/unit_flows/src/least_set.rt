//! The chosen least set of a circuit, the greatest or the smallest, by a flow of units. It is found
//! if the judge says that the flow shows it.
ghost use Rattle.std.specs.Prelude.{IfOk, IfSome};
ghost use Rattle.aig_graph.specs.Chosen.{IsChosen};

use crate::frame::Frame;
use crate::gate_flow::GateFlow;
use crate::judging::shown_set;
use crate::nearest::shown_smallest_set;
use crate::unit_flow::SpareTables;
use aig_graph::{Choice, ClosedSet, NoMemory};
use std::alloc::Global;

/// Returns the chosen least set, if a flow shows it. The spare tables are used.
///
/// # Errors
///
/// `NoMemory` if a table is refused.
pub fn shown_chosen(
    alloc: Global,
    frame: &Frame,
    choice: Choice,
    flows: &[GateFlow],
    spare: &mut SpareTables,
) -> Result<Option<ClosedSet>, NoMemory>
    ensures { IfOk result (λ shown. IfSome shown (IsChosen choice frame.now.circuit.now
        frame.now.keep.now)) }
{
    match choice {
        Choice::Greatest => shown_set(alloc, frame, flows, spare),
        Choice::Smallest => shown_smallest_set(alloc, frame, flows, spare),
    }
}
