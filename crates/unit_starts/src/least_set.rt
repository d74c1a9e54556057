//! The chosen least set of a frame by the flow of a start, if the judge says that the flow shows
//! it.
ghost use Rattle.std.specs.Prelude.{◌≡◌, IfOk, IfSome, None};
ghost use Rattle.aig_graph.specs.Border.{IsGreatestLeast};
ghost use Rattle.aig_graph.specs.Chosen.{IsChosen};

use crate::along::put_along;
use crate::first_start::{FirstStart, put_start_down, put_start_up};
use crate::left_units::LeftUnits;
use crate::region::Region;
use aig_graph::{Choice, ClosedSet, NoMemory};
use std::alloc::Global;
use unit_flows::{Frame, GateFlow, NodeMarks, UnitFlow, mark, shown_by_marks, shown_chosen};

/// The result of a start.
#[derive(Drop)]
pub struct Started {
    /// The chosen least set, if the start's flow shows it.
    pub set: Option<ClosedSet>,
    /// If not, the marks of the nodes from which units could still come to the sink, if they were
    /// looked for.
    pub marks: Option<NodeMarks>,
}

/// Judges a flow if the greatest least set is looked for. If a unit is left at a node from which it
/// could come to the sink, more would come there, so the judge isn't asked.
fn judged_greatest(
    alloc: Global,
    frame: &Frame,
    flow: &mut UnitFlow,
    left: &LeftUnits,
) -> Result<Started, NoMemory>
    ensures { IfOk result (λ started. IfSome started.set (IsGreatestLeast frame.now.circuit.now
        frame.now.keep.now)) }
{
    let UnitFlow { gates, spare } = flow;
    let flows = gates.as_slice();
    if flows.len() != frame.circuit.aig().gates().len() {
        return Ok(Started {
            set: None,
            marks: None,
        });
    }
    let marks = mark(alloc, frame, flows, &mut *spare)?;
    let set = if left.are_marked(&marks) {
        Ok(None)
    } else {
        shown_by_marks(alloc, frame, flows, &marks, spare)
    };
    match set {
        Ok(set) => Ok(Started {
            set,
            marks: Some(marks),
        }),
        Err(error) => {
            drop(marks);
            Err(error)
        }
    }
}

/// Judges a flow by the chosen least set. The judge is asked for the smallest one at once, since it
/// marks other nodes.
fn judged(
    alloc: Global,
    frame: &Frame,
    choice: Choice,
    flow: &mut UnitFlow,
    left: &LeftUnits,
) -> Result<Started, NoMemory>
    ensures { IfOk result (λ started. IfSome started.set (IsChosen choice frame.now.circuit.now
        frame.now.keep.now)) }
{
    match choice {
        Choice::Greatest => judged_greatest(alloc, frame, flow, left),
        Choice::Smallest => {
            let UnitFlow { gates, spare } = flow;
            match shown_chosen(alloc, frame, choice, gates.as_slice(), spare) {
                Ok(set) => Ok(Started { set, marks: None }),
                Err(error) => Err(error),
            }
        }
    }
}

/// Finds the set by the start up the gates, for a circuit of whose gates no flow is known. If that
/// shows none, the start from the sink down replaces it if it brings more.
fn start_first(
    alloc: Global,
    frame: &Frame,
    choice: Choice,
    flow: &mut UnitFlow,
) -> Result<Started, NoMemory>
    ensures { IfOk result (λ started. IfSome started.set (IsChosen choice frame.now.circuit.now
        frame.now.keep.now)) }
{
    let region = Region::of(frame);
    let first = put_start_up(alloc, &region, &mut flow.gates)?;
    match judged(alloc, frame, choice, &mut *flow, &first.left) {
        Ok(started) => {
            if started.set.is_some() {
                drop(first);
                return Ok(started);
            }
            started_down(&region, &mut flow.gates, first, started)
        }
        Err(error) => {
            drop(first);
            Err(error)
        }
    }
}

/// Replaces a start that shows no set by the start from the sink down, if that brings more units
/// than `first`. If it doesn't, returns `up`, the result of the first start.
fn started_down(
    region: &Region,
    flows: &mut Vec<GateFlow>,
    first: FirstStart,
    up: Started,
) -> Result<Started, NoMemory>
    requires { up.set ≡ None }
    ensures { IfOk result (λ started. started.set ≡ None) }
{
    match put_start_down(region, flows, first) {
        Ok(false) => Ok(up),
        Ok(true) => {
            drop(up);
            Ok(Started {
                set: None,
                marks: None,
            })
        }
        Err(error) => {
            drop(up);
            Err(error)
        }
    }
}

/// Returns the chosen least set, if a start shows it. The start goes along `flow`, what the last
/// flow did at the circuit's gates, or along nothing if there is none. Afterwards `flow` is that of
/// the start. Flows are hints: they decide if there is a set, and never which.
///
/// # Errors
///
/// `NoMemory` if a table is refused. Then `flow` is the flow of before, or that of a start.
pub fn start_along(
    alloc: Global,
    frame: &Frame,
    choice: Choice,
    flow: &mut UnitFlow,
) -> Result<Started, NoMemory>
    ensures { IfOk result (λ started. IfSome started.set (IsChosen choice frame.now.circuit.now
        frame.now.keep.now)) }
{
    if flow.gates.is_empty() {
        return start_first(alloc, frame, choice, flow);
    }
    let left = put_along(alloc, &Region::of(frame), &mut *flow)?;
    let judged = judged(alloc, frame, choice, flow, &left);
    drop(left);
    judged
}

/// Replaces a flow over a region by a start along nothing, the one of two that brings more, and
/// judges nothing. Returns true if it leaves units.
///
/// # Errors
///
/// `NoMemory` if a table is refused. Then `flows` are those of before, or of a start.
pub fn start_in(
    alloc: Global,
    region: &Region,
    flows: &mut Vec<GateFlow>,
) -> Result<bool, NoMemory> {
    let first = put_start_up(alloc, region, flows)?;
    if first.left.is_empty() {
        drop(first);
        return Ok(false);
    }
    match put_start_down(region, flows, first) {
        Ok(_) => Ok(true),
        Err(error) => Err(error),
    }
}
