//! The chosen least set of a circuit by a flow of units, of a start or of pulses from it. Also such
//! a flow over some components of a frame's network, which nothing judges.
ghost use Rattle.std.specs.Prelude.{IfOk, IfSome};
ghost use Rattle.aig_graph.specs.Chosen.{IsChosen};

use crate::bringing::bring;
use crate::marked_flow::MarkedFlow;
use crate::sharing::Sharing;
use aig_graph::{Choice, ClosedSet, NoMemory};
use pulse::{Crew, PhaseGate};
use std::alloc::Global;
use std::mem;
use std::thread::Threads;
use unit_flows::{Frame, GateFlow, SpareTables, UnitFlow, shown_chosen};
use unit_starts::{Region, Started, start_along, start_in};

/// The least number of units that is worth a judge, which may say no: fewer cost less by pulses.
const MANY_BROUGHT: usize = 64;

/// Finds the set by an extension of a start along the last flow, if that brings many units.
fn shown_by_more(
    alloc: Global,
    frame: &Frame,
    choice: Choice,
    left: &mut MarkedFlow,
    spare: &mut SpareTables,
) -> Result<Option<ClosedSet>, NoMemory>
    ensures { IfOk result (λ shown. IfSome shown (IsChosen choice frame.now.circuit.now
        frame.now.keep.now)) }
{
    let brought = left.extend(alloc, &Region::of(frame), &mut *spare)?;
    if brought < MANY_BROUGHT {
        return Ok(None);
    }
    shown_chosen(alloc, frame, choice, left.flows(), spare)
}

/// Finds the set by pulses of a crew from `left`, what a flow leaves, and keeps the flow that they
/// make. The spare tables are dropped before, since pulses need much memory.
fn shown_by_pulses<R: Threads + Sync, G: PhaseGate>(
    rt: &R,
    alloc: Global,
    frame: &Frame,
    choice: Choice,
    sharing: Sharing<G>,
    left: MarkedFlow,
    flow: &mut UnitFlow,
) -> Result<Option<ClosedSet>, NoMemory>
    ensures { IfOk result (λ shown. IfSome shown (IsChosen choice frame.now.circuit.now
        frame.now.keep.now)) }
{
    let UnitFlow { gates, spare } = flow;
    drop(mem::replace(spare, SpareTables::none(alloc)));
    let brought = bring(rt, alloc, &Region::of(frame), sharing, left)?;
    *gates = brought;
    shown_chosen(alloc, frame, choice, gates.as_slice(), spare)
}

/// Finds the set from `left`, a start along the last flow: by an extension of it, or by pulses.
fn shown_further<R: Threads + Sync, G: PhaseGate>(
    rt: &R,
    alloc: Global,
    frame: &Frame,
    choice: Choice,
    sharing: Sharing<G>,
    left: MarkedFlow,
    flow: &mut UnitFlow,
) -> Result<Option<ClosedSet>, NoMemory>
    ensures { IfOk result (λ shown. IfSome shown (IsChosen choice frame.now.circuit.now
        frame.now.keep.now)) }
{
    let mut left = left;
    match shown_by_more(alloc, frame, choice, &mut left, &mut flow.spare) {
        Ok(Some(set)) => {
            flow.gates = left.into_flows();
            Ok(Some(set))
        }
        Ok(None) => shown_by_pulses(rt, alloc, frame, choice, sharing, left, flow),
        Err(error) => {
            drop(left);
            Err(error)
        }
    }
}

/// Finds the set by pulses from the sources, which leave each unit after its latch.
fn shown_from_sources<R: Threads + Sync, G: PhaseGate>(
    rt: &R,
    alloc: Global,
    frame: &Frame,
    choice: Choice,
    sharing: Sharing<G>,
    flow: &mut UnitFlow,
) -> Result<Option<ClosedSet>, NoMemory>
    ensures { IfOk result (λ shown. IfSome shown (IsChosen choice frame.now.circuit.now
        frame.now.keep.now)) }
{
    let gates = frame.circuit.aig().gates().len();
    let none = vec![in alloc; GateFlow::none(); gates]?;
    let left = MarkedFlow::new(none, None);
    shown_by_pulses(rt, alloc, frame, choice, sharing, left, flow)
}

/// Returns the chosen least set of a frame if a flow of units shows it. That flow is a start along
/// `flow`, or what pulses make of such a start. `flow` is what the last flow did at the circuit's
/// gates, or nothing; afterwards it is the flow that was found. Flows are hints: they decide if
/// there is a set, and never which.
///
/// A pulse in which 4096 nodes or more are active goes to the crew: each worker reads and delivers
/// at its own range of places. The calling thread makes all others, as worker 0. A circuit of at
/// most 16 latches and gates is an exception, for a crew of two or more. Its first flow begins at
/// the sources, and two workers make its first pulse. A start would leave few units to share, and
/// more threads would cost more than such a run.
///
/// # Errors
///
/// `NoMemory` if a table is refused. Then `flow` is the flow of before, that of a start, or none.
pub fn chosen_least_brought<R: Threads + Sync, G: PhaseGate>(
    rt: &R,
    alloc: Global,
    frame: &Frame,
    choice: Choice,
    crew: &Crew<G>,
    flow: &mut UnitFlow,
) -> Result<Option<ClosedSet>, NoMemory>
    ensures { IfOk result (λ shown. IfSome shown (IsChosen choice frame.now.circuit.now
        frame.now.keep.now)) }
{
    let is_first = flow.gates.is_empty();
    let places = frame.circuit.aig().latches_and_gates();
    let sharing = Sharing::of(crew, places, is_first);
    if sharing.from_sources {
        return shown_from_sources(rt, alloc, frame, choice, sharing, flow);
    }
    let Started { set, marks } = start_along(alloc, frame, choice, &mut *flow)?;
    if let Some(set) = set {
        if let Some(marks) = marks {
            flow.spare.keep_marks(marks);
        }
        return Ok(Some(set));
    }
    let left = MarkedFlow::new(mem::replace(&mut flow.gates, Vec::new(alloc)), marks);
    if is_first {
        shown_by_pulses(rt, alloc, frame, choice, sharing, left, flow)
    } else {
        shown_further(rt, alloc, frame, choice, sharing, left, flow)
    }
}

/// Returns a flow over a region of which none is known, and judges nothing. It is that of a start,
/// or what a crew's pulses make of it. Then no more units can come to the sink.
///
/// # Errors
///
/// `NoMemory` if a table or a thread's memory is refused.
pub fn first_flow<R: Threads + Sync, G: PhaseGate>(
    rt: &R,
    alloc: Global,
    region: &Region,
    crew: &Crew<G>,
) -> Result<Vec<GateFlow>, NoMemory> {
    let mut flows = Vec::new(alloc);
    let leaves = start_in(alloc, region, &mut flows)?;
    if !leaves {
        return Ok(flows);
    }
    let sharing = Sharing::of_started(crew);
    bring(rt, alloc, region, sharing, MarkedFlow::new(flows, None))
}
