//! The chosen least set of a circuit by a flow of units. A large circuit is cut into parts, which
//! workers own. One worker owns all of them, and needs little memory: a part's tables are small.
ghost use Rattle.std.specs.Prelude.{IfOk, IfSome};
ghost use Rattle.aig_graph.specs.Chosen.{IsChosen};

use crate::bringing::flow_of_parts;
use crate::cut::Cut;
use crate::parts::Parts;
use crate::shares::CutFlow;
use crate::sizes::Sizes;
use aig_graph::{Choice, ClosedSet, Memory, NoMemory};
use pulse::{Crew, PhaseGate};
use std::alloc::Global;
use std::thread::Threads;
use unit_flows::{Frame, UnitFlow, shown_chosen};
use unit_pulses::chosen_least_brought;
use unit_starts::Region;

/// Returns true if the parts are worth the work of cutting. If one of them has over nine tenths of
/// the places, the others hardly help.
fn are_worth(parts: &Parts) -> bool {
    parts.largest() / 9 < parts.all_places() / 10
}

/// Returns the flow of a region by its parts, or none if they aren't worth it.
fn flow_by_parts<R: Threads + Sync, G: PhaseGate>(
    rt: &R,
    memory: &mut Memory,
    region: Region,
    crew: &Crew<G>,
    sizes: Sizes,
) -> Option<CutFlow> {
    let workers = crew.workers();
    let parts = Parts::of(rt, memory, &region, sizes.part, workers as usize);
    let flow = if !memory.is_refused() & are_worth(&parts) {
        let cut = Cut::of(region, &parts, workers, sizes);
        Some(flow_of_parts(rt, memory, &cut, crew))
    } else {
        None
    };
    drop(parts);
    flow
}

/// Returns the flow of a region by its parts. Returns none if the region is small for the number of
/// workers, or the parts aren't worth it.
fn cut_flow<R: Threads + Sync, G: PhaseGate>(
    rt: &R,
    alloc: Global,
    region: Region,
    crew: &Crew<G>,
    sizes: Sizes,
) -> Result<Option<CutFlow>, NoMemory> {
    if region.places() < sizes.least(crew.workers()) {
        return Ok(None);
    }
    let mut memory = Memory::of(alloc);
    let flow = flow_by_parts(rt, &mut memory, region, crew, sizes);
    if memory.is_refused() {
        Err(NoMemory)
    } else {
        Ok(flow)
    }
}

/// Brings a flow of a frame by its parts, if none is known of it; the flow is a hint. Returns none
/// if the frame is small for the number of workers, or one part is nearly all of it.
///
/// # Errors
///
/// `NoMemory` if a table or a thread's memory is refused.
pub fn flow_in_parts<R: Threads + Sync, G: PhaseGate>(
    rt: &R,
    alloc: Global,
    frame: &Frame,
    crew: &Crew<G>,
    sizes: Sizes,
) -> Result<Option<CutFlow>, NoMemory> {
    cut_flow(rt, alloc, Region::of(frame), crew, sizes)
}

/// Keeps the flow `found`, and returns the chosen least set of the frame if the flow shows it.
fn shown_by(
    alloc: Global,
    frame: &Frame,
    choice: Choice,
    found: CutFlow,
    flow: &mut UnitFlow,
) -> Result<Option<ClosedSet>, NoMemory>
    ensures { IfOk result (λ shown. IfSome shown (IsChosen choice frame.now.circuit.now
        frame.now.keep.now)) }
{
    let UnitFlow { gates, spare } = flow;
    let CutFlow {
        gates: brought,
        shares,
    } = found;
    drop(shares);
    *gates = brought;
    shown_chosen(alloc, frame, choice, gates.as_slice(), spare)
}

/// Returns the chosen least set of a frame, if a flow of units shows it. That flow is a start along
/// `flow`, or what pulses make of such a start. `flow` is what the last flow did at the circuit's
/// gates, or nothing; afterwards it is the flow that was found. Flows are hints: they decide if
/// there is a set, and never which.
///
/// A circuit is cut if no flow of it is known and it has as many latches and gates as `sizes` wants
/// for this crew. Its network's components, which share no arc, are gathered into parts. Each
/// worker owns some and finds the flow there. Pulses of the whole crew work on a large part, which
/// has over half of a worker's share. They also work on a smaller circuit, and on one of which one
/// part has over nine tenths. Along a last flow few units are left to bring, which costs less than
/// to cut.
///
/// # Errors
///
/// `NoMemory` if a table or a thread's memory is refused. Then `flow` is the flow of before, one of
/// this run, or none.
pub fn chosen_by_sizes<R: Threads + Sync, G: PhaseGate>(
    rt: &R,
    alloc: Global,
    frame: &Frame,
    choice: Choice,
    crew: &Crew<G>,
    sizes: Sizes,
    flow: &mut UnitFlow,
) -> Result<Option<ClosedSet>, NoMemory>
    ensures { IfOk result (λ shown. IfSome shown (IsChosen choice frame.now.circuit.now
        frame.now.keep.now)) }
{
    let cut = if flow.gates.is_empty() {
        flow_in_parts(rt, alloc, frame, crew, sizes)
    } else {
        Ok(None)
    };
    match cut {
        Ok(Some(found)) => shown_by(alloc, frame, choice, found, flow),
        Ok(None) => chosen_least_brought(rt, alloc, frame, choice, crew, flow),
        Err(error) => Err(error),
    }
}
