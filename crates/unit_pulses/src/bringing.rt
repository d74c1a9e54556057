//! Rounds of new labels and pulses, until no unit that is left can come to the sink.

use crate::active::list_actives;
use crate::marked_flow::MarkedFlow;
use crate::nodes::Nodes;
use crate::phases::{Passage, pulse_alone, pulse_by_crew};
use crate::search::Search;
use crate::sharing::{Parts, Sharing};
use aig_graph::{Memory, NoMemory};
use pulse::PhaseGate;
use std::alloc::Global;
use std::thread::Threads;
use unit_flows::GateFlow;
use unit_starts::Region;

/// The most rounds of new labels and pulses. What is left then is left to the network.
const MOST_ROUNDS: u32 = 1024;

/// The arcs for each place that pulses look at before labels are made anew, which takes about as
/// long. Units that can't come to the sink are left.
const WORK_A_PLACE: usize = 1;

/// The pulses of a flow, with the parts of those that the calling thread and the crew make.
#[derive(Drop)]
struct Pulses<'a, G> {
    sharing: Sharing<'a, G>,
    alone: Parts,
    crew: Parts,
    made: u64,
}

impl<'a, G: PhaseGate> Pulses<'a, G> {
    /// Returns the pulses of a flow over `places` places, of which none is made.
    fn none(memory: &mut Memory, sharing: Sharing<'a, G>, places: usize) -> Pulses<'a, G> {
        let alone = Parts::among(memory, 1, places);
        let crew = Parts::among(memory, sharing.workers, places);
        Pulses {
            sharing,
            alone,
            crew,
            made: 0,
        }
    }
}

/// Makes the next pulse, by the crew or by this thread. Returns the number of arcs looked at.
fn next_pulse<R: Threads + Sync, G: PhaseGate>(
    rt: &R,
    memory: &mut Memory,
    search: &mut Search,
    actives: &mut Nodes,
    pulses: &mut Pulses<G>,
) -> usize {
    let passage = Passage {
        gate: pulses.sharing.gate,
        pulse: pulses.made,
    };
    let is_handed = pulses.sharing.is_handed(pulses.made, actives);
    pulses.made = pulses.made.saturating_add(1);
    if is_handed {
        pulse_by_crew(rt, memory, search, actives, &mut pulses.crew, &passage)
    } else {
        pulse_alone(search, actives, &mut pulses.alone, &passage)
    }
}

/// Runs pulses. Returns false if it stopped because labels are due, true if no node is active or
/// memory was refused.
fn pulses_of_round<R: Threads + Sync, G: PhaseGate>(
    rt: &R,
    memory: &mut Memory,
    search: &mut Search,
    actives: &mut Nodes,
    pulses: &mut Pulses<G>,
) -> bool {
    let most = search.spots.len().saturating_mul(WORK_A_PLACE);
    let mut work = 0usize;
    for _ in 0..u32::MAX {
        memory.refuse_if(actives.refused);
        let is_last = actives.is_empty() | memory.is_refused();
        if is_last | (work >= most) {
            return is_last;
        }
        work = work.wrapping_add(next_pulse(rt, memory, search, actives, pulses));
    }
    false
}

/// Makes labels anew, and runs pulses from active nodes as long as the labels are good. Returns
/// true if no unit that is left can come to the sink, or memory was refused.
fn round<R: Threads + Sync, G: PhaseGate>(
    rt: &R,
    memory: &mut Memory,
    search: &mut Search,
    pulses: &mut Pulses<G>,
) -> bool {
    search.label();
    let mut actives = Nodes::none(memory);
    list_actives(
        search.spots.as_slice(),
        search.labels.as_slice(),
        &mut actives,
    );
    search.list_readers(memory, &actives);
    let ended = pulses_of_round(rt, memory, search, &mut actives, pulses);
    drop(actives);
    ended
}

/// Runs rounds until no unit that is left can come to the sink, or memory was refused.
fn bring_in<R: Threads + Sync, G: PhaseGate>(
    rt: &R,
    memory: &mut Memory,
    sharing: Sharing<G>,
    search: &mut Search,
) {
    let mut pulses = Pulses::none(memory, sharing, search.spots.len());
    for _ in 0..MOST_ROUNDS {
        if round(rt, memory, search, &mut pulses) {
            break;
        }
    }
    drop(pulses);
}

fn brought<R: Threads + Sync, G: PhaseGate>(
    rt: &R,
    memory: &mut Memory,
    region: &Region,
    sharing: Sharing<G>,
    flow: MarkedFlow,
) -> Vec<GateFlow> {
    let (known, marks) = flow.into_parts();
    let mut search = match &marks {
        Some(marks) => Search::new(memory, region, marks.before.as_slice(), known),
        None => Search::new(memory, region, &[], known),
    };
    drop(marks);
    bring_in(rt, memory, sharing, &mut search);
    search.into_flows()
}

/// Brings the units that a flow leaves to the sink, as far as they can come there. It takes 16
/// bytes a latch and gate, and 4 for each gate in the list of a place that it reads.
///
/// # Errors
///
/// `NoMemory` if a table is refused.
pub(crate) fn bring<R: Threads + Sync, G: PhaseGate>(
    rt: &R,
    alloc: Global,
    region: &Region,
    sharing: Sharing<G>,
    flow: MarkedFlow,
) -> Result<Vec<GateFlow>, NoMemory> {
    let mut memory = Memory::of(alloc);
    let flows = brought(rt, &mut memory, region, sharing, flow);
    if memory.is_refused() {
        drop(flows);
        return Err(NoMemory);
    }
    Ok(flows)
}
