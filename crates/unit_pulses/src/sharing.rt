//! Which pulses go to the crew: those with enough active nodes that a fork costs less than it
//! gains, and one more. That is the first pulse of a flow from the sources of a tiny circuit, so
//! that two workers share even the smallest circuits. It costs the start of two threads, a tenth of
//! such a run. The start of a whole crew would cost more than half of it, and as much for nothing
//! on a circuit of some hundred places.

use crate::nodes::Nodes;
use crate::parts::{Delivery, Part, Range};
use aig_graph::{Memory, NoMemory};
use pulse::{Crew, PhaseGate};
use std::alloc::Global;

/// The least number of active nodes that makes a pulse worth its two forks.
const MANY_ACTIVE: usize = 4096;

/// The most latches and gates of a tiny circuit.
const FEW_PLACES: usize = 16;

/// The number of workers of a crew that share the first pulse of a tiny circuit.
const FEW_WORKERS: u32 = 2;

/// How the workers of a crew, each of which passes its gate, share the pulses of a flow.
#[derive(Drop)]
pub(crate) struct Sharing<'a, G> {
    pub gate: &'a G,
    /// The number of workers that share a pulse.
    pub workers: u32,
    /// True if the flow begins at the sources: workers then share its first pulse, of any size.
    pub from_sources: bool,
}

impl<'a, G: PhaseGate> Sharing<'a, G> {
    /// Returns how a crew shares a flow over `places` places, which may be the first of a run.
    pub fn of(crew: &'a Crew<G>, places: usize, is_first: bool) -> Sharing<'a, G> {
        let started = Sharing::of_started(crew);
        if !is_first || started.workers < FEW_WORKERS || places > FEW_PLACES {
            return started;
        }
        Sharing {
            gate: started.gate,
            workers: FEW_WORKERS,
            from_sources: true,
        }
    }

    /// Returns how a crew shares a flow that begins with a start.
    pub fn of_started(crew: &'a Crew<G>) -> Sharing<'a, G> {
        Sharing {
            gate: crew.gate(),
            workers: crew.workers(),
            from_sources: false,
        }
    }

    /// Returns true if pulse `number` goes to the crew.
    pub fn is_handed(&self, number: u64, actives: &Nodes) -> bool {
        let is_first = self.from_sources && number == 0;
        self.workers > 1 && (is_first || actives.count() >= MANY_ACTIVE)
    }
}

/// The parts of a pulse, and the delivery of each.
#[derive(Drop)]
pub(crate) struct Parts {
    pub parts: Vec<Part>,
    pub deliveries: Vec<Delivery>,
}

impl Parts {
    /// Returns a part for each of `workers` workers that share `places` places.
    pub fn among(memory: &mut Memory, workers: u32, places: usize) -> Parts {
        let mut parts = memory.nothing();
        let mut deliveries = memory.nothing();
        for worker in 0..workers {
            let part = Part::of(memory, worker, workers, places);
            let delivery = Delivery::none(memory);
            memory.push(&mut parts, part);
            memory.push(&mut deliveries, delivery);
        }
        Parts { parts, deliveries }
    }
}

/// Returns the range of places of each of `workers` workers that share a pulse, in worker order.
///
/// # Errors
///
/// `NoMemory` if a table is refused.
pub fn pulse_ranges(alloc: Global, workers: u32, places: usize) -> Result<Vec<Range>, NoMemory> {
    let mut memory = Memory::of(alloc);
    let Parts { parts, deliveries } = Parts::among(&mut memory, workers, places);
    drop(deliveries);
    let mut ranges = memory.nothing();
    for k in 0..parts.len() {
        memory.push(&mut ranges, parts[k].range);
    }
    drop(parts);
    if memory.is_refused() {
        drop(ranges);
        return Err(NoMemory);
    }
    Ok(ranges)
}
