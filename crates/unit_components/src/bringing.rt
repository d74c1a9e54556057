//! Brings the flow of a region by its parts. Each worker draws one part after another, which it
//! then owns, and hands their flows back; then the crew works on the large ones. Which worker draws
//! a part depends on how fast each worker is; what flows in a part doesn't.

use crate::cut::Cut;
use crate::gathering::{PartFlow, gathered};
use crate::part_flows::Part;
use crate::shares::{CutFlow, Shares};
use aig_graph::Memory;
use pulse::{Crew, OpenGate, PhaseGate};
use std::alloc::{AllocError, Global};
use std::sync::atomic::{AtomicU64, Ordering};
use std::thread;
use std::thread::Threads;
use unit_starts::narrow;

/// The flows of parts, the memory for them, and the number of parts that each worker found.
#[derive(Drop)]
struct Found {
    memory: Memory,
    flows: Vec<PartFlow>,
    drawn: Vec<usize>,
}

impl Found {
    /// Returns the state in which no flow is found yet.
    fn none(alloc: Global) -> Found {
        Found {
            memory: Memory::of(alloc),
            flows: Vec::new(alloc),
            drawn: Vec::new(alloc),
        }
    }

    /// Finds the flow of part `part` by the workers of `crew`.
    fn find<R: Threads + Sync, G: PhaseGate>(
        &mut self,
        rt: &R,
        cut: &Cut,
        part: usize,
        crew: &Crew<G>,
    ) {
        let own = Part::of(&mut self.memory, cut, part);
        let flows = own.flow(rt, &mut self.memory, crew);
        drop(own);
        self.memory.push(&mut self.flows, PartFlow { part, flows });
    }

    /// Draws parts from the shared number `next`, and finds the flow of each that isn't large in
    /// this thread. Stops if none is left or memory is refused.
    fn draw_all<R: Threads + Sync>(
        &mut self,
        rt: &R,
        cut: &Cut,
        next: &AtomicU64,
        alone: &Crew<OpenGate>,
    ) {
        let parts = cut.parts.count();
        for _ in 0..parts {
            let part = next.fetch_add(1, Ordering::SeqCst) as usize;
            if (part >= parts) | self.memory.is_refused() {
                return;
            }
            if !cut.is_large(part) {
                self.find(rt, cut, part, alone);
            }
        }
    }

    /// Takes what one worker found.
    fn take(&mut self, found: &mut Found) {
        self.memory.push(&mut self.drawn, found.flows.len());
        let is_taken = self.flows.append(&mut found.flows).is_ok();
        self.memory.refuse_if(found.memory.is_refused() | !is_taken);
    }

    /// Takes what all workers found, in worker order.
    fn take_all(&mut self, lists: Result<Vec<Found>, AllocError>) {
        let Ok(mut lists) = lists else {
            self.memory.refuse();
            return;
        };
        for k in 0..lists.len() {
            self.take(&mut lists[k]);
        }
    }

    /// Brings the units of the parts that workers draw, each part in one thread. A worker passes
    /// the gate of the crew as it begins, and leaves it as it ends.
    fn bring_drawn<R: Threads + Sync, G: PhaseGate>(&mut self, rt: &R, cut: &Cut, crew: &Crew<G>) {
        let alloc = self.memory.alloc();
        let gate = crew.gate();
        let alone = Crew::new(1, OpenGate);
        let next = AtomicU64::new(0);
        let work = |worker: usize| -> Found {
            gate.pass(0, narrow(worker));
            let mut found = Found::none(alloc);
            found.draw_all(rt, cut, &next, &alone);
            gate.leave(0, narrow(worker));
            found
        };
        self.take_all(thread::map_indices(rt, alloc, crew.workers() as usize, &work));
    }

    /// Brings the units of the large parts, one part after another, by pulses of the crew. Stops if
    /// memory is refused.
    fn bring_large<R: Threads + Sync, G: PhaseGate>(&mut self, rt: &R, cut: &Cut, crew: &Crew<G>) {
        for part in 0..cut.parts.count() {
            if cut.is_large(part) & !self.memory.is_refused() {
                self.find(rt, cut, part, crew);
            }
        }
    }
}

/// Returns the flow at each gate of a region that is cut, and how the crew shared the work.
pub(crate) fn flow_of_parts<R: Threads + Sync, G: PhaseGate>(
    rt: &R,
    memory: &mut Memory,
    cut: &Cut,
    crew: &Crew<G>,
) -> CutFlow {
    let mut found = Found::none(memory.alloc());
    found.bring_drawn(rt, cut, crew);
    found.bring_large(rt, cut, crew);
    memory.refuse_if(found.memory.is_refused());
    let workers = crew.workers() as usize;
    let (gates, gathering) = gathered(rt, memory, cut, found.flows.as_slice(), workers);
    let Found {
        memory: own,
        flows,
        drawn,
    } = found;
    drop(own);
    drop(flows);
    CutFlow {
        gates,
        shares: Shares {
            joining: cut.parts.workers(),
            drawing: drawn,
            gathering,
        },
    }
}
