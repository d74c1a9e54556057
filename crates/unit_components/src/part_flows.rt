//! The flow of a part, which is a region of its own. Its known latches and passable gates have
//! variables from 0 on, in the order of their places.

use crate::cut::Cut;
use crate::ranges::count_before;
use aig_graph::{Gate, Latch, Lit, Memory, Reset};
use pulse::{Crew, PhaseGate};
use std::thread::Threads;
use unit_flows::GateFlow;
use unit_pulses::first_flow;
use unit_starts::Region;

/// A known latch. Its next literal may lead anywhere: the marks of what leaves say if anything
/// outside of the gates reads it.
const KNOWN: Latch = Latch {
    next: Lit::FALSE,
    reset: Reset::Zero,
};

/// The tables of a part.
#[derive(Drop)]
pub(crate) struct Part {
    latches: Vec<Latch>,
    gates: Vec<Gate>,
    passes: Vec<bool>,
    leaving: Vec<bool>,
}

impl Part {
    /// Appends the gate at `place` to the tables, or the marks of the latch there; latches are in
    /// their table already.
    fn push(&mut self, memory: &mut Memory, cut: &Cut, place: usize) {
        let region = &cut.region;
        let number = region.gate_number(place);
        let is_gate = number < region.gates.len();
        memory.push(&mut self.leaving, region.leaves(place));
        memory.push(&mut self.passes, is_gate);
        if is_gate {
            let gate = &region.gates[number];
            let own = Gate {
                rhs0: cut.parts.literal(region, gate.rhs0),
                rhs1: cut.parts.literal(region, gate.rhs1),
            };
            memory.push(&mut self.gates, own);
        }
    }

    /// Returns the tables of part `number`.
    pub fn of(memory: &mut Memory, cut: &Cut, number: usize) -> Part {
        let places = cut.parts.places(number);
        let latches = count_before(places, cut.region.latches.len());
        let mut part = Part {
            latches: memory.table(KNOWN, latches),
            gates: memory.list(places.len().saturating_sub(latches)),
            passes: memory.list(places.len()),
            leaving: memory.list(places.len()),
        };
        for k in 0..places.len() {
            part.push(memory, cut, places[k] as usize);
        }
        part
    }

    /// Returns the flow at the part's gates, by the pulses of a crew from a start. It is empty if
    /// memory was refused.
    pub fn flow<R: Threads + Sync, G: PhaseGate>(
        &self,
        rt: &R,
        memory: &mut Memory,
        crew: &Crew<G>,
    ) -> Vec<GateFlow> {
        if memory.is_refused() {
            return memory.nothing();
        }
        let own = Region {
            first: 0,
            latches: self.latches.as_slice(),
            gates: self.gates.as_slice(),
            passes: self.passes.as_slice(),
            leaving: self.leaving.as_slice(),
        };
        match first_flow(rt, memory.alloc(), &own, crew) {
            Ok(flows) => flows,
            Err(_) => memory.refused_list(),
        }
    }
}
