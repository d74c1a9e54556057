//! A circuit that is opened by plans, and closed again.

use crate::closing::{Closure, closed};
use crate::masks::{Masks, masks_of, no_masks};
use crate::nets::Net;
use crate::opening::net_of;
use crate::plans::Plan;
use aig_graph::{Circuit, Keep, Lit, Memory, property_literals};
use backward_sets::{DraftLatch, has_mark, number};
use hold_drafts::{Candidates, Opening, Way, candidates_of, opened, opens_otherwise};
use path_levels::levels;
use sealed_drafts::{SealError, drawn_circuit};

/// The circuit that is opened, with the ways in which its latches may be.
#[derive(Drop)]
pub struct Scene<'a> {
    pub circuit: &'a Circuit,
    pub keep: &'a Keep,
    /// The literals of its properties.
    properties: Vec<Lit>,
    candidates: Candidates,
}

/// Returns the circuit of a draft, unless memory is refused or it is out of range.
pub fn sealed(memory: &mut Memory, made: Result<Circuit, SealError>) -> Option<Circuit> {
    match made {
        Ok(circuit) => Some(circuit),
        Err(SealError::NoMemory) => {
            memory.refuse();
            None
        }
        Err(SealError::OutOfRange) => None,
    }
}

/// Returns the levels of a circuit.
fn count_levels(memory: &mut Memory, circuit: &Circuit) -> u32 {
    match levels(memory.alloc(), circuit) {
        Ok(levels) => levels,
        Err(_) => {
            memory.refuse();
            0
        }
    }
}

/// Returns the positions of the latches that are held.
pub fn held_positions(memory: &mut Memory, keep: &Keep, latches: &[DraftLatch]) -> Vec<u32> {
    let mut held = memory.nothing();
    let mut place = 0u32;
    for latch in latches {
        let is_held = match latch.origin {
            Some(origin) => keep.has(origin),
            None => false,
        };
        if is_held {
            memory.push(&mut held, place);
        }
        place = place.wrapping_add(1);
    }
    held
}

/// Returns by position if a latch is needed: marks by variable say which are. Returns no mark if
/// all that were opened are needed.
pub fn needed(memory: &mut Memory, opened: &[bool], read: &[bool]) -> Vec<bool> {
    let mut only = memory.list(opened.len());
    let mut spare = false;
    for place in 0..number(opened.len()) {
        let is_read = has_mark(read, place.wrapping_add(1));
        spare = spare | (!is_read & has_mark(opened, place));
        memory.push(&mut only, is_read);
    }
    if spare { only } else { memory.nothing() }
}

impl<'a> Scene<'a> {
    /// Returns the scene of a circuit, unless memory is refused.
    pub fn of(memory: &mut Memory, circuit: &'a Circuit, keep: &'a Keep) -> Option<Scene<'a>> {
        let Ok(properties) = property_literals(memory.alloc(), circuit.props()) else {
            memory.refuse();
            return None;
        };
        let scene = Scene {
            circuit,
            keep,
            properties,
            candidates: candidates_of(memory, circuit, keep),
        };
        if memory.is_refused() {
            None
        } else {
            Some(scene)
        }
    }

    /// Returns true if outer parts of holds open as the holds do, so that a plan was tried before.
    fn repeats(&self, memory: &mut Memory, plan: Plan) -> bool {
        let latches = self.circuit.aig().latches().len();
        plan.way == Way::Outer && !opens_otherwise(memory, &self.candidates, latches)
    }

    /// Returns the circuit opened, and its masks.
    fn opened(&self, memory: &mut Memory, plan: Plan, only: Option<&[bool]>) -> (Opening, Masks) {
        let opening = opened(
            memory,
            self.circuit,
            self.properties.as_slice(),
            self.keep,
            &self.candidates,
            plan.way,
            only,
        );
        let masks = if plan.masks {
            masks_of(memory, &opening, only)
        } else {
            no_masks(memory, &opening)
        };
        (opening, masks)
    }

    /// Returns the circuit with classes of latches by a plan. If there are marks, only marked
    /// latches are opened. Returns nothing if all latches are plain, or another plan does the same.
    pub fn net(&self, memory: &mut Memory, plan: Plan, only: Option<&[bool]>) -> Option<Net> {
        if self.repeats(memory, plan) {
            return None;
        }
        let (opening, masks) = self.opened(memory, plan, only);
        if plan.masks & masks.are_none() {
            return None;
        }
        let net = net_of(memory, &opening, &masks);
        drop(opening);
        if net.classes == 0 { None } else { Some(net) }
    }

    /// Returns a circuit of classes, closed.
    pub fn closure(&self, memory: &mut Memory, net: &Net) -> Closure {
        let aig = self.circuit.aig();
        let latches = number(aig.latches().len());
        let size = aig.latches_and_gates();
        closed(memory, net, self.properties.as_slice(), latches, size)
    }

    /// Returns the circuit of a closed one, or nothing if it is out of range.
    pub fn drawn(&self, memory: &mut Memory, closed: &Closure) -> Option<Circuit> {
        let circuit = drawn_circuit(
            memory.alloc(),
            self.circuit,
            closed.latches.as_slice(),
            closed.gates.as_slice(),
            closed.stands.as_slice(),
        );
        sealed(memory, circuit)
    }

    /// Returns true if a circuit has fewer latches than the one that is opened, and no path that is
    /// too long. Such a path is longer than that one's, and than `most` gates, if that is a bound.
    pub fn is_bettered_by(
        &self,
        memory: &mut Memory,
        circuit: &Circuit,
        most: Option<u32>,
    ) -> bool {
        if circuit.aig().known_latches() >= self.circuit.aig().known_latches() {
            return false;
        }
        match most {
            Some(bound) => {
                let own = count_levels(memory, self.circuit);
                count_levels(memory, circuit) <= bound.max(own)
            }
            None => true,
        }
    }
}
