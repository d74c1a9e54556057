//! Routes of the units of a flow: each unit is followed from its known latch over the gates that
//! took it, to where it leaves.
//!
//! These routes are hints. The check of the certificate tells whether they are routes, apart from
//! one another, and enough.

use aig_graph::{Aig, Circuit, Gate, NoMemory};
use certificates::Routes;
use frame_net::Point;
use std::alloc::Global;
use unit_flows::GateFlow;

/// Stands for no gate.
const NOBODY: u32 = u32::MAX;

/// The next step of a unit from before a gate: through it, down to before the fan-in with this
/// variable, or nowhere.
#[derive(Clone, Copy)]
enum Step {
    Through,
    Down(u32),
    Left,
}

/// The ways of a flow's units. If memory is refused, points or routes are missing.
///
/// Places count latches and then gates, from the first latch on. `leaving` marks the places where a
/// unit leaves, and `takers` has the gate that took the unit there. `followed` has, by gate, the
/// number of units that were followed from before it. `trail` has the points on the way of the last
/// unit.
#[derive(Drop)]
struct Ways<'a> {
    aig: &'a Aig,
    flows: &'a [GateFlow],
    leaving: &'a [bool],
    takers: Vec<u32>,
    followed: Vec<u32>,
    trail: Vec<Point>,
    refused: bool,
}

/// Notes that `gate` took the unit after the variable at `place`, if `took` is true.
fn note_taker(takers: &mut [u32], place: u32, gate: u32, took: bool) {
    let place = place as usize;
    if took && place < takers.len() {
        takers[place] = gate;
    }
}

/// Notes by place, from the first latch on, the number of the gate that took the unit there.
fn note_takers(takers: &mut [u32], aig: &Aig, flows: &[GateFlow]) {
    let first = aig.first_latch();
    let gates = aig.gates();
    for k in 0..gates.len() {
        if k < flows.len() {
            let (literals, flow) = (&gates[k], &flows[k]);
            let (smaller, larger) = (literals.rhs1.var(), literals.rhs0.var());
            note_taker(takers, smaller.wrapping_sub(first), k as u32, flow.first_up);
            note_taker(takers, larger.wrapping_sub(first), k as u32, flow.second_up);
        }
    }
}

/// Returns the number of the next unit to follow from before a gate, and counts it. Returns
/// `u32::MAX` if the table has no entry.
fn next_followed(followed: &mut [u32], gate: u32) -> u32 {
    let gate = gate as usize;
    if gate < followed.len() {
        let number = followed[gate];
        followed[gate] = number.saturating_add(1);
        number
    } else {
        u32::MAX
    }
}

impl<'a> Ways<'a> {
    /// Returns the ways before any unit is followed.
    fn new(
        alloc: Global,
        aig: &'a Aig,
        leaving: &'a [bool],
        flows: &'a [GateFlow],
    ) -> Result<Ways<'a>, NoMemory> {
        let mut takers = vec![in alloc; NOBODY; aig.latches_and_gates()]?;
        note_takers(takers.as_mut_slice(), aig, flows);
        let followed = vec![in alloc; 0u32; aig.gates().len()]?;
        Ok(Ways {
            aig,
            flows,
            leaving,
            takers,
            followed,
            trail: Vec::new(alloc),
            refused: false,
        })
    }

    /// Returns the next unit's step from before a gate. The first unit goes through, if any does.
    fn step(&mut self, gate: u32) -> Step {
        let number = next_followed(self.followed.as_mut_slice(), gate);
        let gates = self.aig.gates();
        let gate = gate as usize;
        if gate < gates.len() && gate < self.flows.len() {
            step_by(&gates[gate], &self.flows[gate], number)
        } else {
            Step::Left
        }
    }

    /// Appends the point before a variable, or the one behind it, to the trail.
    fn put(&mut self, var: u32, behind: bool) {
        if self.trail.push(Point { var, behind }).is_err() {
            self.refused = true;
        }
    }

    /// Follows a unit from before a gate, down to before others, until it goes through one. Returns
    /// the number of that gate, or `NOBODY` if the unit goes nowhere.
    fn climb(&mut self, taker: u32) -> u32 {
        let first = self.aig.first_gate();
        let mut gate = taker;
        for _ in 0..u32::MAX {
            self.put(first.wrapping_add(gate), false);
            match self.step(gate) {
                Step::Through => return gate,
                Step::Down(var) => gate = var.wrapping_sub(first),
                Step::Left => return NOBODY,
            }
        }
        NOBODY
    }

    /// Returns the gate that took the unit after a place, or `NOBODY`.
    fn taker(&self, place: u32) -> u32 {
        let place = place as usize;
        if place < self.takers.len() {
            self.takers[place]
        } else {
            NOBODY
        }
    }

    /// Returns true if a unit leaves after a place.
    fn leaves(&self, place: u32) -> bool {
        let place = place as usize;
        place < self.leaving.len() && self.leaving[place]
    }

    /// Counts the latches, which come before the gates.
    fn latches(&self) -> u32 {
        self.aig.first_gate().saturating_sub(self.aig.first_latch())
    }

    /// Follows the unit of a latch, and puts its points into the trail. Returns true if it leaves.
    fn follow(&mut self, latch: u32) -> bool {
        let (first, latches) = (self.aig.first_latch(), self.latches());
        let mut place = latch;
        self.trail.clear();
        for _ in 0..u32::MAX {
            self.put(first.wrapping_add(place), true);
            if self.leaves(place) {
                return true;
            }
            let taker = self.taker(place);
            if taker == NOBODY {
                return false;
            }
            let gate = self.climb(taker);
            if gate == NOBODY {
                return false;
            }
            place = latches.saturating_add(gate);
        }
        false
    }

    /// Appends the routes of all units that leave, until memory is refused.
    fn push_routes(&mut self, routes: &mut Routes) {
        let first = self.aig.first_latch();
        for latch in 0..self.latches() {
            let is_known = self.aig.is_known_latch(first.saturating_add(latch));
            if is_known & !self.refused && self.follow(latch) {
                self.refused |= routes.push(self.trail.as_slice()).is_err();
            }
        }
    }

    /// Returns the routes of all units that leave.
    fn routes(&mut self, alloc: Global) -> Result<Routes, NoMemory> {
        let mut routes = Routes::with_room(alloc, self.aig.known_latches() as usize)?;
        self.push_routes(&mut routes);
        if self.refused {
            drop(routes);
            return Err(NoMemory);
        }
        Ok(routes)
    }
}

/// Returns the step of unit `number`, from 0, of those before a gate.
fn step_by(gate: &Gate, flow: &GateFlow, number: u32) -> Step {
    if flow.through & (number == 0) {
        return Step::Through;
    }
    let below = number.saturating_sub(u32::from(flow.through));
    if below < flow.down(false) {
        Step::Down(gate.rhs1.var())
    } else if below < flow.down(false).saturating_add(flow.down(true)) {
        Step::Down(gate.rhs0.var())
    } else {
        Step::Left
    }
}

/// Returns the routes of all units of a flow that leave, by the marks `leaving`.
///
/// It takes 4 bytes a latch, 8 bytes a gate, and the points of the routes.
///
/// # Errors
///
/// `NoMemory` if a table or a route is refused.
pub(crate) fn routes_of_units(
    alloc: Global,
    circuit: &Circuit,
    leaving: &[bool],
    flows: &[GateFlow],
) -> Result<Routes, NoMemory> {
    let mut ways = Ways::new(alloc, circuit.aig(), leaving, flows)?;
    let routes = ways.routes(alloc);
    drop(ways);
    routes
}
