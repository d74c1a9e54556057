//! A flow of units along an earlier one, as far as that leads. From each known latch a unit is sent
//! to the gate that took it from there in the earlier flow. It goes through that gate or on to
//! before a fan-in, as then, until it leaves or nothing more is known.

use crate::left_units::LeftUnits;
use crate::region::{Region, narrow};
use aig_graph::{Gate, NoMemory};
use checked_tables::entry_or;
use std::alloc::Global;
use std::mem;
use unit_flows::{GateFlow, UnitFlow, filled};

/// Stands for no gate.
const NOBODY: u32 = u32::MAX;

/// Notes that `gate` takes the unit after `place`, if no gate before it does.
fn note_taker(takers: &mut [u32], place: u32, gate: u32) {
    let place = place as usize;
    if place < takers.len() && takers[place] == NOBODY {
        takers[place] = gate;
    }
}

/// Notes which gates took units, by the places that they took them from. It isn't inlined, so that
/// the loop has the registers for itself.
#[inline(never)]
fn note_takers(takers: &mut [u32], region: &Region, known: &[GateFlow]) {
    let gates = region.gates;
    for k in 0..gates.len() {
        if k < known.len() {
            if known[k].first_up {
                note_taker(takers, region.place(gates[k].rhs1), narrow(k));
            }
            if known[k].second_up {
                note_taker(takers, region.place(gates[k].rhs0), narrow(k));
            }
        }
    }
}

/// Returns the number of the gate that took the unit after each place, from the first latch on, in
/// the memory of a table.
fn takers_in(memory: Vec<u32>, region: &Region, known: &[GateFlow]) -> Result<Vec<u32>, NoMemory> {
    let mut takers = filled(memory, NOBODY, region.places())?;
    note_takers(takers.as_mut_slice(), region, known);
    Ok(takers)
}

/// Returns the known flow at `gate`, nothing past the end.
fn known_at(known: &[GateFlow], gate: usize) -> GateFlow {
    entry_or(known, gate, GateFlow::none())
}

/// Sends a unit on from before a gate to before a fan-in, if fewer go there than is known. Returns
/// the number of the fan-in's gate, past all gates if no unit goes.
fn goes_down(region: &Region, literals: &Gate, known: &GateFlow, flow: &mut GateFlow) -> usize {
    let second = flow.first_down >= known.first_down;
    let fan_in = if second { literals.rhs0 } else { literals.rhs1 };
    let next = region.gate_number(region.place(fan_in) as usize);
    let goes = flow.down(second) < known.down(second);
    if goes & (next < region.gates.len()) {
        flow.note_down(second, flow.down(second).saturating_add(1));
        next
    } else {
        usize::MAX
    }
}

/// Sends a unit from before a gate through it, or through one to which it goes down. Returns the
/// number of the last gate that it comes to, and true if it goes through that gate.
fn goes_through(
    region: &Region,
    known: &[GateFlow],
    flows: &mut [GateFlow],
    from: usize,
) -> (usize, bool) {
    let gates = region.gates;
    let mut gate = from;
    for _ in 0..u32::MAX {
        if gate >= gates.len() || gate >= flows.len() {
            return (gate, false);
        }
        let told = known_at(known, gate);
        if told.through & !flows[gate].through {
            flows[gate].through = true;
            return (gate, true);
        }
        let next = goes_down(region, &gates[gate], &told, &mut flows[gate]);
        if next >= gates.len() {
            return (gate, false);
        }
        gate = next;
    }
    (gate, false)
}

/// Returns the number of the gate that takes the unit after `place`.
fn taker_of(takers: &[u32], place: usize) -> usize {
    entry_or(takers, place, NOBODY) as usize
}

/// Lets gate `taker` take the unit after `place`. Returns none if there is no such gate, else true
/// if the unit goes through at once.
fn comes_to(
    region: &Region,
    known: &[GateFlow],
    flows: &mut [GateFlow],
    place: usize,
    taker: usize,
) -> Option<bool> {
    if taker >= region.gates.len() || taker >= flows.len() || taker >= known.len() {
        return None;
    }
    let is_first = region.place(region.gates[taker].rhs1) as usize == place;
    flows[taker].note_up(!(is_first & known[taker].first_up));
    let goes = known[taker].through & !flows[taker].through;
    if goes {
        flows[taker].through = true;
    }
    Some(goes)
}

/// Sends the unit after a latch as far as its way is known, and notes the place at which it is
/// left.
fn send(
    region: &Region,
    known: &[GateFlow],
    takers: &[u32],
    flows: &mut [GateFlow],
    left: &mut LeftUnits,
    latch: usize,
) {
    let latches = region.latches.len();
    let mut place = latch;
    for _ in 0..region.places() {
        if !region.is_inside(place) {
            return;
        }
        let taker = taker_of(takers, place);
        match comes_to(region, known, flows, place, taker) {
            Some(true) => place = latches.wrapping_add(taker),
            Some(false) => {
                let (gate, goes_on) = goes_through(region, known, flows, taker);
                place = latches.wrapping_add(gate);
                if !goes_on {
                    return left.push(place, true);
                }
            }
            None => return left.push(place, false),
        }
    }
}

/// Sends the units after all known latches as far as their ways are known. Returns the places at
/// which they are left.
#[inline(never)]
fn send_all(
    alloc: Global,
    region: &Region,
    known: &[GateFlow],
    takers: &[u32],
    flows: &mut [GateFlow],
) -> LeftUnits {
    // A copy of its own, so that the loop has the tables' places and lengths at hand.
    let region = *region;
    let mut left = LeftUnits::none(alloc);
    for place in 0..region.latches.len() {
        if region.is_known_latch(place) {
            send(&region, known, takers, flows, &mut left, place);
        }
    }
    left
}

/// Sends the units along the known flow, with a spare table. Returns the places at which they are
/// left.
fn send_along(
    alloc: Global,
    region: &Region,
    known: &mut UnitFlow,
    flows: &mut [GateFlow],
) -> Result<LeftUnits, NoMemory> {
    let UnitFlow { gates, spare } = known;
    let known = gates.as_slice();
    let takers = takers_in(spare.take_numbers(alloc), region, known)?;
    let left = send_all(alloc, region, known, takers.as_slice(), flows);
    spare.keep_numbers(takers);
    left.complete()
}

/// Replaces the known flow by one along it. This takes 4 bytes a latch and gate, in a spare table,
/// and the time of the units' ways. Returns the places at which units are left.
///
/// # Errors
///
/// `NoMemory` if a table is refused.
pub(crate) fn put_along(
    alloc: Global,
    region: &Region,
    known: &mut UnitFlow,
) -> Result<LeftUnits, NoMemory> {
    let mut flows = vec![in alloc; GateFlow::none(); region.gates.len()]?;
    let left = send_along(alloc, region, known, flows.as_mut_slice());
    let put = if left.is_ok() {
        mem::replace(&mut known.gates, flows)
    } else {
        flows
    };
    drop(put);
    left
}
