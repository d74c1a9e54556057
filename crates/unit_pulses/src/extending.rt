//! Extends a start along the last flow. That flow ended at places from which units left its frame;
//! if a gate of this frame reads on from there, units wait. In one pass up the gates, each gate
//! that nothing goes through takes a unit that waits after a fan-in, the larger fan-in first.

use aig_graph::{Gate, NoMemory};
use checked_tables::put_if_there;
use std::alloc::Global;
use unit_flows::GateFlow;
use unit_starts::{Region, narrow};

/// Returns true if a unit came to `place`.
fn came(region: &Region, flows: &[GateFlow], place: usize) -> bool {
    let number = region.gate_number(place);
    if number < flows.len() {
        flows[number].through
    } else {
        region.is_known_latch(place)
    }
}

/// Marks in `waits` each place to which a unit came that doesn't leave there.
fn note_waiting(region: &Region, flows: &[GateFlow], waits: &mut [bool]) {
    for place in 0..waits.len() {
        waits[place] = came(region, flows, place) & !region.leaves(place);
    }
}

/// Takes the unit that waits at `place`. Returns true if there was one.
fn takes(waits: &mut [bool], place: u32) -> bool {
    let place = place as usize;
    if place >= waits.len() {
        return false;
    }
    let waited = waits[place];
    waits[place] = false;
    waited
}

/// Clears the marks of places from which units went on to gates.
fn clear_gone(region: &Region, flows: &[GateFlow], waits: &mut [bool]) {
    let gates = region.gates;
    for k in 0..gates.len() {
        if k < flows.len() {
            if flows[k].first_up {
                takes(waits, region.place(gates[k].rhs1));
            }
            if flows[k].second_up {
                takes(waits, region.place(gates[k].rhs0));
            }
        }
    }
}

/// The number of units that an extension moved, and the number of those that came to the sink.
#[derive(Clone, Copy)]
pub(crate) struct Extension {
    pub taken: usize,
    pub brought: usize,
}

impl Extension {
    const NONE: Extension = Extension {
        taken: 0,
        brought: 0,
    };

    /// Counts a unit that a gate took. `leaves` is true if it came to the sink.
    fn count(&mut self, leaves: bool) {
        self.taken = self.taken.saturating_add(1);
        if leaves {
            self.brought = self.brought.saturating_add(1);
        }
    }
}

/// Lets the gate at a place take a unit that waits after a fan-in, if there is one, and counts it.
fn take(
    region: &Region,
    waits: &mut [bool],
    place: u32,
    gate: &Gate,
    flow: &mut GateFlow,
    extension: &mut Extension,
) {
    let second = takes(waits, region.place(gate.rhs0));
    if !second && !takes(waits, region.place(gate.rhs1)) {
        return;
    }
    flow.note_up(second);
    flow.through = true;
    let place = place as usize;
    let leaves = region.leaves(place);
    put_if_there(waits, place, !leaves);
    extension.count(leaves);
}

/// Lets units that wait go on to gates that nothing goes through. It takes a byte a latch and gate.
///
/// # Errors
///
/// `NoMemory` if the table is refused.
pub(crate) fn extend(
    alloc: Global,
    region: &Region,
    flows: &mut [GateFlow],
) -> Result<Extension, NoMemory> {
    let mut waits = vec![in alloc; false; region.places()]?;
    note_waiting(region, flows, waits.as_mut_slice());
    clear_gone(region, flows, waits.as_mut_slice());
    Ok(take_all(region, waits.as_mut_slice(), flows))
}

/// Lets each gate that nothing goes through take a unit that waits, if one does.
fn take_all(region: &Region, waits: &mut [bool], flows: &mut [GateFlow]) -> Extension {
    let gates = region.gates;
    let mut place = narrow(region.latches.len());
    let mut extension = Extension::NONE;
    for k in 0..flows.len() {
        if k < gates.len() {
            let is_free = region.is_passable(place as usize) & !flows[k].through;
            if is_free {
                take(
                    region,
                    waits,
                    place,
                    &gates[k],
                    &mut flows[k],
                    &mut extension,
                );
            }
        }
        place = place.wrapping_add(1);
    }
    extension
}
