//! The number of gates that stand one above the other, and the gates that have to stay so that no
//! path gets too long. Each gate that reads a member of a set is in the set. So the copies behind a
//! latch before a gate reach the readers of the latches of before. The length of that path doesn't
//! depend on the set.

use crate::drafts::Draft;
use crate::tables::{entry, has_mark, number, set_entry, set_mark};
use aig_graph::Memory;

/// Raises an entry to `number`, if it is less.
fn lift(numbers: &mut [u32], place: u32, number: u32) {
    let least = entry(numbers, place).max(number);
    set_entry(numbers, place, least);
}

/// Puts the most gates on a way to each variable in `levels`.
fn fill_levels(draft: &Draft, levels: &mut [u32]) {
    for var in draft.first_gate()..draft.end() {
        let pair = draft.gate(var);
        let below = entry(levels, pair.larger.var()).max(entry(levels, pair.smaller.var()));
        set_entry(levels, var, below.saturating_add(1));
    }
}

/// Returns the greatest level at a latch or a property.
fn most_of(draft: &Draft, levels: &[u32]) -> u32 {
    let mut most = 0u32;
    for place in 0..draft.many_latches() {
        most = most.max(entry(levels, draft.latch(place).next.var()));
    }
    for place in 0..number(draft.observed.len()) {
        most = most.max(entry(levels, draft.observed(place).var()));
    }
    most
}

/// Returns the most gates on a way to a latch or a property.
pub fn levels_of(memory: &mut Memory, draft: &Draft) -> u32 {
    let mut levels = memory.table(0u32, draft.size());
    fill_levels(draft, levels.as_mut_slice());
    most_of(draft, levels.as_slice())
}

/// Counts each gate at its own entry, and raises those of its fan-ins to that.
fn climb(draft: &Draft, heights: &mut [u32]) {
    for var in (draft.first_gate()..draft.end()).rev() {
        let pair = draft.gate(var);
        let height = entry(heights, var).saturating_add(1);
        set_entry(heights, var, height);
        lift(heights, pair.larger.var(), height);
        lift(heights, pair.smaller.var(), height);
    }
}

/// Starts a departure at each latch: the variable that it reads is as high as the readers of the
/// latch.
fn depart(draft: &Draft, heights: &[u32], departures: &mut [u32]) {
    for place in 0..draft.many_latches() {
        let own = draft.first_latch().wrapping_add(place);
        let next = draft.latch(place).next.var();
        lift(departures, next, entry(heights, own));
    }
}

/// Returns, by variable, the most gates on a way from a latch before it to a latch or a property.
/// The way goes through copies of the variable and of the gates above it.
fn departures_of(memory: &mut Memory, draft: &Draft) -> Vec<u32> {
    let mut heights = memory.table(0u32, draft.size());
    let mut departures = memory.table(0u32, draft.size());
    climb(draft, heights.as_mut_slice());
    depart(draft, heights.as_slice(), departures.as_mut_slice());
    climb(draft, departures.as_mut_slice());
    departures
}

/// Freezes the gates that depart higher than `bound`. Returns true if one wasn't frozen before.
fn freeze_above(draft: &Draft, departures: &[u32], bound: u32, frozen: &mut [bool]) -> bool {
    let mut any = false;
    for var in draft.first_gate()..draft.end() {
        if (entry(departures, var) > bound) & !has_mark(frozen, var) {
            set_mark(frozen, var, true);
            any = true;
        }
    }
    any
}

/// Freezes the gates that would make a way longer than `bound`. Returns true if one wasn't frozen
/// before.
pub fn freeze_long(memory: &mut Memory, draft: &Draft, bound: u32, frozen: &mut [bool]) -> bool {
    let departures = departures_of(memory, draft);
    freeze_above(draft, departures.as_slice(), bound, frozen)
}
