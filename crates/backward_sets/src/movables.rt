//! The gates that a set may have. No property reads such a gate, nor a latch that stays; something
//! reads it, and each gate that does may be in the set too. One pass from the last gate down.

use crate::drafts::Draft;
use crate::tables::{has_mark, number, set_mark};
use aig_graph::Memory;

/// Marks a variable as read, and takes its other mark if its reader stays (`moves` is false).
fn mark_fan_in(may: &mut [bool], read: &mut [bool], var: u32, moves: bool) {
    set_mark(read, var, true);
    let still = has_mark(may, var) & moves;
    set_mark(may, var, still);
}

/// Marks the gates that don't have to stay. Then takes the marks of variables that properties read,
/// or latches that stay, and marks in `read` the variables that latches read.
fn mark_leaves(draft: &Draft, frozen: &[bool], may: &mut [bool], read: &mut [bool]) {
    for var in draft.first_gate()..draft.end() {
        set_mark(may, var, !has_mark(frozen, var));
    }
    for place in 0..number(draft.observed.len()) {
        set_mark(may, draft.observed(place).var(), false);
    }
    for place in 0..draft.many_latches() {
        let latch = draft.latch(place);
        mark_fan_in(may, read, latch.next.var(), latch.takes_part());
    }
}

/// Keeps the marks of the gates that may move.
fn mark_gates(draft: &Draft, may: &mut [bool], read: &mut [bool]) {
    for var in (draft.first_gate()..draft.end()).rev() {
        let moves = has_mark(may, var) & has_mark(read, var);
        let pair = draft.gate(var);
        set_mark(may, var, moves);
        mark_fan_in(may, read, pair.larger.var(), moves);
        mark_fan_in(may, read, pair.smaller.var(), moves);
    }
}

/// Returns by variable if it is a gate that may move, if the gates `frozen` have to stay.
pub fn movable(memory: &mut Memory, draft: &Draft, frozen: &[bool]) -> Vec<bool> {
    let mut read = memory.table(false, draft.size());
    let mut may = memory.table(false, draft.size());
    mark_leaves(draft, frozen, may.as_mut_slice(), read.as_mut_slice());
    mark_gates(draft, may.as_mut_slice(), read.as_mut_slice());
    may
}
