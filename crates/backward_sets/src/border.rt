//! A set of gates, and its border: the variables outside of it that its gates read, or latches that
//! take part.

use crate::drafts::Draft;
use crate::starts::{Wish, wish_of};
use crate::tables::{has_mark, number, set_mark};
use aig_graph::Memory;

/// A set of gates and its border, by variable.
#[derive(Drop)]
pub struct Bordered {
    pub inside: Vec<bool>,
    pub border: Vec<bool>,
}

impl Bordered {
    /// Returns true if a variable is in the set.
    pub fn has(&self, var: u32) -> bool {
        has_mark(self.inside.as_slice(), var)
    }

    /// Returns true if a variable is in the border.
    pub fn borders(&self, var: u32) -> bool {
        has_mark(self.border.as_slice(), var)
    }

    /// Returns the number of variables of the border that take two latches, by `wishes`.
    pub fn doubled(&self, wishes: &[Wish]) -> u32 {
        let mut doubled = 0u32;
        for var in 0..number(wishes.len()) {
            let both = self.borders(var) & wish_of(wishes, var).is_both();
            doubled = doubled.wrapping_add(u32::from(both));
        }
        doubled
    }
}

/// Marks a variable that is read, unless it is in the set.
fn mark_outside(border: &mut [bool], inside: &[bool], var: u32) {
    set_mark(border, var, !has_mark(inside, var));
}

/// Marks the variables outside of a set that latches which take part read, or its gates.
fn mark_border(draft: &Draft, inside: &[bool], border: &mut [bool]) {
    for place in 0..draft.many_latches() {
        let latch = draft.latch(place);
        if latch.takes_part() {
            mark_outside(border, inside, latch.next.var());
        }
    }
    for var in draft.first_gate()..draft.end() {
        if has_mark(inside, var) {
            let pair = draft.gate(var);
            mark_outside(border, inside, pair.larger.var());
            mark_outside(border, inside, pair.smaller.var());
        }
    }
}

/// Returns by variable if it is in the border of a set.
pub fn border_of(memory: &mut Memory, draft: &Draft, inside: &[bool]) -> Vec<bool> {
    let mut border = memory.table(false, draft.size());
    mark_border(draft, inside, border.as_mut_slice());
    border
}

/// Returns true if a set may move as it is: its gates may (`may`), and each gate that reads one is
/// in it.
pub fn is_closed(draft: &Draft, may: &[bool], inside: &[bool]) -> bool {
    let mut closed = true;
    for var in draft.first_gate()..draft.end() {
        let pair = draft.gate(var);
        let reads = has_mark(inside, pair.larger.var()) | has_mark(inside, pair.smaller.var());
        closed = closed & (has_mark(may, var) | !has_mark(inside, var));
        closed = closed & (has_mark(inside, var) | !reads);
    }
    closed
}
