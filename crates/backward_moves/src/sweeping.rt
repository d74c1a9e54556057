//! Drops gates that no property and no latch reaches.

use crate::shared::set_pair;
use aig_graph::Memory;
use backward_sets::{Draft, DraftLatch, Literal, Pair, entry, number, set_entry};

/// Puts 1 at each variable that a property or a latch reaches.
fn mark_reached(draft: &Draft, reached: &mut [u32]) {
    for place in 0..number(draft.observed.len()) {
        set_entry(reached, draft.observed(place).var(), 1);
    }
    for place in 0..draft.many_latches() {
        set_entry(reached, draft.latch(place).next.var(), 1);
    }
    for var in (draft.first_gate()..draft.end()).rev() {
        if entry(reached, var) > 0 {
            let pair = draft.gate(var);
            set_entry(reached, pair.larger.var(), 1);
            set_entry(reached, pair.smaller.var(), 1);
        }
    }
}

/// Numbers the variables that are reached, from the first gate `first` on; those before it keep
/// their numbers. Returns the end of the numbers.
fn number_reached(first: u32, numbers: &mut [u32]) -> u32 {
    for var in 0..first {
        set_entry(numbers, var, var);
    }
    let mut next = first;
    for var in first..number(numbers.len()) {
        if entry(numbers, var) > 0 {
            set_entry(numbers, var, next);
            next = next.wrapping_add(1);
        }
    }
    next
}

/// Returns a literal by its variable's new number.
fn renumbered(numbers: &[u32], lit: Literal) -> Literal {
    Literal::of(entry(numbers, lit.var())).signed_as(lit)
}

/// Moves the gates that are reached to the front, with their new numbers.
fn renumber_gates(first: u32, gates: &mut [Pair], numbers: &[u32]) {
    for place in 0..gates.len() {
        let own = entry(numbers, first.wrapping_add(number(place)));
        let pair = gates[place];
        if own > 0 {
            let pair = Pair {
                larger: renumbered(numbers, pair.larger),
                smaller: renumbered(numbers, pair.smaller),
            };
            set_pair(gates, own.wrapping_sub(first), pair);
        }
    }
}

/// Gives the literals that latches read their new numbers.
fn renumber_latches(latches: &mut [DraftLatch], numbers: &[u32]) {
    for place in 0..latches.len() {
        latches[place].next = renumbered(numbers, latches[place].next);
    }
}

/// Gives literals their new numbers.
fn renumber_literals(literals: &mut [Literal], numbers: &[u32]) {
    for place in 0..literals.len() {
        literals[place] = renumbered(numbers, literals[place]);
    }
}

/// Drops the gates that have no number, so that numbers end at `end`, and gives literals their new
/// numbers.
fn renumber(draft: &mut Draft, numbers: &[u32], end: u32) {
    let first = draft.first_gate();
    renumber_gates(first, draft.gates.as_mut_slice(), numbers);
    draft.gates.truncate(end.wrapping_sub(first) as usize);
    renumber_latches(draft.latches.as_mut_slice(), numbers);
    renumber_literals(draft.observed.as_mut_slice(), numbers);
}

/// Drops the gates of a draft that nothing reaches. Returns by variable the new numbers; variables
/// that went have 0.
pub(crate) fn sweep(memory: &mut Memory, draft: &mut Draft) -> Vec<u32> {
    let mut numbers = memory.table(0u32, draft.size());
    mark_reached(draft, numbers.as_mut_slice());
    let end = number_reached(draft.first_gate(), numbers.as_mut_slice());
    renumber(draft, numbers.as_slice(), end);
    numbers
}
