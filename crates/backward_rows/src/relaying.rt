//! A draft with some latches more or fewer. Latches stand by rising names again, so their order
//! doesn't depend on what was left out meanwhile.

use aig_graph::Memory;
use backward_sets::{
    Draft, DraftLatch, Literal, Pair, entry, has_mark, number, set_entry, set_mark,
};
use std::mem;

/// The variables of a draft, and then of latches that come to it, and what each becomes.
#[derive(Drop)]
struct Relaying {
    /// The variable of the first latch.
    first: u32,
    /// How many latches there were.
    before: u32,
    /// How many there are.
    after: u32,
    /// The end of the variables of the draft before.
    end: u32,
    /// By latch, those that come last, its new place.
    places: Vec<u32>,
    /// The keys of the latches that there are, rising.
    keys: Vec<u64>,
}

/// Returns a number by which latches are put in order: the name, and then the place.
fn key(name: u32, place: u32) -> u64 {
    (u64::from(name) << 32) | u64::from(place)
}

/// Puts the keys of the latches that stay, and of those that come: how many there are.
fn put_keys(draft: &Draft, back: &[DraftLatch], hides: &[bool], keys: &mut [u64]) -> usize {
    let mut many = 0usize;
    for place in 0..draft.many_latches() {
        if !has_mark(hides, place) && many < keys.len() {
            keys[many] = key(draft.latch(place).name, place);
            many = many.wrapping_add(1);
        }
    }
    for place in 0..back.len() {
        if many < keys.len() {
            let own = draft.many_latches().wrapping_add(number(place));
            keys[many] = key(back[place].name, own);
            many = many.wrapping_add(1);
        }
    }
    many
}

/// Returns the keys of the latches that stay, and of those that come, rising.
fn keys_of(memory: &mut Memory, draft: &Draft, back: &[DraftLatch], hides: &[bool]) -> Vec<u64> {
    let all = draft.latches.len().saturating_add(back.len());
    let mut keys = memory.table(0u64, all);
    let many = put_keys(draft, back, hides, keys.as_mut_slice());
    keys.truncate(many);
    keys.sort_unstable();
    keys
}

/// Returns the latch at a place; those that come are last.
fn latch_at(draft: &Draft, back: &[DraftLatch], place: u32) -> DraftLatch {
    let own = place.wrapping_sub(draft.many_latches()) as usize;
    if place < draft.many_latches() {
        draft.latch(place)
    } else if own < back.len() {
        back[own]
    } else {
        DraftLatch::NONE
    }
}

/// Returns the latch that has a key.
fn place_of(key: u64) -> u32 {
    (key & 0xffff_ffff) as u32
}

impl Relaying {
    /// Returns what becomes of the variables of a draft if its latches stand by their keys. Those
    /// of `back` come, and those that `hides` marks go.
    fn of(memory: &mut Memory, draft: &Draft, back: &[DraftLatch], hides: &[bool]) -> Relaying {
        let keys = keys_of(memory, draft, back, hides);
        let all = draft.latches.len().saturating_add(back.len());
        let mut places = memory.table(0u32, all);
        for place in 0..keys.len() {
            set_entry(places.as_mut_slice(), place_of(keys[place]), number(place));
        }
        Relaying {
            first: draft.first_latch(),
            before: draft.many_latches(),
            after: number(keys.len()),
            end: draft.end(),
            places,
            keys,
        }
    }

    /// Returns what becomes of a variable.
    fn var(&self, var: u32) -> u32 {
        let place = var.wrapping_sub(self.first);
        let late = var.wrapping_sub(self.end).wrapping_add(self.before);
        if var < self.first {
            var
        } else if place < self.before {
            entry(self.places.as_slice(), place).wrapping_add(self.first)
        } else if var < self.end {
            var.wrapping_sub(self.before).wrapping_add(self.after)
        } else {
            entry(self.places.as_slice(), late).wrapping_add(self.first)
        }
    }

    /// Returns what becomes of a literal.
    fn literal(&self, lit: Literal) -> Literal {
        Literal::of(self.var(lit.var())).signed_as(lit)
    }

    /// Has gates read what becomes of what they read.
    fn put_gates(&self, gates: &mut [Pair]) {
        for place in 0..gates.len() {
            let pair = gates[place];
            gates[place] = Pair {
                larger: self.literal(pair.larger),
                smaller: self.literal(pair.smaller),
            };
        }
    }

    /// Puts what becomes of literals.
    fn put_literals(&self, literals: &mut [Literal]) {
        for place in 0..literals.len() {
            literals[place] = self.literal(literals[place]);
        }
    }

    /// Returns the latches in their order, which read what becomes of what they read.
    fn latches(&self, memory: &mut Memory, draft: &Draft, back: &[DraftLatch]) -> Vec<DraftLatch> {
        let mut latches = memory.list(self.keys.len());
        for key in self.keys.as_slice() {
            let latch = latch_at(draft, back, place_of(*key));
            let next = self.literal(latch.next);
            memory.push(&mut latches, DraftLatch { next, ..latch });
        }
        latches
    }

    /// Puts the marks of what gates become.
    fn put_marks(&self, marks: &[bool], all: &mut [bool]) {
        for var in self.first.wrapping_add(self.before)..self.end {
            set_mark(all, self.var(var), has_mark(marks, var));
        }
    }
}

/// Gives a draft latches that come back, and leaves out those that `hides` marks. The variables of
/// latches that come back so far come after all others.
pub(crate) fn relay(
    memory: &mut Memory,
    draft: &mut Draft,
    marks: &mut Vec<bool>,
    back: &[DraftLatch],
    hides: &[bool],
) {
    let relaying = Relaying::of(memory, draft, back, hides);
    let latches = relaying.latches(memory, draft, back);
    drop(mem::replace(&mut draft.latches, latches));
    relaying.put_gates(draft.gates.as_mut_slice());
    relaying.put_literals(draft.observed.as_mut_slice());
    let mut all = memory.table(false, draft.size());
    relaying.put_marks(marks.as_slice(), all.as_mut_slice());
    drop(mem::replace(marks, all));
}
