//! Masks of latches, as resets are. While a mask of loads is 0, the latch gets its reset; it is a
//! factor of the load. While a mask of readers is 0, all gates that read the latch see its reset;
//! it is a factor of each. Masks are taken off, and are part of the class, as the hold is. A
//! constant that isn't the reset is no mask's, so what is constant or equal without masks stays so.
//! If nothing but masked loads reads a latch, it goes with the others of its class.

use crate::nets::{literal_at, set_literal};
use aig_graph::{Memory, Reset};
use backward_sets::{Literal, Pair, entry, has_mark, number};
use checked_tables::{entry_or, put_if_covered};
use hold_drafts::{OpenLatch, Opening, PLAIN, STAYS, TRUE, classes_of};

/// Codes, rising, and how often each was put.
#[derive(Drop)]
struct Tally {
    codes: Vec<u32>,
    counts: Vec<u32>,
}

impl Tally {
    /// Counts the codes.
    fn of(memory: &mut Memory, mut all: Vec<u32>) -> Tally {
        all.sort_unstable();
        let mut codes = memory.list(all.len());
        let mut counts = memory.list(all.len());
        let mut count = 0u32;
        for place in 0..all.len() {
            count = count.wrapping_add(1);
            let after = place.wrapping_add(1);
            if after >= all.len() || all[after] != all[place] {
                memory.push(&mut codes, all[place]);
                memory.push(&mut counts, count);
                count = 0;
            }
        }
        Tally { codes, counts }
    }

    /// Returns how often a code was put.
    fn count(&self, code: u32) -> u32 {
        match self.codes.as_slice().binary_search(&code) {
            Ok(place) => entry(self.counts.as_slice(), number(place)),
            Err(_) => 0,
        }
    }
}

/// Returns the class at `place`, or that of an input past the end.
fn class_at(classes: &[u32], place: u32) -> u32 {
    entry_or(classes, place as usize, STAYS)
}

/// The masks of latches, by latch, and the constant true for none.
#[derive(Drop)]
pub(crate) struct Masks {
    pub loads: Vec<Literal>,
    pub readers: Vec<Literal>,
}

/// Stands for the mask of readers of a latch that nothing read so far.
const UNREAD: Literal = Literal::NONE;

/// Stands for the mask of readers of a latch that has none.
const MIXED: Literal = Literal::FALSE;

/// Returns true if there is none among masks.
fn all_none(masks: &[Literal]) -> bool {
    for mask in masks {
        if *mask != TRUE {
            return false;
        }
    }
    true
}

impl Masks {
    /// Returns true if no latch has a mask.
    pub fn are_none(&self) -> bool {
        all_none(self.loads.as_slice()) && all_none(self.readers.as_slice())
    }
}

/// A search for masks in an opened circuit.
#[derive(Drop)]
struct Search<'a> {
    opening: &'a Opening,
    /// If there are marks, only marked latches have masks.
    only: Option<&'a [bool]>,
    /// The class of each variable, from the first latch on.
    classes: Vec<u32>,
    /// How many latches each class has.
    sizes: Tally,
}

/// Returns how many latches each class has.
fn sizes_of(memory: &mut Memory, opening: &Opening) -> Tally {
    let mut codes = memory.list(opening.latches.len());
    for place in 0..opening.many_latches() {
        memory.push(&mut codes, opening.latch(place).class);
    }
    Tally::of(memory, codes)
}

/// Returns true if a latch starts at 1.
fn starts_at_1(latch: &OpenLatch) -> bool {
    latch.reset == Reset::One
}

/// Notes that a gate reads `lit` beside `mask`, if that is a latch's.
fn note(readers: &mut [Literal], opening: &Opening, lit: Literal, mask: Literal) {
    let place = opening.place(lit.var());
    let known = literal_at(readers, place as usize);
    let sees_reset = lit.is_negated() == starts_at_1(&opening.latch(place));
    if (known == UNREAD) & sees_reset {
        set_literal(readers, place, mask);
    } else if (known != mask) | !sees_reset {
        put_if_covered(readers, place as usize, MIXED);
    }
}

/// Notes that latches are read without a gate.
fn note_alone(readers: &mut [Literal], opening: &Opening, lits: &[Literal]) {
    for lit in lits {
        put_if_covered(readers, opening.place(lit.var()) as usize, MIXED);
    }
}

/// Notes what reads each latch.
fn note_all(readers: &mut [Literal], opening: &Opening) {
    for var in opening.first_gate()..opening.end() {
        let pair = opening.gate(var);
        note(readers, opening, pair.larger, pair.smaller);
        note(readers, opening, pair.smaller, pair.larger);
    }
    for place in 0..opening.many_latches() {
        note_alone(readers, opening, &[opening.latch(place).load]);
    }
    note_alone(readers, opening, opening.observed.as_slice());
    note_alone(readers, opening, opening.holds.as_slice());
}

/// Marks the variables of literals, from the first latch on.
fn mark_all(read: &mut [bool], opening: &Opening, lits: &[Literal]) {
    for lit in lits {
        put_if_covered(read, opening.place(lit.var()) as usize, true);
    }
}

/// Marks by variable, from the first latch on, what isn't read by masked loads alone.
fn mark_read(read: &mut [bool], opening: &Opening, loads: &[Literal]) {
    for place in 0..opening.many_latches() {
        if literal_at(loads, place as usize) == TRUE {
            mark_all(read, opening, &[opening.latch(place).load]);
        }
    }
    mark_all(read, opening, opening.observed.as_slice());
    mark_all(read, opening, opening.holds.as_slice());
    for var in opening.first_gate()..opening.end() {
        let pair = opening.gate(var);
        mark_all(read, opening, &[pair.larger, pair.smaller]);
    }
}

/// Marks the latches that such gates read.
fn mark_latches(latches: &mut [bool], opening: &Opening, read: &[bool]) {
    for var in opening.first_gate()..opening.end() {
        if has_mark(read, opening.place(var)) {
            let pair = opening.gate(var);
            mark_all(latches, opening, &[pair.larger, pair.smaller]);
        }
    }
}

impl<'a> Search<'a> {
    fn new(memory: &mut Memory, opening: &'a Opening, only: Option<&'a [bool]>) -> Search<'a> {
        Search {
            opening,
            only,
            classes: classes_of(memory, opening),
            sizes: sizes_of(memory, opening),
        }
    }

    /// Returns true if a latch may have masks.
    fn may_have(&self, latch: &OpenLatch) -> bool {
        let chosen = match self.only {
            Some(marks) => has_mark(marks, latch.origin),
            None => true,
        };
        chosen & (latch.class != STAYS)
    }

    /// Returns true if a literal may be the mask of a latch. It isn't of the latch's class, and it
    /// is one of at least two latches, and of a quarter of the class.
    fn is_mask(&self, tally: &Tally, latch: &OpenLatch, by: Literal) -> bool {
        let count = tally.count(by.code);
        let size = self.sizes.count(latch.class);
        let class = class_at(self.classes.as_slice(), self.opening.place(by.var()));
        (count > 1) & (count >= size / 4) & (class != latch.class)
    }

    /// Returns the fan-ins of the load of a latch, or constants if it has no mask.
    fn fan_ins(&self, latch: &OpenLatch) -> Pair {
        if self.may_have(latch) {
            self.opening.gate(latch.load.var())
        } else {
            Pair::NONE
        }
    }

    /// Counts the fan-ins of all loads.
    fn tally_loads(&self, memory: &mut Memory) -> Tally {
        let mut codes = memory.nothing();
        for place in 0..self.opening.many_latches() {
            let pair = self.fan_ins(&self.opening.latch(place));
            if pair.larger.var() > 0 {
                memory.push(&mut codes, pair.larger.code);
                memory.push(&mut codes, pair.smaller.code);
            }
        }
        Tally::of(memory, codes)
    }

    /// Returns the mask of a latch's load.
    fn load_mask(&self, tally: &Tally, latch: &OpenLatch) -> Literal {
        let pair = self.fan_ins(latch);
        let mask = if tally.count(pair.larger.code) > tally.count(pair.smaller.code) {
            pair.larger
        } else {
            pair.smaller
        };
        let gets_reset = latch.load.is_negated() == starts_at_1(latch);
        if (mask.var() > 0) & gets_reset & self.is_mask(tally, latch, mask) {
            mask
        } else {
            TRUE
        }
    }

    /// Returns the masks of all loads.
    fn load_masks(&self, memory: &mut Memory) -> Vec<Literal> {
        let tally = self.tally_loads(memory);
        let mut masks = memory.list(self.opening.latches.len());
        for place in 0..self.opening.many_latches() {
            let mask = self.load_mask(&tally, &self.opening.latch(place));
            memory.push(&mut masks, mask);
        }
        masks
    }

    /// Returns true if a literal doesn't change as latches with masks of readers do: it is an
    /// input's, or that of a latch that stays.
    fn is_steady(&self, loads: &[Literal], readers: &[Literal], mask: Literal) -> bool {
        let place = self.opening.place(mask.var());
        let latch = self.opening.latch(place);
        let stays = (latch.class == PLAIN) | (latch.class == STAYS);
        let bare = literal_at(loads, place as usize) == TRUE;
        let alone = literal_at(readers, place as usize) == MIXED;
        let is_latch = place < self.opening.many_latches();
        let is_input = (mask.var() > 0) & (mask.var() <= self.opening.inputs);
        is_input | (is_latch & stays & bare & alone)
    }

    /// Returns by latch if a gate reads it that isn't the load of masked latches alone.
    fn latches_read(&self, memory: &mut Memory, loads: &[Literal]) -> Vec<bool> {
        let mut read = memory.table(false, self.opening.size());
        let mut latches = memory.table(false, self.opening.latches.len());
        mark_read(read.as_mut_slice(), self.opening, loads);
        mark_latches(latches.as_mut_slice(), self.opening, read.as_slice());
        latches
    }

    /// Counts the masks of readers that are steady, of latches that more than masked loads read.
    fn tally_readers(&self, memory: &mut Memory, loads: &[Literal], readers: &[Literal]) -> Tally {
        let read = self.latches_read(memory, loads);
        let mut codes = memory.nothing();
        for place in 0..self.opening.many_latches() {
            let mask = literal_at(readers, place as usize);
            let may = self.may_have(&self.opening.latch(place)) & has_mark(read.as_slice(), place);
            if may & self.is_steady(loads, readers, mask) {
                memory.push(&mut codes, mask.code);
            }
        }
        Tally::of(memory, codes)
    }

    /// Returns the masks of the readers of all latches.
    fn reader_masks(&self, memory: &mut Memory, loads: &[Literal]) -> Vec<Literal> {
        let mut readers = memory.table(UNREAD, self.opening.latches.len());
        note_all(readers.as_mut_slice(), self.opening);
        let tally = self.tally_readers(memory, loads, readers.as_slice());
        let mut masks = memory.list(readers.len());
        for place in 0..self.opening.many_latches() {
            let latch = self.opening.latch(place);
            let mask = literal_at(readers.as_slice(), place as usize);
            let is = self.may_have(&latch) & self.is_mask(&tally, &latch, mask);
            memory.push(&mut masks, if is { mask } else { TRUE });
        }
        masks
    }
}

/// Returns the masks of an opened circuit. If there are marks, only marked latches have masks.
pub(crate) fn masks_of(memory: &mut Memory, opening: &Opening, only: Option<&[bool]>) -> Masks {
    let search = Search::new(memory, opening, only);
    let loads = search.load_masks(memory);
    let readers = search.reader_masks(memory, loads.as_slice());
    Masks { loads, readers }
}

/// Returns no masks for an opened circuit.
pub(crate) fn no_masks(memory: &mut Memory, opening: &Opening) -> Masks {
    let many = opening.latches.len();
    Masks {
        loads: memory.table(TRUE, many),
        readers: memory.table(TRUE, many),
    }
}
