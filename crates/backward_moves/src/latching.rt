//! The latches after a frame. The first latch that takes part and reads a border variable becomes
//! that variable's latch. It keeps its place and its sign, so latches by which nothing is gained
//! stay as they are. New latches follow, in the order of their variables.

use crate::copies::{VERSIONS, Version, copy_of, need_of, set_copy};
use aig_graph::Memory;
use backward_sets::{
    Bordered, Draft, DraftLatch, DraftReset, Literal, Wish, entry, set_entry, wish_of,
};
use checked_tables::put_if_there;

/// The fate of a latch that doesn't take part. One that becomes the latch of a copy of the variable
/// that it reads has the number of that version.
const STAYS: u32 = VERSIONS;

/// The fate of a latch that goes.
const GOES: u32 = VERSIONS + 1;

/// The latches after a frame, whose next literals are still those of before it, and the literals of
/// the copies of border variables.
#[derive(Drop)]
pub(crate) struct Latching {
    /// The variable of the first latch.
    pub first: u32,
    /// Room for all that are put.
    pub latches: Vec<DraftLatch>,
    /// The number of latches that were put.
    pub many: u32,
    /// The literal of each version, by variable.
    pub copies: Vec<Literal>,
    /// The fate of each latch of before; then the new number of one that doesn't take part.
    pub places: Vec<u32>,
    /// The first name that nothing has yet.
    pub names: u32,
}

/// Lets a latch that takes part serve for the copy of the variable that it reads. That has to be in
/// the border, without a latch that serves it. Returns the latch's fate.
fn fate_of(set: &Bordered, wishes: &[Wish], latch: &DraftLatch, copies: &mut [Literal]) -> u32 {
    let var = latch.next.var();
    let version = Version::picked(wish_of(wishes, var), need_of(latch));
    let free = copy_of(copies, var, version).code == Literal::NONE.code;
    if set.borders(var) & free {
        set_copy(copies, var, version, Literal::FALSE);
        version.place()
    } else {
        GOES
    }
}

/// Returns the reset of a latch that serves for a copy, by its sign.
fn reset_for(version: Version, latch: &DraftLatch) -> DraftReset {
    if version.is(false) | version.is(true) {
        DraftReset::of(version.is(true) != latch.next.is_negated())
    } else {
        latch.reset
    }
}

/// Returns a new latch for a variable.
fn new_latch(var: u32, name: u32) -> DraftLatch {
    DraftLatch {
        next: Literal::of(var),
        reset: DraftReset::Any,
        origin: None,
        held: false,
        name,
        list: 0,
    }
}

/// Puts a latch at `place`.
fn set_latch(latches: &mut [DraftLatch], place: u32, latch: DraftLatch) {
    put_if_there(latches, place as usize, latch);
}

impl Latching {
    /// Returns tables in which no latch was put yet.
    fn new(memory: &mut Memory, draft: &Draft, added: u32) -> Latching {
        let all = draft.latches.len().saturating_add(added as usize);
        let latches = memory.table(DraftLatch::NONE, all);
        let entries = draft.size().saturating_mul(VERSIONS as usize);
        let copies = memory.table(Literal::NONE, entries);
        let places = memory.table(STAYS, draft.latches.len());
        Latching {
            first: draft.first_latch(),
            latches,
            many: 0,
            copies,
            places,
            names: draft.names,
        }
    }

    /// Returns the name of the latch at `place`.
    pub fn name_at(&self, place: u32) -> u32 {
        let place = place as usize;
        if place < self.latches.len() {
            self.latches[place].name
        } else {
            0
        }
    }

    /// Sets the fates of latches that take part: of those whose reset is settled if `settled`, else
    /// of the others.
    fn serve(&mut self, draft: &Draft, set: &Bordered, wishes: &[Wish], settled: bool) {
        for place in 0..draft.many_latches() {
            let latch = draft.latch(place);
            if latch.takes_part() & (latch.is_settled() == settled) {
                let fate = fate_of(set, wishes, &latch, self.copies.as_mut_slice());
                set_entry(self.places.as_mut_slice(), place, fate);
            }
        }
    }

    /// Appends a latch.
    fn append(&mut self, latch: DraftLatch) {
        set_latch(self.latches.as_mut_slice(), self.many, latch);
        self.many = self.many.wrapping_add(1);
    }

    /// Puts `latch`, which serves for a copy, with the copy's reset.
    fn put(&mut self, latch: &DraftLatch, version: Version) {
        let lit = Literal::of(self.first.wrapping_add(self.many)).signed_as(latch.next);
        set_copy(self.copies.as_mut_slice(), latch.next.var(), version, lit);
        self.append(DraftLatch {
            next: latch.next,
            reset: reset_for(version, latch),
            origin: latch.origin,
            held: latch.held,
            name: latch.name,
            list: latch.list,
        });
    }

    /// Puts the latch that the one at `place` of before becomes, if it stays.
    fn keep(&mut self, place: u32, latch: &DraftLatch) {
        let fate = entry(self.places.as_slice(), place);
        set_entry(self.places.as_mut_slice(), place, self.many);
        if fate == STAYS {
            self.append(*latch);
        } else if fate < STAYS {
            self.put(latch, Version::of(fate));
        }
    }

    /// Puts new latches for the copies of a border variable that have none.
    fn add(&mut self, var: u32, wish: Wish) {
        for place in 0..VERSIONS {
            let version = Version::of(place);
            let lit = copy_of(self.copies.as_slice(), var, version);
            if version.is_wished(wish) & (lit.code == Literal::NONE.code) {
                self.put(&new_latch(var, self.names), version);
                self.names = self.names.wrapping_add(1);
            }
        }
    }

    /// Puts all latches of before that stay, and new latches for all copies of border variables
    /// that have none.
    fn put_all(&mut self, draft: &Draft, set: &Bordered, wishes: &[Wish]) {
        for place in 0..draft.many_latches() {
            self.keep(place, &draft.latch(place));
        }
        for var in 0..draft.end() {
            if set.borders(var) {
                self.add(var, wish_of(wishes, var));
            }
        }
    }

    /// Returns the latches, and the literals of copies.
    pub fn into_latches_and_copies(self) -> (Vec<DraftLatch>, Vec<Literal>) {
        let Latching {
            first: _first,
            mut latches,
            many,
            copies,
            places: _places,
            names: _names,
        } = self;
        latches.truncate(many as usize);
        (latches, copies)
    }
}

/// Returns the latches after a frame over a set, by the wishes at its border, which takes `after`
/// latches.
pub(crate) fn latching_of(
    memory: &mut Memory,
    draft: &Draft,
    set: &Bordered,
    wishes: &[Wish],
    after: u32,
) -> Latching {
    let mut latching = Latching::new(memory, draft, after);
    latching.serve(draft, set, wishes, true);
    latching.serve(draft, set, wishes, false);
    latching.put_all(draft, set, wishes);
    latching
}
