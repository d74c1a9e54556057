//! The draft after a frame, and the map of its states to those before it. Behind the latches stand
//! copies of the set's gates, which read the latches. In the map stand these copies too, with names
//! as variables. A reader of a latch then reads the copy of the variable that the latch read.

use crate::again::Copies;
use crate::composing::{FrameMap, Gone};
use crate::copies::{
    VERSIONS, Version, copy_of, literal_at, need_of, set_copy, set_literal, standing,
};
use crate::following::Following;
use crate::latching::{Latching, latching_of};
use crate::shared::{Shared, set_pair};
use crate::sweeping::sweep;
use aig_graph::Memory;
use backward_sets::{
    Bordered, Draft, DraftLatch, GateUnits, Literal, Pair, Wish, Wishes, entry, has_mark, wish_of,
};

/// A draft and its map, with the copies of the variables of before, and their replacements outside
/// of the set.
#[derive(Drop)]
pub(crate) struct Rebuilt {
    pub draft: Draft,
    pub map: FrameMap,
    pub copies: Vec<Literal>,
    pub stands: Vec<Literal>,
}

impl Rebuilt {
    /// Returns the draft and its map, and drops the copies.
    pub fn into_draft_and_map(self) -> (Draft, FrameMap) {
        let Rebuilt {
            draft,
            map,
            copies: _copies,
            stands: _stands,
        } = self;
        (draft, map)
    }

    /// Drops gates that nothing reads. Returns by variable if it is the copy of a gate of the set,
    /// and the units of gates. They follow from those of the draft `before`.
    pub fn sweep(
        &mut self,
        memory: &mut Memory,
        inside: &[bool],
        before: &Draft,
        units: &[GateUnits],
    ) -> (Vec<bool>, Vec<GateUnits>) {
        let numbers = sweep(memory, &mut self.draft);
        let mut marks = memory.table(false, self.draft.size());
        let copies = Copies {
            first: self.draft.first_gate(),
            copies: self.copies.as_slice(),
            numbers: numbers.as_slice(),
        };
        copies.mark_all(inside, marks.as_mut_slice());
        let stands = self.stands.as_slice();
        let following = Following { copies, stands };
        let units = following.units(memory, before, units, &self.draft);
        (marks, units)
    }
}

/// Returns the value that a fan-in needs at step 0 for a copy, if it matters. A copy that is to be
/// 0 needs the fan-in that makes it 0.
fn need(version: Version, makes_zero: bool, lit: Literal) -> Wish {
    if version.is(true) | (version.is(false) & makes_zero) {
        Wish::NONE.with(version.is(true) != lit.is_negated())
    } else {
        Wish::NONE
    }
}

/// Returns the most gates that stand behind the latches: the copies of the set's, and the others.
fn room(draft: &Draft, set: &Bordered, wishes: &[Wish]) -> usize {
    let mut many = draft.gates.len();
    for var in draft.first_gate()..draft.end() {
        if set.has(var) & wish_of(wishes, var).is_both() {
            many = many.saturating_add(1);
        }
    }
    many
}

/// Replaces each next literal of a latch.
fn redirect(latches: &mut [DraftLatch], stands: &[Literal]) {
    for place in 0..latches.len() {
        latches[place].next = standing(stands, latches[place].next);
    }
}

/// Writes the replacement for each of `lits`.
fn put_standing(stands: &[Literal], lits: &[Literal], all: &mut [Literal]) {
    for place in 0..all.len() {
        if place < lits.len() {
            all[place] = standing(stands, lits[place]);
        }
    }
}

/// Returns the replacements for `lits`.
fn all_standing(memory: &mut Memory, stands: &[Literal], lits: &[Literal]) -> Vec<Literal> {
    let mut all = memory.table(Literal::FALSE, lits.len());
    put_standing(stands, lits, all.as_mut_slice());
    all
}

/// The latches after a frame, and the gates behind them so far.
#[derive(Drop)]
struct Side {
    gates: Shared,
    latching: Latching,
}

impl Side {
    /// Returns the latches after a frame; the copies of the set's gates come after them.
    fn new(
        memory: &mut Memory,
        draft: &Draft,
        set: &Bordered,
        wishes: &[Wish],
        after: u32,
    ) -> Side {
        let latching = latching_of(memory, draft, set, wishes, after);
        let end = draft.first_latch().wrapping_add(latching.many);
        Side {
            gates: Shared::after(memory, end, room(draft, set, wishes)),
            latching,
        }
    }

    /// Returns the replacement for a literal, by the copy of its variable that `need` picks.
    fn literal(&self, wishes: &Wishes, lit: Literal, need: Wish) -> Literal {
        let version = Version::picked(wish_of(wishes.of.as_slice(), lit.var()), need);
        copy_of(self.latching.copies.as_slice(), lit.var(), version).signed_as(lit)
    }

    /// Puts a copy of a gate of the set.
    fn put(&mut self, wishes: &Wishes, var: u32, pair: &Pair, version: Version) {
        let by_larger = has_mark(wishes.by_larger.as_slice(), var);
        let (larger, smaller) = (
            need(version, by_larger, pair.larger),
            need(version, !by_larger, pair.smaller),
        );
        let a = self.literal(wishes, pair.larger, larger);
        let b = self.literal(wishes, pair.smaller, smaller);
        let lit = self.gates.and(a, b);
        set_copy(self.latching.copies.as_mut_slice(), var, version, lit);
    }

    /// Puts the copies of a gate of the set that are wished.
    fn put_wished(&mut self, wishes: &Wishes, var: u32, pair: &Pair) {
        let wish = wish_of(wishes.of.as_slice(), var);
        for place in 0..VERSIONS {
            if Version::of(place).is_wished(wish) {
                self.put(wishes, var, pair, Version::of(place));
            }
        }
    }

    /// Puts the copies of all gates of the set.
    fn put_all(&mut self, draft: &Draft, set: &Bordered, wishes: &Wishes) {
        for var in draft.first_gate()..draft.end() {
            if set.has(var) {
                self.put_wished(wishes, var, &draft.gate(var));
            }
        }
    }

    /// Returns the replacement for the latch at `place` of before.
    fn latch(&self, draft: &Draft, wishes: &Wishes, place: u32) -> Literal {
        let latch = draft.latch(place);
        if latch.takes_part() {
            self.literal(wishes, latch.next, need_of(&latch))
        } else {
            let own = entry(self.latching.places.as_slice(), place);
            Literal::of(draft.first_latch().wrapping_add(own))
        }
    }

    /// Puts the replacements for the constant, the inputs and the latches of before.
    fn put_latches(&self, draft: &Draft, wishes: &Wishes, stands: &mut [Literal]) {
        let first = draft.first_latch();
        for var in 0..first {
            set_literal(stands, var, Literal::of(var));
        }
        for place in 0..draft.many_latches() {
            let lit = self.latch(draft, wishes, place);
            set_literal(stands, first.wrapping_add(place), lit);
        }
    }

    /// Puts the gates outside of the set after the copies, and their replacements. Then replaces
    /// the literals that latches read.
    fn put_others(&mut self, draft: &Draft, set: &Bordered, stands: &mut [Literal]) {
        for var in draft.first_gate()..draft.end() {
            if !set.has(var) {
                let pair = draft.gate(var);
                let lit = self.gates.and(
                    standing(stands, pair.larger),
                    standing(stands, pair.smaller),
                );
                set_literal(stands, var, lit);
            }
        }
        redirect(self.latching.latches.as_mut_slice(), stands);
    }

    /// Returns the literal of a copy by its name. The first gate has the name `first`.
    fn named(&self, first: u32, lit: Literal) -> Literal {
        let latches = &self.latching;
        let place = lit.var().wrapping_sub(latches.first);
        let name = if lit.var() == 0 {
            0
        } else if place < latches.many {
            latches.name_at(place)
        } else {
            place.wrapping_sub(latches.many).wrapping_add(first)
        };
        Literal::of(name).signed_as(lit)
    }

    /// Puts the gates so far, by name.
    fn name_gates(&self, first: u32, named: &mut [Pair]) {
        for place in 0..self.gates.many() {
            let pair = self.gates.gate(place);
            let pair = Pair {
                larger: self.named(first, pair.larger),
                smaller: self.named(first, pair.smaller),
            };
            set_pair(named, place, pair);
        }
    }

    /// Returns the value of the latch at `place` of before, by name.
    fn gone_at(&self, first: u32, draft: &Draft, stands: &[Literal], place: u32) -> Gone {
        let own = literal_at(stands, draft.first_latch().wrapping_add(place));
        Gone {
            latch: draft.latch(place).name,
            by: self.named(first, own),
        }
    }

    /// Returns the number of latches of before that went.
    fn count_gone(&self, first: u32, draft: &Draft, stands: &[Literal]) -> usize {
        let mut many = 0usize;
        for place in 0..draft.many_latches() {
            let gone = self.gone_at(first, draft, stands, place);
            if !gone.stays() {
                many = many.wrapping_add(1);
            }
        }
        many
    }

    /// Puts the latches of before that went.
    fn put_gone(&self, first: u32, draft: &Draft, stands: &[Literal], all: &mut [Gone]) {
        let mut many = 0usize;
        for place in 0..draft.many_latches() {
            let gone = self.gone_at(first, draft, stands, place);
            if !gone.stays() && many < all.len() {
                all[many] = gone;
                many = many.wrapping_add(1);
            }
        }
    }

    /// Returns the map of the states after a frame to those before it, as long as only the copies
    /// of the set's gates stand here.
    fn map(&self, memory: &mut Memory, draft: &Draft, stands: &[Literal]) -> FrameMap {
        let first = self.latching.names;
        let mut gates = memory.table(Pair::NONE, self.gates.many() as usize);
        let mut gone = memory.table(Gone::NONE, self.count_gone(first, draft, stands));
        self.name_gates(first, gates.as_mut_slice());
        self.put_gone(first, draft, stands, gone.as_mut_slice());
        FrameMap { first, gates, gone }
    }

    /// Puts all gates, and the replacements for the variables of before. Returns the map of the
    /// states after a frame to those before it.
    fn finish(
        &mut self,
        memory: &mut Memory,
        draft: &Draft,
        set: &Bordered,
        wishes: &Wishes,
        stands: &mut [Literal],
    ) -> FrameMap {
        self.put_all(draft, set, wishes);
        self.put_latches(draft, wishes, stands);
        let map = self.map(memory, draft, stands);
        self.put_others(draft, set, stands);
        map
    }

    /// Returns the draft after a frame, with its map and the replacements.
    fn into_rebuilt(
        self,
        inputs: u32,
        observed: Vec<Literal>,
        map: FrameMap,
        stands: Vec<Literal>,
    ) -> Rebuilt {
        let Side { gates, latching } = self;
        let (latches, copies) = latching.into_latches_and_copies();
        Rebuilt {
            draft: Draft {
                inputs,
                latches,
                gates: gates.into_gates(),
                observed,
                names: map.names(),
            },
            map,
            copies,
            stands,
        }
    }
}

/// Returns the draft after a frame over a set, by the wishes at its border, which takes `after`
/// latches. Gates that nothing reads are still there.
pub(crate) fn rebuild(
    memory: &mut Memory,
    draft: &Draft,
    set: &Bordered,
    wishes: &Wishes,
    after: u32,
) -> Rebuilt {
    let mut stands = memory.table(Literal::NONE, draft.size());
    let mut side = Side::new(memory, draft, set, wishes.of.as_slice(), after);
    let map = side.finish(memory, draft, set, wishes, stands.as_mut_slice());
    let observed = all_standing(memory, stands.as_slice(), draft.observed.as_slice());
    side.into_rebuilt(draft.inputs, observed, map, stands)
}
