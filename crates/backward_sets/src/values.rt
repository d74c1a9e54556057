//! Values of the variables of a set and its border, as far as they follow from others by unit
//! propagation.

use crate::border::Bordered;
use crate::drafts::{Draft, Pair};
use crate::literals::Literal;
use crate::readers::Readers;
use crate::starts::{Wish, set_wish, wish_of};
use crate::tables::{entry, set_entry, set_mark};
use aig_graph::Memory;

/// Values, and the variables that have one in the order in which they got it.
#[derive(Drop)]
pub struct Values<'a> {
    draft: &'a Draft,
    set: &'a Bordered,
    /// The wishes of latches. A variable of which they wish both values has either one, as asked
    /// for.
    starts: &'a [Wish],
    /// The value of each variable, or none if it has none yet.
    known: Vec<Wish>,
    /// One entry for each variable, so that there is always room.
    trail: Vec<u32>,
    count: u32,
    readers: Readers,
}

impl<'a> Values<'a> {
    /// Returns tables without values.
    pub fn none(
        memory: &mut Memory,
        draft: &'a Draft,
        set: &'a Bordered,
        starts: &'a [Wish],
    ) -> Values<'a> {
        let known = memory.table(Wish::NONE, draft.size());
        let trail = memory.table(0u32, draft.size());
        Values {
            draft,
            set,
            starts,
            known,
            trail,
            count: 0,
            readers: Readers::of(memory, draft, set.inside.as_slice()),
        }
    }

    /// Returns the value of a literal, or none if it has none yet.
    pub fn of(&self, lit: Literal) -> Wish {
        wish_of(self.known.as_slice(), lit.var()).negated_if(lit.is_negated())
    }

    /// Returns true if a variable has either value.
    pub fn is_both(&self, var: u32) -> bool {
        wish_of(self.starts, var).is_both()
    }

    /// Returns the number of values.
    pub fn count(&self) -> u32 {
        self.count
    }

    /// Gives a literal a value. Returns true if it may have it.
    fn set(&mut self, lit: Literal, value: bool) -> bool {
        let known = self.of(lit);
        if !known.zero & !known.one & !self.is_both(lit.var()) {
            let wish = Wish::NONE.with(value != lit.is_negated());
            set_wish(self.known.as_mut_slice(), lit.var(), wish);
            set_entry(self.trail.as_mut_slice(), self.count, lit.var());
            self.count = self.count.wrapping_add(1);
        }
        !known.has(!value)
    }

    /// Takes the last values away, until there are `count`.
    pub fn forget(&mut self, count: u32) {
        for place in count..self.count {
            let var = entry(self.trail.as_slice(), place);
            set_wish(self.known.as_mut_slice(), var, Wish::NONE);
        }
        self.count = self.count.min(count);
    }

    /// Gives the values that follow at a gate. Returns true if nothing contradicts.
    fn follow(&mut self, own: Literal, pair: &Pair) -> bool {
        let known = self.of(own);
        let (larger, smaller) = (self.of(pair.larger), self.of(pair.smaller));
        let one = larger.one & smaller.one;
        if known.one {
            return self.set(pair.larger, true) && self.set(pair.smaller, true);
        }
        if one | larger.zero | smaller.zero {
            return self.set(own, one);
        }
        if known.zero & larger.one {
            return self.set(pair.smaller, false);
        }
        if known.zero & smaller.one {
            return self.set(pair.larger, false);
        }
        true
    }

    /// Gives the values that follow at the gate of a variable, if it is in the set. Returns true if
    /// nothing contradicts.
    fn follow_at(&mut self, var: u32) -> bool {
        let pair = self.draft.gate(var);
        !self.set.has(var) || self.follow(Literal::of(var), &pair)
    }

    /// Gives the values that follow from that of a variable: at its own gate, and at those that
    /// read it. Returns true if nothing contradicts.
    fn follow_from(&mut self, var: u32) -> bool {
        let mut fits = self.follow_at(var);
        for place in self.readers.begin(var)..self.readers.end(var) {
            let reader = self.readers.at(place);
            fits = fits && self.follow_at(reader);
        }
        fits
    }

    /// Gives all values that follow from those after the first `first` ones. Returns true if
    /// nothing contradicts.
    fn propagate(&mut self, first: u32) -> bool {
        for place in first..u32::MAX {
            if place >= self.count {
                return true;
            }
            let var = entry(self.trail.as_slice(), place);
            if !self.follow_from(var) {
                return false;
            }
        }
        true
    }

    /// Gives a literal a value, with all that follow. Returns true if nothing contradicts.
    pub fn assume(&mut self, lit: Literal, value: bool) -> bool {
        let first = self.count;
        self.set(lit, value) && self.propagate(first)
    }

    /// Gives the variables that latches read the values that their resets wish, with all that
    /// follow. Returns true if nothing contradicts.
    pub fn begin(&mut self) -> bool {
        for place in 0..self.draft.many_latches() {
            let latch = self.draft.latch(place);
            if latch.is_settled() && !self.set(latch.next, latch.starts_at_1()) {
                return false;
            }
        }
        self.propagate(0)
    }

    /// Writes the values over those of a guide.
    pub fn write_over(&self, guide: &mut [bool]) {
        for place in 0..self.count {
            let var = entry(self.trail.as_slice(), place);
            set_mark(guide, var, wish_of(self.known.as_slice(), var).one);
        }
    }
}
