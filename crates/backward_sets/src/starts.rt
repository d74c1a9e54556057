//! The values that variables need a step before the start, so that latches start as they do.

use crate::drafts::Draft;
use crate::literals::Literal;
use aig_graph::Memory;
use checked_tables::{entry_or, put_if_there};

/// The values that are wished of a variable: none, one of them, or both.
#[derive(Clone, Copy)]
pub struct Wish {
    pub zero: bool,
    pub one: bool,
}

impl Wish {
    /// No wish.
    pub const NONE: Wish = Wish {
        zero: false,
        one: false,
    };

    /// Returns true if this value is wished.
    pub fn has(self, value: bool) -> bool {
        (self.one & value) | (self.zero & !value)
    }

    /// Returns true if both values are wished.
    pub fn is_both(self) -> bool {
        self.zero & self.one
    }

    /// Returns the wish, of the literal's negation if `negated`.
    pub fn negated_if(self, negated: bool) -> Wish {
        Wish {
            zero: (self.zero & !negated) | (self.one & negated),
            one: (self.one & !negated) | (self.zero & negated),
        }
    }

    /// Returns the wish with this value too.
    pub fn with(self, value: bool) -> Wish {
        Wish {
            zero: self.zero | !value,
            one: self.one | value,
        }
    }
}

/// Returns the wishes of a variable.
pub fn wish_of(wishes: &[Wish], var: u32) -> Wish {
    entry_or(wishes, var as usize, Wish::NONE)
}

/// Sets the wishes of a variable.
pub fn set_wish(wishes: &mut [Wish], var: u32, wish: Wish) {
    put_if_there(wishes, var as usize, wish);
}

/// Adds the wish that `lit` has `value`.
pub fn add_wish(wishes: &mut [Wish], lit: Literal, value: bool) {
    let wish = wish_of(wishes, lit.var()).with(value != lit.is_negated());
    set_wish(wishes, lit.var(), wish);
}

/// Adds the wishes of the latches that take part, of the variables that they read.
fn add_starts(draft: &Draft, wishes: &mut [Wish]) {
    for place in 0..draft.many_latches() {
        let latch = draft.latch(place);
        if latch.is_settled() {
            add_wish(wishes, latch.next, latch.starts_at_1());
        }
    }
}

/// Returns by variable the wishes of the latches that take part.
pub fn starts_of(memory: &mut Memory, draft: &Draft) -> Vec<Wish> {
    let mut wishes = memory.table(Wish::NONE, draft.size());
    add_starts(draft, wishes.as_mut_slice());
    wishes
}
