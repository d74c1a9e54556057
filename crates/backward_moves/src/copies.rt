//! Copies of the variables of a set and its border behind the latches: one for each value that is
//! wished at step 0. At later steps all copies have one value.

use backward_sets::{DraftLatch, Literal, Wish};
use checked_tables::{entry_or, put_if_there};

/// A copy of a variable. It is the one with the value 0 at step 0, the one with 1, or the only one
/// if neither is wished.
#[derive(Clone, Copy)]
pub(crate) struct Version {
    place: u32,
}

/// The number of versions.
pub(crate) const VERSIONS: u32 = 3;

impl Version {
    /// Returns the version with number `place`, which is below [`VERSIONS`].
    pub fn of(place: u32) -> Version {
        Version { place }
    }

    /// Returns its number.
    pub fn place(self) -> u32 {
        self.place
    }

    /// Returns true if it is the copy that has `value` at step 0.
    pub fn is(self, value: bool) -> bool {
        self.place == u32::from(value)
    }

    /// Returns true if a variable with these wishes has this copy.
    pub fn is_wished(self, wish: Wish) -> bool {
        if self.place < 2 {
            wish.has(self.place == 1)
        } else {
            !(wish.zero | wish.one)
        }
    }

    /// Returns the copy that is read if the value `need` is needed at step 0. If none is needed,
    /// any copy will do.
    pub fn picked(wish: Wish, need: Wish) -> Version {
        let asked = if need.zero | need.one { need } else { wish };
        Version {
            place: if asked.zero {
                0
            } else if asked.one {
                1
            } else {
                2
            },
        }
    }
}

/// Returns the value that a latch needs of the variable that it reads, if its reset is settled.
pub(crate) fn need_of(latch: &DraftLatch) -> Wish {
    if latch.is_settled() {
        Wish::NONE.with(latch.starts_at_1() != latch.next.is_negated())
    } else {
        Wish::NONE
    }
}

/// Returns the literal at `place`, or none past the end.
pub(crate) fn literal_at(literals: &[Literal], place: u32) -> Literal {
    entry_or(literals, place as usize, Literal::NONE)
}

/// Puts a literal at `place`, if the table has it.
pub(crate) fn set_literal(literals: &mut [Literal], place: u32, lit: Literal) {
    put_if_there(literals, place as usize, lit);
}

/// Returns the place of a copy in a table with an entry for each version of each variable.
fn place_of(var: u32, version: Version) -> u32 {
    var.wrapping_mul(VERSIONS).wrapping_add(version.place)
}

/// Returns the literal of a copy of a variable.
pub(crate) fn copy_of(copies: &[Literal], var: u32, version: Version) -> Literal {
    literal_at(copies, place_of(var, version))
}

/// Sets the literal of a copy of a variable.
pub(crate) fn set_copy(copies: &mut [Literal], var: u32, version: Version, lit: Literal) {
    set_literal(copies, place_of(var, version), lit);
}

/// Returns the replacement for `lit`, or false if there is none.
pub(crate) fn standing(stands: &[Literal], lit: Literal) -> Literal {
    let place = lit.var() as usize;
    if place < stands.len() {
        stands[place].signed_as(lit)
    } else {
        Literal::FALSE
    }
}
