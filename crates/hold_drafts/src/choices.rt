//! Multiplexers, as three gates: neither `select & then` nor `!select & other`, negated.

use crate::literals::opposite;
use crate::sharing::Sharing;
use backward_sets::{Literal, Pair};

/// A literal that is `then` if `select` is 1, else `other`.
#[derive(Clone, Copy)]
pub(crate) struct Choice {
    pub select: Literal,
    pub then: Literal,
    pub other: Literal,
}

impl Choice {
    /// Returns the choice, of the literal's negation if `negated`.
    fn negated_if(self, negated: bool) -> Choice {
        Choice {
            select: self.select,
            then: self.then.negated_if(negated),
            other: self.other.negated_if(negated),
        }
    }

    /// Returns true if it is an exclusive or.
    pub fn is_difference(self) -> bool {
        self.then == opposite(self.other)
    }
}

/// Returns the choice of these literals. Its select isn't negated.
fn choice_by(select: Literal, then: Literal, other: Literal) -> Option<Choice> {
    if select.is_negated() {
        Some(Choice {
            select: opposite(select),
            then: other,
            other: then,
        })
    } else {
        Some(Choice {
            select,
            then,
            other,
        })
    }
}

/// Returns the choice whose sides are these gates, if a fan-in of one is opposite to one of the
/// other.
fn choice_of_sides(first: &Pair, second: &Pair) -> Option<Choice> {
    if first.larger == opposite(second.larger) {
        return choice_by(first.larger, first.smaller, second.smaller);
    }
    if first.larger == opposite(second.smaller) {
        return choice_by(first.larger, first.smaller, second.larger);
    }
    if first.smaller == opposite(second.larger) {
        return choice_by(first.smaller, first.larger, second.smaller);
    }
    if first.smaller == opposite(second.smaller) {
        return choice_by(first.smaller, first.larger, second.larger);
    }
    None
}

/// Returns true if a literal is a negated gate.
fn is_side(sharing: &Sharing, lit: Literal) -> bool {
    lit.is_negated() & sharing.is_gate(lit.var())
}

/// Returns the choice that a literal is, if it is one.
pub(crate) fn choice_of(sharing: &Sharing, lit: Literal) -> Option<Choice> {
    let outer = sharing.gate(lit.var());
    if !is_side(sharing, outer.larger) | !is_side(sharing, outer.smaller) {
        return None;
    }
    let first = sharing.gate(outer.larger.var());
    let second = sharing.gate(outer.smaller.var());
    match choice_of_sides(&first, &second) {
        Some(choice) => Some(choice.negated_if(!lit.is_negated())),
        None => None,
    }
}
