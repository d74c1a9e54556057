//! A walk down from a latch's next literal finds its hold and its load: the literal is `hold ? own
//! : load` wherever all that is assumed is 1. Of a multiplexer both sides are walked, each with its
//! select assumed; of a gate one fan-in, with the other and its factors assumed.

use crate::assumptions::Assumptions;
use crate::choices::{Choice, choice_of};
use crate::folds::{folded_and, folded_mux};
use crate::literals::{TRUE, constant, opposite};
use crate::nearness::Nearness;
use crate::sharing::Sharing;
use aig_graph::Memory;
use backward_sets::{Literal, Pair};

/// A literal as `hold ? own : load`.
#[derive(Clone, Copy)]
pub(crate) struct Split {
    pub hold: Literal,
    pub load: Literal,
}

impl Split {
    /// The latch's own literal.
    const OWN: Split = Split {
        hold: TRUE,
        load: Literal::FALSE,
    };

    /// Returns a literal that doesn't hold.
    fn without_hold(lit: Literal) -> Split {
        Split {
            hold: Literal::FALSE,
            load: lit,
        }
    }

    /// Returns true if it holds under some values.
    pub fn holds(&self) -> bool {
        self.hold != Literal::FALSE
    }
}

/// A fan-in of a gate, and the one beside it.
#[derive(Clone, Copy)]
struct Side {
    fan_in: Literal,
    beside: Literal,
}

impl Side {
    /// Returns the other fan-in, with this one beside it.
    fn exchanged(self) -> Side {
        Side {
            fan_in: self.beside,
            beside: self.fan_in,
        }
    }
}

/// The gates of a circuit with those of holds and loads, and a latch with the literals that are
/// assumed.
#[derive(Drop)]
pub(crate) struct Walk {
    pub sharing: Sharing,
    pub near: Nearness,
    own: Literal,
    assumed: Assumptions,
}

impl Walk {
    /// Returns a walk over gates, without a latch.
    pub fn new(memory: &mut Memory, sharing: Sharing, near: Nearness) -> Walk {
        Walk {
            sharing,
            near,
            own: Literal::NONE,
            assumed: Assumptions::none(memory),
        }
    }

    /// Returns the gates, and drops the rest.
    pub fn into_sharing(self) -> Sharing {
        let Walk {
            sharing,
            near: _near,
            own: _own,
            assumed: _assumed,
        } = self;
        sharing
    }

    /// Turns to a latch. Returns true if its next literal reads it near enough.
    pub fn begin(&mut self, own: u32, next: Literal) -> bool {
        self.own = Literal::of(own);
        self.assumed.forget(0);
        self.near.seek(&self.sharing, own, next.var())
    }

    /// Returns the literal of the latch.
    pub fn own(&self) -> Literal {
        self.own
    }

    /// Splits a literal, at most `depth` steps down.
    #[cycle(walking)]
    pub fn split(&mut self, memory: &mut Memory, lit: Literal, depth: u32) -> Split {
        if lit == self.own {
            return Split::OWN;
        }
        if self.assumed.has(lit) {
            return Split::without_hold(TRUE);
        }
        if self.assumed.has(opposite(lit)) {
            return Split::without_hold(Literal::FALSE);
        }
        let var = lit.var();
        if depth == 0 || self.near.steps(var) > depth || !self.sharing.is_gate(var) {
            return Split::without_hold(lit);
        }
        match choice_of(&self.sharing, lit) {
            Some(choice) => self.split_choice(memory, lit, &choice, depth - 1),
            None => self.split_gate(memory, lit, depth - 1),
        }
    }

    /// Splits a side of a multiplexer, which is taken if `select` is 1.
    #[cycle(walking)]
    fn split_side(
        &mut self,
        memory: &mut Memory,
        select: Literal,
        side: Literal,
        depth: u32,
    ) -> Split {
        let many = self.assumed.many();
        self.assumed.assume(select);
        let split = self.split(memory, side, depth);
        self.assumed.forget(many);
        split
    }

    /// Splits a multiplexer. An exclusive or holds nothing.
    #[cycle(walking)]
    fn split_choice(
        &mut self,
        memory: &mut Memory,
        lit: Literal,
        choice: &Choice,
        depth: u32,
    ) -> Split {
        let select = choice.select;
        if choice.is_difference() | (select.var() == self.own.var()) {
            return Split::without_hold(lit);
        }
        if self.assumed.has(select) {
            return self.split(memory, choice.then, depth);
        }
        if self.assumed.has(opposite(select)) {
            return self.split(memory, choice.other, depth);
        }
        let then = self.split_side(memory, select, choice.then, depth);
        let other = self.split_side(memory, opposite(select), choice.other, depth);
        if then.holds() | other.holds() {
            self.joined(memory, select, then, other)
        } else {
            Split::without_hold(lit)
        }
    }

    /// Returns the split of a multiplexer whose sides are split.
    fn joined(&mut self, memory: &mut Memory, select: Literal, then: Split, other: Split) -> Split {
        let hold = folded_mux(&mut self.sharing, memory, select, then.hold, other.hold);
        let load = if then.hold == TRUE {
            other.load
        } else if other.hold == TRUE {
            then.load
        } else {
            self.sharing.mux(memory, select, then.load, other.load)
        };
        Split { hold, load }
    }

    /// Splits a literal that is a gate, or one negated.
    #[cycle(walking)]
    fn split_gate(&mut self, memory: &mut Memory, lit: Literal, depth: u32) -> Split {
        let Pair { larger, smaller } = self.sharing.gate(lit.var());
        if self.assumed.has(smaller) {
            return self.split(memory, larger.signed_as(lit), depth);
        }
        if self.assumed.has(larger) {
            return self.split(memory, smaller.signed_as(lit), depth);
        }
        if self.assumed.has(opposite(smaller)) | self.assumed.has(opposite(larger)) {
            return Split::without_hold(constant(lit.is_negated()));
        }
        let first = Side {
            fan_in: larger,
            beside: smaller,
        };
        let split = self.split_beside(memory, lit, first, depth);
        if split.holds() {
            return split;
        }
        self.split_beside(memory, lit, first.exchanged(), depth)
    }

    /// Splits a literal by a fan-in of its gate, which matters if the other one is 1.
    #[cycle(walking)]
    fn split_beside(&mut self, memory: &mut Memory, lit: Literal, side: Side, depth: u32) -> Split {
        let many = self.assumed.many();
        self.assumed.assume_factors(&self.sharing, side.beside);
        let inner = self.split(memory, side.fan_in.signed_as(lit), depth);
        self.assumed.forget(many);
        if inner.holds() {
            self.with_factor(memory, inner, side.beside, lit.is_negated())
        } else {
            Split::without_hold(lit)
        }
    }

    /// Returns the split of a gate, whose fan-in is split as `inner`, or of its negation if
    /// `negated`.
    fn with_factor(
        &mut self,
        memory: &mut Memory,
        inner: Split,
        factor: Literal,
        negated: bool,
    ) -> Split {
        let hold = folded_and(&mut self.sharing, memory, inner.hold, factor);
        let load = if inner.hold == TRUE {
            constant(negated)
        } else if negated {
            self.sharing.or(memory, inner.load, opposite(factor))
        } else {
            self.sharing.and(memory, inner.load, factor)
        };
        Split { hold, load }
    }
}
