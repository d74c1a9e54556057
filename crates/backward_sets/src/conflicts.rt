//! Conflicts in a border that takes too many latches, since both values are wished of some
//! variables. Gates that wish the value with fewer votes stay from then on.

use crate::border::Bordered;
use crate::drafts::{Draft, Pair};
use crate::literals::Literal;
use crate::starts::{Wish, wish_of};
use crate::tables::{has_mark, set_mark};
use crate::wishes::Wishes;
use aig_graph::Memory;
use checked_tables::{entry_or, put_if_there};

/// The weight of a latch's wish, which is more than that of all gates.
const LATCH_WEIGHT: u32 = 1 << 20;

/// The weight of the wishes that a variable is 0, and that it is 1.
#[derive(Clone, Copy)]
struct Votes {
    zero: u32,
    one: u32,
}

/// Returns the literal that a gate wishes to be 1 if it is to be 0 itself.
fn zero_by(wishes: &Wishes, var: u32, pair: &Pair) -> Literal {
    let zero = if has_mark(wishes.by_larger.as_slice(), var) {
        pair.larger
    } else {
        pair.smaller
    };
    zero.negated_if(true)
}

/// Returns the votes on a variable.
fn votes_on(votes: &[Votes], var: u32) -> Votes {
    entry_or(votes, var as usize, Votes { zero: 0, one: 0 })
}

/// Adds a vote of weight `weight` that `lit` is 1.
fn vote(votes: &mut [Votes], lit: Literal, weight: u32) {
    let old = votes_on(votes, lit.var());
    let (zero, one) = if lit.is_negated() {
        (weight, 0u32)
    } else {
        (0, weight)
    };
    let new = Votes {
        zero: old.zero.saturating_add(zero),
        one: old.one.saturating_add(one),
    };
    put_if_there(votes, lit.var() as usize, new);
}

/// Adds the votes of latches, and of the set's gates.
fn put_votes(votes: &mut [Votes], draft: &Draft, set: &Bordered, wishes: &Wishes) {
    for place in 0..draft.many_latches() {
        let latch = draft.latch(place);
        if latch.is_settled() {
            let lit = latch.next.negated_if(!latch.starts_at_1());
            vote(votes, lit, LATCH_WEIGHT);
        }
    }
    for var in draft.first_gate()..draft.end() {
        if set.has(var) {
            let (pair, wish) = (draft.gate(var), wish_of(wishes.of.as_slice(), var));
            vote(votes, pair.larger, u32::from(wish.one));
            vote(votes, pair.smaller, u32::from(wish.one));
            vote(votes, zero_by(wishes, var, &pair), u32::from(wish.zero));
        }
    }
}

/// The values by which wishes are compared: those of all variables, those of latches, and the
/// votes.
#[derive(Clone, Copy)]
struct Contest<'a> {
    set: &'a Bordered,
    wishes: &'a Wishes,
    starts: &'a [Wish],
    votes: &'a [Votes],
}

impl<'a> Contest<'a> {
    /// Returns true if the wish that `lit` is 1 is one of two at a border variable, and has fewer
    /// votes. If votes are equal, the wish that the variable is 1 loses.
    fn loses(&self, lit: Literal) -> bool {
        let var = lit.var();
        let votes = votes_on(self.votes, var);
        self.set.borders(var)
            & wish_of(self.wishes.of.as_slice(), var).is_both()
            & !wish_of(self.starts, var).is_both()
            & (lit.is_negated() != (votes.one <= votes.zero))
    }

    /// Returns true if a gate of the set has a wish with fewer votes.
    fn has_loser(&self, var: u32, pair: &Pair) -> bool {
        let wish = wish_of(self.wishes.of.as_slice(), var);
        (wish.one & (self.loses(pair.larger) | self.loses(pair.smaller)))
            | (wish.zero & self.loses(zero_by(self.wishes, var, pair)))
    }

    /// Freezes the gates whose wish has fewer votes. Returns true if there are any.
    fn freeze(&self, draft: &Draft, frozen: &mut [bool]) -> bool {
        let mut any = false;
        for var in draft.first_gate()..draft.end() {
            if self.set.has(var) && self.has_loser(var, &draft.gate(var)) {
                set_mark(frozen, var, true);
                any = true;
            }
        }
        any
    }
}

/// Freezes the gates whose wish has fewer votes. Returns true if there are any.
pub fn freeze_losers(
    memory: &mut Memory,
    draft: &Draft,
    set: &Bordered,
    wishes: &Wishes,
    starts: &[Wish],
    frozen: &mut [bool],
) -> bool {
    let mut votes = memory.table(Votes { zero: 0, one: 0 }, draft.size());
    put_votes(votes.as_mut_slice(), draft, set, wishes);
    let contest = Contest {
        set,
        wishes,
        starts,
        votes: votes.as_slice(),
    };
    contest.freeze(draft, frozen)
}
