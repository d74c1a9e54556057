//! Conjunctions simplified over two levels. Holds are made so: what is found of a latch in two ways
//! is one literal then, as `mask & (!enable & mask)` is `mask & !enable`. Loads are not, since the
//! gates of a circuit are easier to know again if they stay as they are.

use crate::literals::{TRUE, opposite};
use crate::sharing::Sharing;
use aig_graph::Memory;
use backward_sets::{Literal, Pair};

/// The most times that a conjunction is simplified.
const MOST_FOLDS: u32 = 64;

/// A conjunction of two literals, in their order.
#[derive(Clone, Copy, PartialEq, Eq)]
struct Both {
    first: Literal,
    second: Literal,
}

impl Both {
    /// Returns the conjunction that is the literal itself.
    fn only(lit: Literal) -> Both {
        Both {
            first: lit,
            second: TRUE,
        }
    }

    /// Returns the conjunction with its literals exchanged.
    fn exchanged(self) -> Both {
        Both {
            first: self.second,
            second: self.first,
        }
    }
}

/// Returns true if a gate has a literal as a fan-in.
fn has(pair: &Pair, lit: Literal) -> bool {
    (pair.larger == lit) | (pair.smaller == lit)
}

/// Simplifies the conjunction of the gate of `pair` and a literal.
fn folded_gate(both: Both, pair: &Pair) -> Both {
    if has(pair, both.second) {
        Both::only(both.first)
    } else if has(pair, opposite(both.second)) {
        Both::only(Literal::FALSE)
    } else {
        both
    }
}

/// Simplifies the conjunction of the gate of `pair`, negated, and a literal.
fn folded_negation(both: Both, pair: &Pair) -> Both {
    let lit = both.second;
    if pair.larger == lit {
        Both {
            first: lit,
            second: opposite(pair.smaller),
        }
    } else if pair.smaller == lit {
        Both {
            first: lit,
            second: opposite(pair.larger),
        }
    } else if has(pair, opposite(lit)) {
        Both::only(lit)
    } else {
        both
    }
}

/// Simplifies a conjunction by the gate of its first literal, if that is one.
fn folded_first(sharing: &Sharing, both: Both) -> Both {
    if !sharing.is_gate(both.first.var()) {
        return both;
    }
    let pair = sharing.gate(both.first.var());
    if both.first.is_negated() {
        folded_negation(both, &pair)
    } else {
        folded_gate(both, &pair)
    }
}

/// Simplifies a conjunction by the gate of either literal.
fn folded(sharing: &Sharing, both: Both) -> Both {
    let next = folded_first(sharing, both);
    if next == both {
        folded_first(sharing, both.exchanged())
    } else {
        next
    }
}

/// Returns the literal of a conjunction that is simplified as far as that goes.
pub(crate) fn folded_and(
    sharing: &mut Sharing,
    memory: &mut Memory,
    a: Literal,
    b: Literal,
) -> Literal {
    let mut both = Both {
        first: a,
        second: b,
    };
    for _ in 0..MOST_FOLDS {
        let next = folded(sharing, both);
        if (next == both) | (next == both.exchanged()) {
            break;
        }
        both = next;
    }
    sharing.and(memory, both.first, both.second)
}

/// Returns the literal of a disjunction that is simplified as far as that goes.
pub(crate) fn folded_or(
    sharing: &mut Sharing,
    memory: &mut Memory,
    a: Literal,
    b: Literal,
) -> Literal {
    opposite(folded_and(sharing, memory, opposite(a), opposite(b)))
}

/// Returns the literal that is `then` if `select` is 1, else `other`, simplified.
pub(crate) fn folded_mux(
    sharing: &mut Sharing,
    memory: &mut Memory,
    select: Literal,
    then: Literal,
    other: Literal,
) -> Literal {
    if then == other {
        return then;
    }
    if then == TRUE {
        return folded_or(sharing, memory, select, other);
    }
    if other == TRUE {
        return folded_or(sharing, memory, opposite(select), then);
    }
    let first = folded_and(sharing, memory, select, then);
    let second = folded_and(sharing, memory, opposite(select), other);
    folded_or(sharing, memory, first, second)
}
