//! The outer parts of holds. A latch that holds while `!(outer & inner)` holds while `!outer` too,
//! and loads what its inner enable chooses then. So it can be of one class with latches that have
//! the outer enable alone.

use crate::candidates::Candidate;
use crate::literals::{TRUE, opposite};
use crate::sharing::Sharing;
use crate::walks::Split;
use aig_graph::Memory;
use backward_sets::Literal;

/// The most factors of a literal that are looked at.
const MOST_FACTORS: usize = 8;

/// A factor of a literal, and the conjunction of its other factors.
#[derive(Clone, Copy)]
struct Factor {
    factor: Literal,
    rest: Literal,
}

/// Returns factors of a literal: itself, then those of each that is a gate and not negated.
fn factors_of(memory: &mut Memory, sharing: &mut Sharing, lit: Literal) -> Vec<Factor> {
    let mut factors = memory.list(MOST_FACTORS);
    let whole = Factor {
        factor: lit,
        rest: TRUE,
    };
    memory.push(&mut factors, whole);
    for place in 0..MOST_FACTORS {
        if place >= factors.len() {
            return factors;
        }
        let Factor { factor, rest } = factors[place];
        if sharing.is_gate(factor.var()) & !factor.is_negated() & (factors.len() < MOST_FACTORS) {
            let pair = sharing.gate(factor.var());
            let larger = Factor {
                factor: pair.larger,
                rest: sharing.and(memory, rest, pair.smaller),
            };
            let smaller = Factor {
                factor: pair.smaller,
                rest: sharing.and(memory, rest, pair.larger),
            };
            memory.push(&mut factors, larger);
            memory.push(&mut factors, smaller);
        }
    }
    factors
}

/// Returns the candidate whose hold is the part `outer` of a hold. The other part is `inner`.
fn outer_candidate(
    memory: &mut Memory,
    sharing: &mut Sharing,
    candidate: &Candidate,
    outer: Literal,
    inner: Literal,
) -> Candidate {
    let load = sharing.mux(memory, inner, candidate.own, candidate.split.load);
    Candidate {
        split: Split { hold: outer, load },
        ..*candidate
    }
}

/// Adds a candidate for each factor of the opposite of `enabled.factor`, which is a factor of the
/// hold.
fn add_parts(
    memory: &mut Memory,
    sharing: &mut Sharing,
    list: &mut Vec<Candidate>,
    candidate: &Candidate,
    factor: &Factor,
) {
    let parts = factors_of(memory, sharing, opposite(factor.factor));
    for place in 1..parts.len() {
        let Factor {
            factor: enable,
            rest,
        } = parts[place];
        let outer = sharing.and(memory, factor.rest, opposite(enable));
        let inner = sharing.and(memory, factor.rest, opposite(rest));
        let part = outer_candidate(memory, sharing, candidate, outer, inner);
        memory.push(list, part);
    }
}

/// Adds a candidate for each outer part of a latch's hold.
pub(crate) fn add_outer(
    memory: &mut Memory,
    sharing: &mut Sharing,
    list: &mut Vec<Candidate>,
    candidate: &Candidate,
) {
    let factors = factors_of(memory, sharing, candidate.split.hold);
    for factor in &factors {
        if factor.factor.is_negated() {
            add_parts(memory, sharing, list, candidate, factor);
        }
    }
}
