//! What is known of a latch that loads. Its hold is 0 then. Let all conjuncts of the hold but one
//! be factors of the load, or of its opposite. Then the one that is left is 0 whenever the load's
//! other factors matter.

use crate::candidates::Candidate;
use crate::literals::opposite;
use crate::sharing::Sharing;
use aig_graph::Memory;
use backward_sets::Literal;

/// The most conjuncts of a literal.
const MOST_CONJUNCTS: usize = 16;

/// The most steps in which they are found.
const MOST_STEPS: u32 = 64;

/// Returns true if a literal is a gate that isn't negated.
fn is_conjunction(sharing: &Sharing, lit: Literal) -> bool {
    sharing.is_gate(lit.var()) & !lit.is_negated()
}

/// Returns literals whose conjunction is `lit`.
pub(crate) fn conjuncts_of(memory: &mut Memory, sharing: &Sharing, lit: Literal) -> Vec<Literal> {
    let mut all = memory.list(MOST_CONJUNCTS);
    memory.push(&mut all, lit);
    let mut place = 0usize;
    for _ in 0..MOST_STEPS {
        if place >= all.len() {
            break;
        }
        let lit = all[place];
        if is_conjunction(sharing, lit) & (all.len() < MOST_CONJUNCTS) {
            let pair = sharing.gate(lit.var());
            all[place] = pair.larger;
            memory.push(&mut all, pair.smaller);
        } else {
            place = place.wrapping_add(1);
        }
    }
    all
}

/// Returns true if a literal is one of these.
pub(crate) fn contains(literals: &[Literal], lit: Literal) -> bool {
    for other in literals {
        if *other == lit {
            return true;
        }
    }
    false
}

/// What is known of a latch that loads. The conjunct `left` of its hold is 0, or the load is 0 or 1
/// by one of the other conjuncts.
#[derive(Clone, Copy)]
pub(crate) struct Context {
    pub hold: Literal,
    pub left: Literal,
}

impl Context {
    /// Returns the context that has a key.
    pub fn of(key: u64) -> Context {
        Context {
            hold: Literal {
                code: (key >> 32) as u32,
            },
            left: Literal {
                code: (key & 0xffff_ffff) as u32,
            },
        }
    }

    /// Returns the key of this context alone.
    pub fn key(&self) -> u64 {
        u64::from(self.hold.code) << 32 | u64::from(self.left.code)
    }
}

/// Returns the only one of these that isn't among others.
fn only_left(conjuncts: &[Literal], factors: &[Literal]) -> Option<Literal> {
    let mut left = None;
    for conjunct in conjuncts {
        if !contains(factors, *conjunct) {
            if left.is_some() {
                return None;
            }
            left = Some(*conjunct);
        }
    }
    left
}

/// Returns what is known of a candidate's latch if it loads.
pub(crate) fn context_of(
    memory: &mut Memory,
    sharing: &Sharing,
    candidate: &Candidate,
) -> Option<Context> {
    let hold = candidate.split.hold;
    let load = candidate.split.load;
    let bare = if load.is_negated() {
        opposite(load)
    } else {
        load
    };
    let conjuncts = conjuncts_of(memory, sharing, hold);
    let factors = conjuncts_of(memory, sharing, bare);
    match only_left(conjuncts.as_slice(), factors.as_slice()) {
        Some(left) => Some(Context { hold, left }),
        None => None,
    }
}
