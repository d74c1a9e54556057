//! Literals that are assumed to be 1. The last ones are taken back first.

use crate::literals::{literal_at, set_literal};
use crate::sharing::Sharing;
use aig_graph::Memory;
use backward_sets::Literal;

/// The most literals that are assumed at a time.
const MOST_ASSUMED: usize = 128;

/// The most of them after the factors of one literal were added.
const MOST_FACTORS: u32 = 64;

/// Literals that are assumed.
#[derive(Drop)]
pub(crate) struct Assumptions {
    /// Room for [`MOST_ASSUMED`].
    literals: Vec<Literal>,
    many: u32,
}

impl Assumptions {
    /// Returns no assumptions.
    pub fn none(memory: &mut Memory) -> Assumptions {
        Assumptions {
            literals: memory.table(Literal::NONE, MOST_ASSUMED),
            many: 0,
        }
    }

    /// Returns the number of literals that are assumed.
    pub fn many(&self) -> u32 {
        self.many
    }

    /// Takes the last assumptions back, until there are `many`.
    pub fn forget(&mut self, many: u32) {
        self.many = self.many.min(many);
    }

    /// Returns true if a literal is assumed.
    pub fn has(&self, lit: Literal) -> bool {
        for place in 0..self.many {
            if literal_at(self.literals.as_slice(), place) == lit {
                return true;
            }
        }
        false
    }

    /// Assumes a literal, if there is room.
    pub fn assume(&mut self, lit: Literal) {
        if (self.many as usize) < self.literals.len() {
            set_literal(self.literals.as_mut_slice(), self.many, lit);
            self.many = self.many.wrapping_add(1);
        }
    }

    /// Assumes the fan-ins of a literal that is a gate, not negated.
    fn assume_fan_ins(&mut self, sharing: &Sharing, lit: Literal) {
        if sharing.is_gate(lit.var()) & !lit.is_negated() & (self.many < MOST_FACTORS) {
            let pair = sharing.gate(lit.var());
            self.assume(pair.larger);
            self.assume(pair.smaller);
        }
    }

    /// Assumes a literal and its factors.
    pub fn assume_factors(&mut self, sharing: &Sharing, lit: Literal) {
        let first = self.many;
        self.assume(lit);
        for place in first..MOST_FACTORS {
            if place >= self.many {
                return;
            }
            let factor = literal_at(self.literals.as_slice(), place);
            self.assume_fan_ins(sharing, factor);
        }
    }
}
