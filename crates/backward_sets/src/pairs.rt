//! What the fan-ins of a gate say of it, and where an open table of gates is looked into.

use crate::drafts::Pair;
use crate::literals::Literal;

/// The smallest table.
const SMALLEST: usize = 16;

/// The most entries of a table.
pub const LARGEST_TABLE: usize = 1 << 31;

impl Pair {
    /// Returns both literals, the larger first.
    pub fn of(a: Literal, b: Literal) -> Pair {
        let (larger, smaller) = if a.code < b.code { (b, a) } else { (a, b) };
        Pair { larger, smaller }
    }

    /// Returns true if the gate is false for any values of its fan-ins.
    pub fn is_false(&self) -> bool {
        (self.smaller.code == 0) | (self.larger.code == self.smaller.code ^ 1)
    }

    /// Returns true if the gate equals its larger fan-in.
    pub fn is_larger(&self) -> bool {
        (self.smaller.code == 1) | (self.larger.code == self.smaller.code)
    }

    /// Returns true if both have the same fan-ins.
    pub fn equals(&self, other: &Pair) -> bool {
        (self.larger.code == other.larger.code) & (self.smaller.code == other.smaller.code)
    }

    /// Returns the slot at which the gate's entry is looked for first, in a table whose size is one
    /// more than `mask`.
    pub fn slot(&self, mask: usize) -> usize {
        let key = u64::from(self.larger.code)
            .wrapping_mul(0x9e37_79b9_7f4a_7c15)
            .wrapping_add(u64::from(self.smaller.code))
            .wrapping_mul(0xd6e8_feb8_6659_fd93);
        (key >> 32) as usize & mask
    }
}

/// Returns the size of an open table that `gates` gates fill by half at most.
pub fn table_size(gates: usize) -> usize {
    let mut size = SMALLEST;
    for _ in 0..usize::BITS {
        if (size / 2 > gates) | (size >= LARGEST_TABLE) {
            return size;
        }
        size = size.saturating_mul(2);
    }
    size
}
