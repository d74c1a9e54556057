//! Words of 256 lanes, one bit each.

/// The bits of all lanes.
#[derive(Clone, Copy)]
pub(crate) struct Words {
    pub(crate) a: u64,
    pub(crate) b: u64,
    pub(crate) c: u64,
    pub(crate) d: u64,
}

/// The words of the constant.
pub(crate) const ZERO: Words = Words {
    a: 0,
    b: 0,
    c: 0,
    d: 0,
};

/// Mixes a word into a number.
fn mixed(number: u64, word: u64) -> u64 {
    let product = (number ^ word).wrapping_mul(0x9e37_79b9_7f4a_7c15);
    product ^ (product >> 29)
}

impl Words {
    /// Returns the bits that are 1 in both.
    pub(crate) fn both(self, other: Words) -> Words {
        Words {
            a: self.a & other.a,
            b: self.b & other.b,
            c: self.c & other.c,
            d: self.d & other.d,
        }
    }

    /// Returns these bits, all turned round if so told.
    pub(crate) fn turned(self, negated: bool) -> Words {
        let sign = 0u64.wrapping_sub(u64::from(negated));
        Words {
            a: self.a ^ sign,
            b: self.b ^ sign,
            c: self.c ^ sign,
            d: self.d ^ sign,
        }
    }

    /// Returns true if all bits are those of other words.
    pub(crate) fn is(self, other: Words) -> bool {
        (self.a == other.a) & (self.b == other.b) & (self.c == other.c) & (self.d == other.d)
    }

    /// Returns a number of these bits. Others seldom have it.
    pub(crate) fn number(self) -> u64 {
        mixed(mixed(mixed(mixed(0, self.a), self.b), self.c), self.d)
    }
}
