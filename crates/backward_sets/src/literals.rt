//! Literals of drafts. They have no bound, since nothing rests on them; a circuit that is made of a
//! draft is looked at then.

/// A literal by its code: twice the variable, and one more if it is negated.
#[derive(Clone, Copy, PartialEq, Eq)]
pub struct Literal {
    pub code: u32,
}

impl Literal {
    /// The constant false.
    pub const FALSE: Literal = Literal { code: 0 };

    /// Stands for a variable that is no longer there.
    pub const NONE: Literal = Literal { code: u32::MAX };

    /// Returns the literal of a variable.
    pub fn of(var: u32) -> Literal {
        Literal {
            code: var.wrapping_mul(2),
        }
    }

    /// Returns the variable.
    pub fn var(self) -> u32 {
        self.code / 2
    }

    /// Returns true if it is the negation of its variable.
    pub fn is_negated(self) -> bool {
        self.code % 2 == 1
    }

    /// Returns the literal, or its negation if `negated`.
    pub fn negated_if(self, negated: bool) -> Literal {
        Literal {
            code: self.code ^ u32::from(negated),
        }
    }

    /// Returns the replacement for `other`, if this literal replaces its variable.
    pub fn signed_as(self, other: Literal) -> Literal {
        self.negated_if(other.is_negated())
    }
}
