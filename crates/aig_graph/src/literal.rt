//! Literals, by their AIGER numbers: twice the variable, and one more if it is negated. So literals
//! are ordered as their variables, and a negation differs in the lowest bit.
ghost use Rattle.std.specs.Prelude.{◌≡◌, ◌≢◌, ◌+◌, ◌*◌, ◌/◌, ◌%◌, ◌<◌, ◌↔◌, IsTrue, if◌then◌else◌};
ghost use Rattle.aig_graph.specs.declared.literal.TheConstants.{MAX_VARIABLES};
ghost use Rattle.aig_graph.specs.Value.{signed, signed_as};

use std::marker::Model;

/// The number of variables that a graph may have, the constant among them.
pub const MAX_VARIABLES: usize = 1 << 28;

/// A variable or its negation. Contracts see the AIGER number: twice the variable, and one more if
/// it is negated. Variable 0 is the constant.
#[derive(Clone, Copy, PartialEq, Eq, PartialOrd, Ord, Hash, Debug)]
pub struct Lit {
    code: u32,
}

impl Model for Lit {
    ghost use Rattle.std.specs.Prelude.{ℕ, ◌<◌, ◌*◌};
    ghost use Rattle.aig_graph.specs.declared.literal.TheConstants.{MAX_VARIABLES};

    ghost Value = { ℕ };

    ghost view = { λ l. l.code };

    ghost invariant = { λ l. l.code < 2 * MAX_VARIABLES };

    ghost inverse = { λ n. record { code = n } };
}

impl Lit {
    /// The constant false.
    pub const FALSE: Lit = Lit { code: 0 };

    /// The constant true.
    pub const TRUE: Lit = Lit { code: 1 };

    /// Returns the literal of a variable.
    pub fn new(var: u32, negated: bool) -> Lit
        requires { var < MAX_VARIABLES }
        ensures { result ≡ 2 * var + (if negated then 1 else 0) }
    {
        Lit {
            code: 2 * var + u32::from(negated),
        }
    }

    /// Returns the variable that the literal reads.
    pub fn var(self) -> u32
        ensures variable { result ≡ self / 2 }
        ensures small { result < MAX_VARIABLES }
    {
        self.code / 2
    }

    /// Returns the AIGER number.
    pub fn code(self) -> u32
        ensures code { result ≡ self }
        ensures small { result < 2 * MAX_VARIABLES }
    {
        self.code
    }

    /// Returns true if the literal is the negation of its variable.
    pub fn is_negated(self) -> bool
        ensures { IsTrue result ↔ (self % 2 ≡ 1) }
    {
        self.code % 2 == 1
    }

    /// Returns the literal of this variable with the other sign.
    pub fn not(self) -> Lit
        ensures same_variable { result / 2 ≡ self / 2 }
        ensures other_sign { result % 2 ≢ self % 2 }
    {
        Lit {
            code: self.code ^ 1,
        }
    }

    /// Returns this literal, negated if `other` is a negation. It replaces `other` if this literal
    /// replaces the variable of `other`.
    pub fn signed_as(self, other: Lit) -> Lit
        ensures { result ≡ signed_as other self }
    {
        Lit::new(self.var(), self.is_negated() != other.is_negated())
    }

    /// Returns the value of the literal if its variable has the value `of_variable`.
    pub fn value(self, of_variable: bool) -> bool
        ensures { result ≡ signed self of_variable }
    {
        if self.is_negated() {
            !of_variable
        } else {
            of_variable
        }
    }
}
