//! What literals of drafts lack: the constant true, and opposites.

use aig_graph::Lit;
use backward_sets::Literal;
use checked_tables::{entry_or, put_if_there};

/// The constant true.
pub const TRUE: Literal = Literal { code: 1 };

/// Returns the literal of the variable with the other sign.
pub fn opposite(lit: Literal) -> Literal {
    lit.negated_if(true)
}

/// Returns the constant that is true if `value`.
pub(crate) fn constant(value: bool) -> Literal {
    Literal::FALSE.negated_if(value)
}

/// Returns true if a literal is a constant.
pub(crate) fn is_constant(lit: Literal) -> bool {
    lit.code < 2
}

/// Returns the draft's literal for one of a circuit.
pub(crate) fn literal_of(lit: Lit) -> Literal {
    Literal::of(lit.var()).negated_if(lit.is_negated())
}

/// Returns the literal at `place`, or the constant false past the end.
pub(crate) fn literal_at(literals: &[Literal], place: u32) -> Literal {
    entry_or(literals, place as usize, Literal::FALSE)
}

/// Puts a literal at `place`, if the table has it.
pub(crate) fn set_literal(literals: &mut [Literal], place: u32, lit: Literal) {
    put_if_there(literals, place as usize, lit);
}
