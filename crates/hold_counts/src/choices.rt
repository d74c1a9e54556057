//! Choices, as three gates: neither `select & first` nor `!select & second`, negated.
ghost use Rattle.std.specs.Prelude.{◌≡◌, ◌<◌, ◌*◌};
ghost use Rattle.aig_graph.specs.declared.literal.TheConstants.{MAX_VARIABLES};
ghost use Rattle.hold_counts.specs.Holds.{are_opposite, beside, choice_select, chosen_beside, chosen_by, first_of, hold_of, negated_gate, reads_opposite, select_between, select_of};

use aig_graph::{Aig, Gate, Lit};

/// Returns true if both are literals of one variable, with other signs.
fn are_opposite(a: u32, b: u32) -> bool
    ensures { result ≡ are_opposite a b }
{
    a / 2 == b / 2 && a != b
}

/// Returns true if a gate reads the opposite of a literal.
fn reads_opposite(gate: &Gate, lit: u32) -> bool
    ensures { result ≡ reads_opposite gate.now lit }
{
    are_opposite(gate.rhs0.code(), lit) || are_opposite(gate.rhs1.code(), lit)
}

/// Returns the fan-in of a gate beside a literal, or 0 if the gate doesn't read that.
fn beside(gate: &Gate, lit: u32) -> u32
    ensures { result ≡ beside gate.now lit }
{
    if gate.rhs0.code() == lit {
        gate.rhs1.code()
    } else if gate.rhs1.code() == lit {
        gate.rhs0.code()
    } else {
        0
    }
}

/// Returns what selects a literal that the first of two sides reads. It is 0 if they are no sides
/// of a choice, or of an exclusive or.
fn select_of(first: &Gate, second: &Gate, lit: u32) -> u32
    ensures { result ≡ select_of first.now second.now lit }
{
    let select = beside(first, lit);
    if reads_opposite(second, select) && !reads_opposite(second, lit) {
        select
    } else {
        0
    }
}

/// Returns the first number, or the second one if that is 0.
fn first_of(a: u32, b: u32) -> u32
    ensures { result ≡ first_of a b }
{
    if a == 0 { b } else { a }
}

/// Returns the gate that a literal negates, if it negates one.
fn negated_gate(aig: &Aig, lit: Lit) -> Option<Gate>
    ensures { result ≡ negated_gate aig.now lit }
{
    if lit.code() % 2 == 1 {
        aig.gate(lit.var())
    } else {
        None
    }
}

/// Returns what selects a literal between two sides, whichever reads it.
fn select_between(first: Option<Gate>, second: Option<Gate>, lit: u32) -> u32
    ensures { result ≡ select_between first second lit }
{
    match (first, second) {
        (Some(first), Some(second)) => {
            first_of(
                select_of(&first, &second, lit),
                select_of(&second, &first, lit),
            )
        }
        _ => 0,
    }
}

/// Returns what selects a literal in the choice that a gate is the negation of.
fn choice_select(aig: &Aig, gate: Option<Gate>, lit: u32) -> u32
    ensures { result ≡ choice_select aig.now gate lit }
{
    match gate {
        Some(outer) => {
            let first = negated_gate(aig, outer.rhs0);
            let second = negated_gate(aig, outer.rhs1);
            select_between(first, second, lit)
        }
        None => 0,
    }
}

/// Returns what selects the value of a latch, at variable `own`, in the literal of another variable
/// that is negated if `sign` is odd.
#[tactic(auto, unfolding(crate::specs::Holds::chosen_by))]
fn chosen_by(aig: &Aig, own: u32, var: u32, sign: u32) -> u32
    requires own { own < MAX_VARIABLES }
    requires sign { sign < 4 * MAX_VARIABLES }
    ensures { result ≡ chosen_by aig.now own var sign }
{
    choice_select(aig, aig.gate(var), 2 * own + (sign + 1) % 2)
}

/// Returns what selects the value of a latch in a fan-in of the gate that its next literal is.
#[tactic(auto, unfolding(crate::specs::Holds::chosen_beside))]
fn chosen_beside(aig: &Aig, own: u32, next: Lit, gate: Option<Gate>) -> u32
    requires { own < MAX_VARIABLES }
    ensures { result ≡ chosen_beside aig.now own next gate }
{
    match gate {
        Some(gate) => {
            let (larger, smaller) = (gate.rhs0, gate.rhs1);
            let first = chosen_by(aig, own, larger.var(), larger.code() + next.code());
            let second = chosen_by(aig, own, smaller.var(), smaller.code() + next.code());
            first_of(first, second)
        }
        None => 0,
    }
}

/// Returns what a latch at variable `own` with this next literal holds by, or 0 if it doesn't.
#[tactic(auto, unfolding(crate::specs::Holds::hold_of))]
pub(crate) fn hold_of(aig: &Aig, own: u32, next: Lit) -> u32
    requires { own < MAX_VARIABLES }
    ensures { result ≡ hold_of aig.now own next }
{
    let direct = chosen_by(aig, own, next.var(), next.code());
    let behind = chosen_beside(aig, own, next, aig.gate(next.var()));
    first_of(direct, behind)
}
