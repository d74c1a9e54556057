ghost use Rattle.std.specs.Prelude.{◌≡◌, ◌∷◌, nat_lt};
ghost use Rattle.std.specs.List.{list_any};
ghost use Rattle.ascii_file.specs.Reading as reading;
ghost use Rattle.aag_text.specs.Items as items;

use ascii_file::{RawGate, RawLatch};

/// Returns the only number of a line.
pub(crate) fn only(numbers: &[u32]) -> Option<u32>
    ensures { result ≡ items.only numbers.now }
{
    match numbers {
        [number] => Some(*number),
        _ => None,
    }
}

/// Returns the latch of two or three numbers.
pub(crate) fn latch_of(numbers: &[u32]) -> Option<RawLatch>
    ensures { result ≡ items.latch_of_numbers numbers.now }
{
    match numbers {
        [current, next] => Some(RawLatch {
            current: *current,
            next: *next,
            reset: 0,
        }),
        [current, next, reset] => Some(RawLatch {
            current: *current,
            next: *next,
            reset: *reset,
        }),
        _ => None,
    }
}

/// Returns the gate of three numbers.
pub(crate) fn gate_of(numbers: &[u32]) -> Option<RawGate>
    ensures { result ≡ items.gate_of_numbers numbers.now }
{
    match numbers {
        [lhs, rhs0, rhs1] => Some(RawGate {
            lhs: *lhs,
            rhs0: *rhs0,
            rhs1: *rhs1,
        }),
        _ => None,
    }
}

/// Returns true if one of the literals is past the greatest.
pub(crate) fn is_past(greatest: u32, lit: u32, others: &[u32]) -> bool
    ensures { result ≡ list_any (λ other. nat_lt greatest other) (lit ∷ others.now) }
{
    lit > greatest || is_any_past(greatest, others)
}

fn is_any_past(greatest: u32, lits: &[u32]) -> bool
    ensures { result ≡ list_any (λ lit. nat_lt greatest lit) lits.now }
{
    lits.iter().any(|lit| *lit > greatest)
}

/// Returns true if the literal can't be defined: it is odd, or 0.
pub(crate) fn is_undefinable(lit: u32) -> bool
    ensures { result ≡ reading.is_undefinable lit }
{
    lit % 2 != 0 || lit == 0
}

/// Returns true if the latch's reset is neither 0 nor 1 nor its own literal.
pub(crate) fn is_bad_reset(latch: &RawLatch) -> bool
    ensures { result ≡ reading.is_bad_reset latch.now }
{
    !(latch.reset == 0 || latch.reset == 1 || latch.reset == latch.current)
}
