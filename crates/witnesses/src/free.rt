//! A witness has a value for each latch, and a stimulus for the free ones alone, since the others
//! begin with their reset. So values are taken from all latches to the free ones, from circuit to
//! circuit, and back to all.
ghost use Rattle.std.specs.Prelude.{◌≡◌, IfOk, drop};
ghost use Rattle.std.specs.List.{slice_index_or};
ghost use Rattle.aig_graph.specs.Graph.{is_free};
ghost use Rattle.witnesses.specs.Carrying.{free_digits, is_first, opened, opening_digits, spread};
ghost use Rattle.witnesses.specs.declared.witness.Digit.TheVariants.{Either};

use crate::witness::Digit;
use aig_graph::{Latch, NoMemory, Reset};
use std::alloc::Global;

fn is_free(latch: &Latch) -> bool
    ensures { result ≡ is_free latch.now }
{
    latch.reset == Reset::Free
}

/// Returns the values of the free latches, in order, from those of all latches.
pub(crate) fn free_digits(
    alloc: Global,
    latches: &[Latch],
    digits: &[Digit],
) -> Result<Vec<Digit>, NoMemory>
    ensures { IfOk result (λ free. free.items ≡ free_digits latches.now digits.now) }
{
    let mut free = Vec::new(alloc);
    for place in 0..latches.len().min(digits.len()) {
        let digit = digits[place];
        if is_free(&latches[place]) {
            free.push(digit)?;
        }
    }
    Ok(free)
}

/// Returns the value at a place, or either if there is none.
fn digit_at(digits: &[Digit], place: usize) -> Digit
    ensures { result ≡ slice_index_or digits.now place Either }
{
    digits.get(place).copied().unwrap_or(Digit::Either)
}

/// Returns true if the next of the kept places is this one.
fn is_next(kept: &[u32], next: usize, place: usize) -> bool
    ensures { result ≡ is_first (drop next kept.now) place }
{
    match kept.get(next) {
        Some(kept) => *kept as usize == place,
        None => false,
    }
}

/// Returns values for `count` free latches: at the kept places these, in order, and either at all
/// others.
pub(crate) fn spread(
    alloc: Global,
    count: usize,
    kept: &[u32],
    digits: &[Digit],
) -> Result<Vec<Digit>, NoMemory>
    ensures { IfOk result (λ free. free.items ≡ spread count 0 kept.now digits.now) }
{
    let mut free = Vec::new(alloc);
    let mut next = 0;
    for place in 0..count {
        if is_next(kept, next, place) {
            free.push(digit_at(digits, next))?;
            next += 1;
        } else {
            free.push(Digit::Either)?;
        }
    }
    Ok(free)
}

/// Returns the value of a latch with this reset at step 0. `next` is the place of the next free
/// one's value.
fn opened(reset: Reset, free: &[Digit], next: usize) -> Digit
    ensures { result ≡ opened reset (drop next free.now) }
{
    match reset {
        Reset::Zero => Digit::Zero,
        Reset::One => Digit::One,
        Reset::Free => digit_at(free, next),
    }
}

/// Returns the values of all latches: the reset of each known one, and these for the free ones, in
/// order.
pub(crate) fn opening(
    alloc: Global,
    latches: &[Latch],
    free: &[Digit],
) -> Result<Vec<Digit>, NoMemory>
    ensures { IfOk result (λ digits. digits.items ≡ opening_digits latches.now free.now) }
{
    let mut digits = Vec::new(alloc);
    let mut next = 0;
    for latch in latches {
        digits.push(opened(latch.reset, free, next))?;
        if is_free(latch) {
            next += 1;
        }
    }
    Ok(digits)
}
