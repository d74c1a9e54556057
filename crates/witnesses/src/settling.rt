//! A witness with the values that are simulated, so that what is confirmed has no x.
ghost use Rattle.std.specs.Prelude.{◌≡◌, IfOk, map};
ghost use Rattle.witnesses.specs.Runs.{taken_digit, settled_witness};

use crate::runs::is_one;
use crate::witness::{Digit, Witness};
use aig_graph::{NoMemory, Sequence};
use std::alloc::Global;

fn settled(digit: Digit) -> Digit
    ensures { result ≡ taken_digit digit }
{
    if is_one(digit) {
        Digit::One
    } else {
        Digit::Zero
    }
}

fn settled_row(alloc: Global, digits: &[Digit]) -> Result<Sequence<Digit>, NoMemory>
    ensures { IfOk result (λ row. row ≡ map taken_digit digits.now) }
{
    let mut row = Vec::with_capacity(alloc, digits.len())?;
    for digit in digits {
        row.push(settled(*digit))?;
    }
    Ok(Sequence::from_vec(row))
}

fn settled_rows(
    alloc: Global,
    rows: &[Sequence<Digit>],
) -> Result<Sequence<Sequence<Digit>>, NoMemory>
    ensures { IfOk result (λ settled_rows. settled_rows ≡ map (map taken_digit) rows.now) }
{
    let mut all = Vec::with_capacity(alloc, rows.len())?;
    for row in rows {
        all.push(settled_row(alloc, row.as_slice())?)?;
    }
    Ok(Sequence::from_vec(all))
}

/// Returns the witness with 0 for each x.
pub(crate) fn settled_witness(alloc: Global, witness: Witness) -> Result<Witness, NoMemory>
    ensures { IfOk result (λ made. made ≡ settled_witness witness) }
{
    let Witness {
        properties,
        latches: digits,
        inputs: rows,
    } = witness;
    let latches = settled_row(alloc, digits.as_slice())?;
    let inputs = settled_rows(alloc, rows.as_slice())?;
    Ok(Witness {
        properties,
        latches,
        inputs,
    })
}
