ghost use Rattle.std.specs.Prelude.{◌≡◌, IfOk, map};
ghost use Rattle.std.specs.List.{list_all};
ghost use Rattle.witnesses.specs.declared.fault.WitnessError.TheVariants.{NoMemory};
ghost use Rattle.file_words.specs.Answering.{Gives};
ghost use Rattle.witnesses.specs.Rows.{digit_of, is_ternary_digit, row_of};

use crate::fault::WitnessError;
use crate::witness::Digit;
use aig_graph::Sequence;
use file_words::Line;
use std::alloc::{AllocError, Global};

fn digit(byte: u8) -> Digit
    ensures { result ≡ digit_of byte }
{
    match byte {
        b'0' => Digit::Zero,
        b'1' => Digit::One,
        _ => Digit::Either,
    }
}

/// Returns true if each byte is 0, 1 or x.
fn are_digits(bytes: &[u8]) -> bool
    ensures { result ≡ list_all is_ternary_digit bytes.now }
{
    bytes
        .iter()
        .all(|byte| *byte == b'0' || *byte == b'1' || *byte == b'x')
}

fn digits(alloc: Global, bytes: &[u8]) -> Result<Sequence<Digit>, AllocError>
    ensures { IfOk result (λ digits. digits ≡ map digit_of bytes.now) }
{
    let mut digits = Vec::new(alloc);
    for byte in bytes {
        digits.push(digit(*byte))?;
    }
    Ok(Sequence::from_vec(digits))
}

/// Reads the line as one of `width` values.
pub(crate) fn row(
    alloc: Global,
    line: &Line<'_>,
    width: usize,
) -> Result<Sequence<Digit>, WitnessError>
    ensures { Gives NoMemory (λ row. row) result (row_of width line.now.at line.now.text.now) }
{
    if !are_digits(line.text) {
        return Err(WitnessError::BadLine(line.at));
    }
    if line.text.len() != width {
        return Err(WitnessError::Width(line.at));
    }
    Ok(digits(alloc, line.text)?)
}
