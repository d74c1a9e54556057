//! Lines with nothing but numbers after their first word. Form comes before size: a line of another
//! form is `BadLine`, however great its numbers.
ghost use Rattle.std.specs.Prelude.{◌≡◌, ◌++◌, List, ℕ, Some, MatchOption};
ghost use Rattle.certificate_files.specs.Files.{frame_saying, gate_saying, is_small, saying_of};
ghost use Rattle.certificate_files.specs.Forms.{framed, gated};

use crate::fault::CertError;
use ascii_file::NumberLine;
use file_words::Line;

/// The greatest number in a file.
const MAX_NUMBER: u32 = (1 << 28) - 1;

/// The line that begins a block.
#[derive(Clone, Copy)]
pub(crate) struct FrameLine {
    pub(crate) count: u32,
    /// How many gates the block has.
    pub(crate) gates: u32,
    /// How many routes it has.
    pub(crate) routes: u32,
}

pub(crate) fn is_small(number: u32) -> bool
    ensures { result ≡ is_small number }
{
    number <= MAX_NUMBER
}

/// Returns what follows the letters that a line begins with.
pub(crate) fn after_letters<'a>(text: &'a [u8], letters: &[u8]) -> Option<&'a [u8]>
    ensures { MatchOption result ((rest : List ℕ) → text.now ≡ letters.now ++ rest
        → ⊥) (λ rest. text.now ≡ letters.now ++ rest.now) }
{
    text.strip_prefix(letters)
}

fn frame(at: u64, numbers: &[u32]) -> Result<FrameLine, CertError>
    ensures { result ≡ framed at (frame_saying (Some numbers.now)) }
{
    if numbers.len() != 3 {
        return Err(CertError::BadLine(at));
    }
    let (count, gates, routes) = (numbers[0], numbers[1], numbers[2]);
    if is_small(count) && is_small(gates) && is_small(routes) {
        Ok(FrameLine {
            count,
            gates,
            routes,
        })
    } else {
        Err(CertError::TooLarge(at))
    }
}

/// Reads the line as one that begins a block.
pub(crate) fn frame_line(line: &Line<'_>) -> Result<FrameLine, CertError>
    ensures { result ≡ framed line.now.at (saying_of line.now.text.now) }
{
    let Some(rest) = after_letters(line.text, b"frame ") else {
        return Err(CertError::BadLine(line.at));
    };
    let mut row = NumberLine::new();
    row.extend(rest);
    match row.numbers() {
        Some(numbers) => frame(line.at, numbers),
        None => Err(CertError::BadLine(line.at)),
    }
}

fn gate(at: u64, numbers: &[u32]) -> Result<u32, CertError>
    ensures { result ≡ gated at (gate_saying (Some numbers.now)) }
{
    if numbers.len() != 1 {
        return Err(CertError::BadLine(at));
    }
    let var = numbers[0];
    if is_small(var) {
        Ok(var)
    } else {
        Err(CertError::TooLarge(at))
    }
}

/// Reads the line as one of a gate.
pub(crate) fn gate_line(line: &Line<'_>) -> Result<u32, CertError>
    ensures { result ≡ gated line.now.at (saying_of line.now.text.now) }
{
    let Some(rest) = after_letters(line.text, b"g ") else {
        return Err(CertError::BadLine(line.at));
    };
    let mut row = NumberLine::new();
    row.extend(rest);
    match row.numbers() {
        Some(numbers) => gate(line.at, numbers),
        None => Err(CertError::BadLine(line.at)),
    }
}
