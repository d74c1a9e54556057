ghost use Rattle.std.specs.Prelude.{◌≡◌, ◌*◌, ◌+◌, ◌^◌, ◌<◌, ◌≤◌, IfOk};
ghost use Rattle.binary_file.specs.ReaderItems.{only_number, literal_within, latch_numbers, reset_in};

use aig_graph::{Lit, Reset};
use ascii_file::Header;
use file_words::ReadError;

/// Returns the only number of the line at offset `at`.
pub(crate) fn only_number(at: u64, numbers: &[u32]) -> Result<u32, ReadError>
    ensures { result ≡ only_number at numbers.now }
{
    match numbers {
        [number] => Ok(*number),
        _ => Err(ReadError::BadLine(at)),
    }
}

/// Returns the next literal and the reset of a latch's line; a reset that is left out is 0.
pub(crate) fn latch_numbers(at: u64, numbers: &[u32]) -> Result<(u32, u32), ReadError>
    ensures { result ≡ latch_numbers at numbers.now }
{
    match numbers {
        [next] => Ok((*next, 0)),
        [next, reset] => Ok((*next, *reset)),
        _ => Err(ReadError::BadLine(at)),
    }
}

/// Returns the literal of this number, if it isn't past the greatest variable.
pub(crate) fn literal_within(header: &Header, at: u64, number: u32) -> Result<u32, ReadError>
    requires { header.now.greatest < 2 ^ 28 }
    ensures value { result ≡ literal_within header.now at number }
    ensures within { IfOk result (λ lit. lit ≤ 2 * header.now.greatest + 1) }
{
    if number > 2 * header.greatest + 1 {
        return Err(ReadError::MaxIndex(at));
    }
    Ok(number)
}

/// Returns the reset of a number, for a latch with this literal.
pub(crate) fn reset_in(current: u32, number: u32) -> Option<Reset>
    ensures { result ≡ reset_in current number }
{
    match number {
        0 => Some(Reset::Zero),
        1 => Some(Reset::One),
        _ if number == current => Some(Reset::Free),
        _ => None,
    }
}

/// Returns the literal with this number.
pub(crate) fn literal(number: u32) -> Lit
    requires { number < 2 ^ 29 }
    ensures { result ≡ number }
{
    Lit::new(number / 2, number % 2 == 1)
}
