//! A number of a text may have any number of digits. It is read up to 2^64 - 1, which is past every
//! limit of a file, and stays there.
ghost use Rattle.std.specs.Prelude.{◌≡◌, ◌+◌, ◌*◌};
ghost use Rattle.file_words.specs.Numbers.{clamped, number_of};

/// Returns the number with one more digit after it.
fn with_digit(number: u64, digit: u8) -> u64
    ensures { result ≡ clamped (10 * number + digit) }
{
    number.saturating_mul(10).saturating_add(u64::from(digit))
}

/// Returns the number that decimal digits spell. `u64::MAX` stands for each greater one too. Gives
/// `None` if a byte is no digit, or there is none.
pub fn number(digits: &[u8]) -> Option<u64>
    ensures { result ≡ number_of digits.now }
{
    if digits.is_empty() {
        return None;
    }
    let mut number = 0;
    for digit in digits {
        if !digit.is_ascii_digit() {
            return None;
        }
        number = with_digit(number, *digit - b'0');
    }
    Some(number)
}
