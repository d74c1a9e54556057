//! The numbers of a line, byte by byte, with no room for the bytes themselves. A number stays at
//! `u32::MAX` once it is past that: each limit is far below, so every comparison is that of the
//! whole number.
ghost use Rattle.std.specs.Prelude.{◌≡◌, ◌+◌, ◌*◌, ◌≤◌};
ghost use Rattle.ascii_file.specs.parts.Rows.{clamped};

/// The most numbers that a line has.
const MAX_NUMBERS: usize = 9;

/// The numbers of a line that comes in pieces. None of them is past `u32::MAX`: that stands for
/// each greater one.
#[derive(Clone, Copy)]
pub struct NumberLine {
    numbers: [u32; MAX_NUMBERS],
    len: usize,
    /// The number that the last bytes spell, without those after it.
    number: Option<u32>,
    /// Whether the bytes so far are at most nine numbers with one space between.
    is_spelt: bool,
    ghost short: { len ≤ 9 },
}

impl NumberLine {
    ghost use Rattle.std.specs.Prelude.{ℕ, List, [], ◌∷◌, ◌++◌, ◌≡◌, ◌≤◌, length, Option, Some, None, MatchOption};
    ghost use Rattle.ascii_file.specs.parts.Rows.{in_front, row_of};
    ghost use Rattle.ascii_file.specs.parts.Open.{ended, numbers_with};

    /// Returns a line of which no byte has come.
    pub fn new() -> NumberLine
        ensures { (rest : List ℕ) → numbers_with result rest ≡ row_of rest }
    {
        NumberLine {
            numbers: [0; MAX_NUMBERS],
            len: 0,
            number: None,
            is_spelt: true,
        }
    }

    /// Takes the next bytes of the line.
    pub fn extend(&mut self, part: &[u8])
        ensures { (rest : List ℕ) → numbers_with self.new rest
            ≡ numbers_with self.old (part.now ++ rest) }
    {
        for byte in part {
            self.take_byte(*byte);
        }
    }

    /// Returns the numbers of the line, of which all bytes have come. Gives `None` unless it is at
    /// most nine numbers with one space between.
    pub fn numbers(&mut self) -> Option<&[u32]>
        ensures { MatchOption result (numbers_with self.old [] ≡ None)
            (λ ns. numbers_with self.old [] ≡ Some ns.now) }
    {
        self.end_number();
        if self.is_spelt {
            Some(&self.numbers[..self.len])
        } else {
            None
        }
    }

    /// Takes the next byte of the line.
    pub(crate) fn take_byte(&mut self, byte: u8)
        ensures { (rest : List ℕ) → numbers_with self.new rest
            ≡ numbers_with self.old (byte ∷ rest) }
    {
        if byte == b' ' {
            self.end_number();
        } else if byte.is_ascii_digit() {
            self.number = Some(with_digit(self.number.unwrap_or(0), byte - b'0'));
        } else {
            self.is_spelt = false;
        }
    }

    /// Marks the line as no numbers, whatever follows.
    pub(crate) fn refuse(&mut self)
        ensures { (rest : List ℕ) → numbers_with self.new rest ≡ None }
    {
        self.is_spelt = false;
    }

    /// Adds the number that ends here; there has to be one, and room for it.
    fn end_number(&mut self)
        ensures number { self.new.number ≡ None }
        ensures ended { (more : Option (List ℕ)) → ended self.new more
            ≡ ended self.old (in_front self.old.number more) }
    {
        let number = self.number;
        self.number = None;
        match number {
            Some(number) if self.len < MAX_NUMBERS => {
                self.numbers[self.len] = number;
                self.len += 1;
            }
            _ => self.is_spelt = false,
        }
    }
}

/// Returns the number with one more digit after it.
pub(crate) fn with_digit(number: u32, digit: u8) -> u32
    ensures { result ≡ clamped (10 * number + digit) }
{
    number.saturating_mul(10).saturating_add(u32::from(digit))
}
