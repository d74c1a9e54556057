//! The first line, byte by byte: letters, and then five to nine numbers. Its faults are looked for
//! once it has ended. They are, in order, of form, of limits, and of a greatest variable that
//! leaves no room for what is counted.
ghost use Rattle.std.specs.Prelude.{◌≡◌, ◌≤◌, ◌^◌, ◌||◌, ◌∷◌, [], nat_lt, length, get_or, Ok};
ghost use Rattle.ascii_file.specs.Headers as headers;
ghost use Rattle.ascii_file.specs.Reading.{unless};
ghost use Rattle.file_words.specs.declared.fault.ReadError.TheVariants.{MaxIndex};
ghost use Rattle.ascii_file.specs.parts.Limits.{limited, counts_past_greatest};

use crate::Header;
use crate::parts::numbers::NumberLine;
use file_words::ReadError;

/// The greatest number of variables, the constant left out.
const GREATEST_VARIABLE: u32 = (1 << 28) - 1;

/// The greatest number of outputs, and likewise of bad states, of constraints, of justice
/// properties and of fairness constraints.
const MAX_PROPERTIES: u32 = 1 << 24;

/// How many letters the first line begins with.
const LETTERS: usize = 4;

/// The first line, which comes in pieces: four letters and then the numbers.
#[derive(Clone, Copy)]
pub struct HeaderLine {
    /// What the line has to begin with.
    letters: [u8; LETTERS],
    /// How many of the letters have come.
    count: usize,
    line: NumberLine,
    ghost begun: { count ≤ 4 },
    ghost four: { length letters ≡ 4 },
}

impl HeaderLine {
    ghost use Rattle.std.specs.Prelude.{ℕ, List, [], ◌∷◌, ◌++◌, ◌≡◌, IfOk, codes};
    ghost use Rattle.std.specs.Option.{option_and_then};
    ghost use Rattle.ascii_file.specs.Headers as headers;
    ghost use Rattle.ascii_file.specs.Reading as reading;
    ghost use Rattle.ascii_file.specs.parts.Header.{header_row, header_with};
    ghost use Rattle.ascii_file.specs.parts.Limits.{limited};

    /// Returns a line of which no byte has come, and which is to begin with these letters.
    pub fn new(letters: [u8; LETTERS]) -> HeaderLine
        ensures { (rest : List ℕ) → header_with result rest ≡ header_row letters rest }
    {
        HeaderLine {
            letters,
            count: 0,
            line: NumberLine::new(),
        }
    }

    /// Takes the next bytes of the line.
    pub fn extend(&mut self, part: &[u8])
        ensures { (rest : List ℕ) → header_with self.new rest
            ≡ header_with self.old (part.now ++ rest) }
    {
        for byte in part {
            self.take_byte(*byte);
        }
    }

    /// Returns the header of an ASCII file that the line spells. All its bytes have come.
    pub fn header(&mut self) -> Result<Header, ReadError>
        ensures value { (line : List ℕ) → header_with self.old [] ≡ header_row (codes "aag ") line
            → result ≡ reading.read_header line }
        ensures within { IfOk result (λ header. headers.IsHeaderWithin header) }
    {
        match self.limited() {
            Ok(header) => with_variables(header),
            Err(fault) => Err(fault),
        }
    }

    /// Returns the header that the line spells. All its bytes have come. A number past `u32::MAX`
    /// is `u32::MAX`, and the number of variables isn't compared with what the file's form wants.
    ///
    /// # Errors
    ///
    /// `BadHeader` if the line is no header, `TooLarge` if one of its numbers is past its limit.
    pub fn limited(&mut self) -> Result<Header, ReadError>
        ensures { result ≡ limited (option_and_then headers.header_in (header_with self.old [])) }
    {
        if self.count < LETTERS {
            return Err(ReadError::BadHeader(0));
        }
        match self.line.numbers() {
            Some(numbers) => within_limits(header_in(numbers)),
            None => Err(ReadError::BadHeader(0)),
        }
    }

    fn take_byte(&mut self, byte: u8)
        ensures { (rest : List ℕ) → header_with self.new rest ≡ header_with self.old (byte ∷ rest) }
    {
        if self.count == LETTERS {
            self.line.take_byte(byte);
        } else if byte == self.letters[self.count] {
            self.count += 1;
        } else {
            self.count = LETTERS;
            self.line.refuse();
        }
    }
}

/// Returns the number at this place of the header, or 0 if it isn't given.
fn number_at(numbers: &[u32], place: usize) -> u32
    ensures { result ≡ get_or numbers.now place 0 }
{
    match numbers.get(place) {
        Some(number) => *number,
        None => 0,
    }
}

/// Returns the header of five to nine numbers.
fn header_in(numbers: &[u32]) -> Option<Header>
    requires { length numbers.now ≤ 9 }
    ensures { result ≡ headers.header_in numbers.now }
{
    if numbers.len() < 5 {
        return None;
    }
    Some(Header {
        greatest: number_at(numbers, 0),
        inputs: number_at(numbers, 1),
        latches: number_at(numbers, 2),
        outputs: number_at(numbers, 3),
        gates: number_at(numbers, 4),
        bad: number_at(numbers, 5),
        constraints: number_at(numbers, 6),
        justice: number_at(numbers, 7),
        fairness: number_at(numbers, 8),
    })
}

/// Returns true if the header counts more properties of some kind than it may.
fn is_any_past(header: &Header) -> bool
    ensures { result ≡ (nat_lt (2 ^ 24) header.now.outputs ||
        (nat_lt (2 ^ 24) header.now.bad || (nat_lt (2 ^ 24) header.now.constraints
        || (nat_lt (2 ^ 24) header.now.justice || nat_lt (2 ^ 24) header.now.fairness)))) }
{
    header.outputs > MAX_PROPERTIES
        || header.bad > MAX_PROPERTIES
        || header.constraints > MAX_PROPERTIES
        || header.justice > MAX_PROPERTIES
        || header.fairness > MAX_PROPERTIES
}

/// Returns the header if there is one and each of its numbers is within its limit.
fn within_limits(header: Option<Header>) -> Result<Header, ReadError>
    ensures { result ≡ limited header }
{
    let Some(header) = header else {
        return Err(ReadError::BadHeader(0));
    };
    if header.greatest > GREATEST_VARIABLE || is_any_past(&header) {
        return Err(ReadError::TooLarge(0));
    }
    Ok(header)
}

/// Returns the header if it counts no more variables than its greatest.
fn with_variables(header: Header) -> Result<Header, ReadError>
    ensures { result ≡ unless ((counts_past_greatest header, MaxIndex 0) ∷ []) (Ok header) }
{
    let variables = u64::from(header.inputs) + u64::from(header.latches) + u64::from(header.gates);
    if variables > u64::from(header.greatest) {
        return Err(ReadError::MaxIndex(0));
    }
    Ok(header)
}
