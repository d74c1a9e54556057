//! The faults of circuit files of either spelling. A place is an offset, since the gates of a
//! binary file stand on no line. An undefined variable or a cycle shows only in the whole file, and
//! has no place.
ghost use Rattle.std.specs.Prelude.{◌≡◌};

use aig_graph::NoMemory;
use counted_io::ReadAllError;
use std::alloc::{AllocError, AllocFailed};
use std::error::Error;
use std::fmt;
use std::fmt::{Display, Formatter};

/// Why bytes were not read as a circuit. The number is the offset of the first byte of the line or
/// delta at fault. If that is missing, it is the length of the input.
#[derive(Clone, Copy, Debug, PartialEq, Eq)]
pub enum ReadError {
    /// The first line is no header.
    BadHeader(u64),
    /// A count is past its limit.
    TooLarge(u64),
    /// A literal, or what the header counts, is past the greatest variable.
    MaxIndex(u64),
    /// A line isn't the numbers that its section wants, with one space between.
    BadLine(u64),
    /// A literal that is to be defined is odd, or 0.
    BadLiteral(u64),
    /// A variable is defined again.
    DefinedTwice(u64),
    /// A variable is read and not defined.
    Undefined,
    /// Gates read one another in a circle.
    Cycle,
    /// A reset is neither 0 nor 1 nor the latch's own literal.
    BadReset(u64),
    /// A delta of a binary file is too long, or out of range.
    BadDelta(u64),
    /// The input ends before the last item.
    Truncated(u64),
    /// A symbol is ill formed, out of range, or stands twice.
    BadSymbol(u64),
    /// Something else follows the last item.
    Trailing(u64),
    /// Memory was refused.
    NoMemory,
    /// The reader failed.
    Device,
}

impl ReadError {
    ghost use Rattle.file_words.specs.Codes.{code_of, name_of, offset_of};

    /// Returns the number of the kind of fault, from 1 on.
    pub fn code(self) -> u8
        ensures { result ≡ code_of self }
    {
        match self {
            ReadError::BadHeader(_) => 1,
            ReadError::TooLarge(_) => 2,
            ReadError::MaxIndex(_) => 3,
            ReadError::BadLine(_) => 4,
            ReadError::BadLiteral(_) => 5,
            ReadError::DefinedTwice(_) => 6,
            ReadError::Undefined => 7,
            ReadError::Cycle => 8,
            ReadError::BadReset(_) => 9,
            ReadError::BadDelta(_) => 10,
            ReadError::Truncated(_) => 11,
            ReadError::BadSymbol(_) => 12,
            ReadError::Trailing(_) => 13,
            ReadError::NoMemory => 14,
            ReadError::Device => 15,
        }
    }

    /// Returns the name that messages and reports have for it.
    pub fn name(self) -> &'static str
        ensures { result.now ≡ name_of self }
    {
        match self {
            ReadError::BadHeader(_) => "BadHeader",
            ReadError::TooLarge(_) => "TooLarge",
            ReadError::MaxIndex(_) => "MaxIndex",
            ReadError::BadLine(_) => "BadLine",
            ReadError::BadLiteral(_) => "BadLiteral",
            ReadError::DefinedTwice(_) => "DefinedTwice",
            ReadError::Undefined => "Undefined",
            ReadError::Cycle => "Cycle",
            ReadError::BadReset(_) => "BadReset",
            ReadError::BadDelta(_) => "BadDelta",
            ReadError::Truncated(_) => "Truncated",
            ReadError::BadSymbol(_) => "BadSymbol",
            ReadError::Trailing(_) => "Trailing",
            ReadError::NoMemory => "NoMemory",
            ReadError::Device => "Device",
        }
    }

    /// Returns the offset of the first byte of the line or delta at fault, if it has one.
    pub fn offset(self) -> Option<u64>
        ensures { result ≡ offset_of self }
    {
        match self {
            ReadError::BadHeader(at)
            | ReadError::TooLarge(at)
            | ReadError::MaxIndex(at)
            | ReadError::BadLine(at)
            | ReadError::BadLiteral(at)
            | ReadError::DefinedTwice(at)
            | ReadError::BadReset(at)
            | ReadError::BadDelta(at)
            | ReadError::Truncated(at)
            | ReadError::BadSymbol(at)
            | ReadError::Trailing(at) => Some(at),
            ReadError::Undefined | ReadError::Cycle | ReadError::NoMemory | ReadError::Device =>
                None,
        }
    }

    /// Returns the words that its message begins with.
    fn title(self) -> &'static str {
        match self {
            ReadError::NoMemory => "out of memory",
            ReadError::Device => "device",
            fault => fault.name(),
        }
    }
}

// written out: derived, each variant's message has an arm with steps of its own
impl Display for ReadError {
    fn fmt<W: fmt::Write>(&self, f: &mut Formatter<W>) -> fmt::Result {
        f.write_str(self.title())?;
        match self.offset() {
            Some(at) => write!(f, " at {at}"),
            None => Ok(()),
        }
    }
}

impl Error for ReadError {}

impl From<AllocError> for ReadError {
    ghost use Rattle.std.specs.Prelude.{◌≡◌};
    ghost use Rattle.file_words.specs.declared.fault.ReadError.TheVariants.{NoMemory};

    ghost from_gives = { λ _ e. e ≡ NoMemory };

    fn from(_error: AllocError) -> ReadError {
        ReadError::NoMemory
    }
}

impl<T: Drop> From<AllocFailed<T>> for ReadError {
    ghost use Rattle.std.specs.Prelude.{◌≡◌};
    ghost use Rattle.file_words.specs.declared.fault.ReadError.TheVariants.{NoMemory};

    ghost from_gives = { λ _ e. e ≡ NoMemory };

    fn from(_error: AllocFailed<T>) -> ReadError {
        ReadError::NoMemory
    }
}

impl From<NoMemory> for ReadError {
    ghost use Rattle.std.specs.Prelude.{◌≡◌};
    ghost use Rattle.file_words.specs.declared.fault.ReadError.TheVariants as fault;

    ghost from_gives = { λ _ e. e ≡ fault.NoMemory };

    fn from(_error: NoMemory) -> ReadError {
        ReadError::NoMemory
    }
}

impl From<ReadAllError> for ReadError {
    ghost use Rattle.std.specs.Prelude.{◌≡◌};
    ghost use Rattle.file_words.specs.Codes.{fault_of_reading};

    ghost from_gives = { λ error e. e ≡ fault_of_reading error };

    fn from(error: ReadAllError) -> ReadError {
        match error {
            ReadAllError::NoMemory => ReadError::NoMemory,
            ReadAllError::Device => ReadError::Device,
        }
    }
}
