//! The reasons why a witness isn't read. A report's words for a fault, its name and offset, stand
//! here.
ghost use Rattle.std.specs.Prelude.{◌≡◌};

use std::alloc::{AllocError, AllocFailed};
use std::error::Error;
use std::fmt;
use std::fmt::{Debug, Display, Formatter};

/// Why bytes were not read as a witness. The number is the offset of the first byte of the line at
/// fault. A missing line has the offset of the end.
#[derive(Clone, Copy)]
pub enum WitnessError {
    /// The first line isn't `1`: a checker that found no way to a bad state writes `0` or `2`.
    BadHeader(u64),
    /// A line has another form than the one that comes next.
    BadLine(u64),
    /// A line has another number of values than there are latches or inputs.
    Width(u64),
    /// The circuit has no property of a number that is named.
    NoSuchProperty(u64),
    /// The text ends before the line that ends a witness.
    Truncated(u64),
    /// A line that is no comment follows the end.
    Trailing(u64),
    /// Memory was refused.
    NoMemory,
}

impl WitnessError {
    ghost use Rattle.witnesses.specs.Codes.{code_of, name_of, offset_of};

    /// Returns the number of the kind of fault, from 1 on.
    pub fn code(self) -> u8
        ensures { result ≡ code_of self }
    {
        match self {
            WitnessError::BadHeader(_) => 1,
            WitnessError::BadLine(_) => 2,
            WitnessError::Width(_) => 3,
            WitnessError::NoSuchProperty(_) => 4,
            WitnessError::Truncated(_) => 5,
            WitnessError::Trailing(_) => 6,
            WitnessError::NoMemory => 7,
        }
    }

    /// Returns the name that messages and reports have for it.
    pub fn name(self) -> &'static str
        ensures { result.now ≡ name_of self }
    {
        match self {
            WitnessError::BadHeader(_) => "BadHeader",
            WitnessError::BadLine(_) => "BadLine",
            WitnessError::Width(_) => "Width",
            WitnessError::NoSuchProperty(_) => "NoSuchProperty",
            WitnessError::Truncated(_) => "Truncated",
            WitnessError::Trailing(_) => "Trailing",
            WitnessError::NoMemory => "NoMemory",
        }
    }

    /// Returns the offset of the first byte of the line at fault, if it has one.
    pub fn offset(self) -> Option<u64>
        ensures { result ≡ offset_of self }
    {
        match self {
            WitnessError::BadHeader(at)
            | WitnessError::BadLine(at)
            | WitnessError::Width(at)
            | WitnessError::NoSuchProperty(at)
            | WitnessError::Truncated(at)
            | WitnessError::Trailing(at) => Some(at),
            WitnessError::NoMemory => None,
        }
    }
}

// written out: derived, each variant has an arm with steps of its own
impl Debug for WitnessError {
    fn fmt<W: fmt::Write>(&self, f: &mut Formatter<W>) -> fmt::Result {
        match self.offset() {
            Some(at) => write!(f, "{}({at})", self.name()),
            None => f.write_str(self.name()),
        }
    }
}

impl Display for WitnessError {
    fn fmt<W: fmt::Write>(&self, f: &mut Formatter<W>) -> fmt::Result {
        match self.offset() {
            Some(at) => write!(f, "{} at {at}", self.name()),
            None => f.write_str("out of memory"),
        }
    }
}

impl Error for WitnessError {}

impl From<AllocError> for WitnessError {
    ghost use Rattle.std.specs.Prelude.{◌≡◌};
    ghost use Rattle.witnesses.specs.declared.fault.WitnessError.TheVariants.{NoMemory};

    ghost from_gives = { λ _ e. e ≡ NoMemory };

    fn from(_error: AllocError) -> WitnessError {
        WitnessError::NoMemory
    }
}

impl<T: Drop> From<AllocFailed<T>> for WitnessError {
    ghost use Rattle.std.specs.Prelude.{◌≡◌};
    ghost use Rattle.witnesses.specs.declared.fault.WitnessError.TheVariants.{NoMemory};

    ghost from_gives = { λ _ e. e ≡ NoMemory };

    fn from(_error: AllocFailed<T>) -> WitnessError {
        WitnessError::NoMemory
    }
}
