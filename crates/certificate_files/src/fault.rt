//! Why a file of certificates is refused: the fault's name, number, offset in the file, and text.
ghost use Rattle.std.specs.Prelude.{◌≡◌};

use std::alloc::AllocFailed;
use std::error::Error;
use std::fmt;
use std::fmt::{Display, Formatter};

/// Why a certificate file is refused, with the offset of the line's first byte. A missing line has
/// the offset of the end.
#[derive(Clone, Copy, Debug, PartialEq, Eq)]
pub enum CertError {
    /// The first line is none of a certificate file.
    BadHeader(u64),
    /// A line has another form than the one that comes next.
    BadLine(u64),
    /// A number is above 2^28 - 1, or the literal that a latch reads as is above 2^29 - 1.
    TooLarge(u64),
    /// The text ends within a block or the merged latches, or before the line of the choice.
    Truncated(u64),
    /// Memory was refused.
    NoMemory,
}

impl CertError {
    ghost use Rattle.certificate_files.specs.Codes.{code_of, name_of, offset_of};

    /// Returns the number of the kind of fault, from 1 on.
    pub fn code(self) -> u8
        ensures { result ≡ code_of self }
    {
        match self {
            CertError::BadHeader(_) => 1,
            CertError::BadLine(_) => 2,
            CertError::TooLarge(_) => 3,
            CertError::Truncated(_) => 4,
            CertError::NoMemory => 5,
        }
    }

    /// Returns the name that messages and reports have for it.
    pub fn name(self) -> &'static str
        ensures { result.now ≡ name_of self }
    {
        match self {
            CertError::BadHeader(_) => "BadHeader",
            CertError::BadLine(_) => "BadLine",
            CertError::TooLarge(_) => "TooLarge",
            CertError::Truncated(_) => "Truncated",
            CertError::NoMemory => "NoMemory",
        }
    }

    /// Returns the offset of the first byte of the line at fault, if it has one.
    pub fn offset(self) -> Option<u64>
        ensures { result ≡ offset_of self }
    {
        match self {
            CertError::BadHeader(at)
            | CertError::BadLine(at)
            | CertError::TooLarge(at)
            | CertError::Truncated(at) => Some(at),
            CertError::NoMemory => None,
        }
    }

    /// Returns the beginning of its text: the name, or words if memory was refused.
    fn title(self) -> &'static str {
        match self {
            CertError::NoMemory => "out of memory",
            fault => fault.name(),
        }
    }
}

/// Its name, and its offset if it has one.
impl Display for CertError {
    fn fmt<W: fmt::Write>(&self, f: &mut Formatter<W>) -> fmt::Result {
        f.write_str(self.title())?;
        match self.offset() {
            Some(at) => write!(f, " at {at}"),
            None => Ok(()),
        }
    }
}

impl Error for CertError {}

impl<T: Drop> From<AllocFailed<T>> for CertError {
    ghost use Rattle.std.specs.Prelude.{◌≡◌};
    ghost use Rattle.certificate_files.specs.declared.fault.CertError.TheVariants.{NoMemory};

    ghost from_gives = { λ _ e. e ≡ NoMemory };

    fn from(_error: AllocFailed<T>) -> CertError {
        CertError::NoMemory
    }
}
