ghost use Rattle.std.specs.Prelude.{◌≡◌};

use std::alloc::AllocFailed;
use thiserror::Error;

/// Why a list is refused. The number is the offset of the first byte of the line at fault.
#[derive(Clone, Copy, Debug, Error)]
pub enum ListError {
    /// A line isn't two paths in UTF-8 with one tab between.
    #[error("BadLine at {0}")]
    BadLine(u64),
    /// There are more than 2^20 lines.
    #[error("TooLarge at {0}")]
    TooLarge(u64),
    /// Memory was refused.
    #[error("out of memory")]
    NoMemory,
}

impl ListError {
    ghost use Rattle.circuit_files.specs.ListCodes.{code_of, name_of, offset_of};

    /// Returns the number of the kind of fault.
    pub fn code(self) -> u8
        ensures { result ≡ code_of self }
    {
        match self {
            ListError::BadLine(_) => 1,
            ListError::TooLarge(_) => 2,
            ListError::NoMemory => 3,
        }
    }

    /// Returns the name that messages and reports have for it.
    pub fn name(self) -> &'static str
        ensures { result.now ≡ name_of self }
    {
        match self {
            ListError::BadLine(_) => "BadLine",
            ListError::TooLarge(_) => "TooLarge",
            ListError::NoMemory => "NoMemory",
        }
    }

    /// Returns the offset of the first byte of the line at fault, if it has one.
    pub fn offset(self) -> Option<u64>
        ensures { result ≡ offset_of self }
    {
        match self {
            ListError::BadLine(at) | ListError::TooLarge(at) => Some(at),
            ListError::NoMemory => None,
        }
    }
}

impl<T: Drop> From<AllocFailed<T>> for ListError {
    ghost use Rattle.std.specs.Prelude.{◌≡◌};
    ghost use Rattle.circuit_files.specs.declared.fault.ListError.TheVariants.{NoMemory};

    ghost from_gives = { λ _ e. e ≡ NoMemory };

    fn from(_error: AllocFailed<T>) -> ListError {
        ListError::NoMemory
    }
}
