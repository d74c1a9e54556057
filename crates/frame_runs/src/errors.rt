//! The errors of a retiming, by the step that failed: reading, retiming or writing.
//!
//! A caller tells a refused circuit from a failed device by the variant, never by a text.
ghost use Rattle.std.specs.Prelude.{◌≡◌};

use aig_graph::{HoldError, NoMemory};
use counted_io::WriteError;
use file_words::ReadError;
use thiserror::Error;

/// Why a circuit wasn't retimed.
#[derive(Clone, Copy, Debug, PartialEq, Eq, Error)]
pub enum RetimeError {
    /// Memory is refused.
    #[error("out of memory")]
    NoMemory,
    /// The index, from 0, of the first name to be held that no latch has.
    #[error("no latch has name {0}")]
    NoSuchName(usize),
    /// The index, from 0, of the first position to be held that is no latch's.
    #[error("position {0} is that of no latch")]
    NoSuchLatch(usize),
    /// The latch of a line of the given classes that no reading has. It isn't a latch behind those
    /// of the lines before, it is free or held, or it may not read as its literal.
    #[error("latch {0} is misread")]
    Misread(u32),
    /// The latch of a line of the given classes, which isn't shown to be told what that is told
    /// which it reads as.
    #[error("latch {0} is not shown to agree")]
    NotShown(u32),
}

/// Why a run without a follower stopped after its latches were held.
#[derive(Clone, Copy, Debug, PartialEq, Eq)]
pub enum RunError {
    /// Memory is refused.
    NoMemory,
    /// As [`RetimeError::Misread`].
    Misread(u32),
    /// As [`RetimeError::NotShown`].
    NotShown(u32),
}

impl From<NoMemory> for RunError {
    ghost use Rattle.frame_runs.specs.declared.errors.RunError.TheVariants as errors;

    ghost from_gives = { λ _ e. e ≡ errors.NoMemory };

    fn from(_error: NoMemory) -> RunError {
        RunError::NoMemory
    }
}

impl RetimeError {
    ghost use Rattle.frame_runs.specs.Codes.{retime_error_code};

    /// Returns the number of the error.
    pub fn code(self) -> u8
        ensures { result ≡ retime_error_code self }
    {
        match self {
            RetimeError::NoMemory => 1,
            RetimeError::NoSuchName(_) => 2,
            RetimeError::NoSuchLatch(_) => 3,
            RetimeError::Misread(_) => 4,
            RetimeError::NotShown(_) => 5,
        }
    }
}

impl From<NoMemory> for RetimeError {
    ghost use Rattle.frame_runs.specs.declared.errors.RetimeError.TheVariants as errors;

    ghost from_gives = { λ _ e. e ≡ errors.NoMemory };

    fn from(_error: NoMemory) -> RetimeError {
        RetimeError::NoMemory
    }
}

impl From<HoldError> for RetimeError {
    ghost use Rattle.frame_runs.specs.Codes.{of_hold_error};

    ghost from_gives = { λ error e. e ≡ of_hold_error error };

    fn from(error: HoldError) -> RetimeError {
        match error {
            HoldError::NoMemory => RetimeError::NoMemory,
            HoldError::NoSuchName(place) => RetimeError::NoSuchName(place),
            HoldError::NoSuchLatch(place) => RetimeError::NoSuchLatch(place),
        }
    }
}

impl From<RunError> for RetimeError {
    ghost use Rattle.frame_runs.specs.Codes.{of_run_error};

    ghost from_gives = { λ error e. e ≡ of_run_error error };

    fn from(error: RunError) -> RetimeError {
        match error {
            RunError::NoMemory => RetimeError::NoMemory,
            RunError::Misread(latch) => RetimeError::Misread(latch),
            RunError::NotShown(latch) => RetimeError::NotShown(latch),
        }
    }
}

/// Why a reader's bytes weren't retimed and written.
#[derive(Clone, Copy, Debug, PartialEq, Eq, Error)]
pub enum BytesError {
    /// The bytes are no circuit, or can't be read.
    #[error("{0}")]
    Read(ReadError),
    /// The circuit wasn't retimed.
    #[error("{0}")]
    Retime(RetimeError),
    /// The text wasn't written whole.
    #[error("{0}")]
    Write(WriteError),
}

impl From<ReadError> for BytesError {
    ghost use Rattle.frame_runs.specs.declared.errors.BytesError.TheVariants.{Read};

    ghost from_gives = { λ error e. e ≡ Read error };

    fn from(error: ReadError) -> BytesError {
        BytesError::Read(error)
    }
}

impl From<RetimeError> for BytesError {
    ghost use Rattle.frame_runs.specs.declared.errors.BytesError.TheVariants.{Retime};

    ghost from_gives = { λ error e. e ≡ Retime error };

    fn from(error: RetimeError) -> BytesError {
        BytesError::Retime(error)
    }
}

impl From<WriteError> for BytesError {
    ghost use Rattle.frame_runs.specs.declared.errors.BytesError.TheVariants.{Write};

    ghost from_gives = { λ error e. e ≡ Write error };

    fn from(error: WriteError) -> BytesError {
        BytesError::Write(error)
    }
}

impl BytesError {
    ghost use Rattle.frame_runs.specs.Codes.{bytes_error_code};

    /// Returns the number of the kind of error.
    pub fn code(self) -> u8
        ensures { result ≡ bytes_error_code self }
    {
        match self {
            BytesError::Read(_) => 1,
            BytesError::Retime(_) => 2,
            BytesError::Write(_) => 3,
        }
    }
}
