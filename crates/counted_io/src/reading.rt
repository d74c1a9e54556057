//! A reader, read to its end by pieces, since its length isn't known. Reads that fail are counted
//! in the clauses. So an error `Device` says that one did, and a refusal of memory that none did.
ghost use Rattle.std.specs.Prelude.{◌≡◌, ◌<◌, ◌≤◌, length, take, IfOk, OnErr, IfErr, IsErrOf};
ghost use Rattle.std.specs.Io.KnownBytes.{Consumes, IsAtEnd, Keeps};
ghost use Rattle.counted_io.specs.Output.{one_more};
ghost use Rattle.counted_io.specs.Input.{ReadsAll, ReadsPart, failures_after_read};
ghost use Rattle.counted_io.specs.declared.reading.ReadAllError.TheVariants.{NoMemory};

use crate::counted::CountedRead;
use std::alloc::{AllocError, Global};
use thiserror::Error;

/// Why a reader wasn't read to its end.
#[derive(Clone, Copy, Debug, PartialEq, Eq, Error)]
pub enum ReadAllError {
    /// There is no room for the bytes.
    #[error("no memory")]
    NoMemory,
    /// A read failed.
    #[error("device")]
    Device,
}

impl From<AllocError> for ReadAllError {
    ghost from_gives = { λ _ e. e ≡ NoMemory };

    fn from(_refused: AllocError) -> ReadAllError {
        Self::NoMemory
    }
}

impl ReadAllError {
    ghost use Rattle.counted_io.specs.ReadErrors.{code_of};

    /// Returns the number of the error.
    pub fn code(self) -> u8
        ensures { result ≡ code_of self }
    {
        match self {
            ReadAllError::NoMemory => 1,
            ReadAllError::Device => 2,
        }
    }
}

/// How many bytes one read asks for.
const PIECE: usize = 65536;

/// Reads the next bytes; none only at the end.
fn read_piece<R: CountedRead>(reader: &mut R, piece: &mut [u8]) -> Result<usize, ReadAllError>
    requires { 0 < length piece.old }
    ensures bound { IfOk result (λ n. n ≤ length piece.new) }
    ensures ok { IfOk result (λ n.
        Consumes (R.input reader.old).bytes (R.input reader.new).bytes (take n piece.new)) }
    ensures end { IfOk result (λ n. n ≡ 0 → IsAtEnd (R.input reader.new).bytes) }
    ensures err { OnErr result (Keeps (R.input reader.old).bytes (R.input reader.new).bytes) }
    ensures device { IfErr result (λ e. e ≡ ReadAllError.Device) }
    ensures failures { (R.input reader.new).failures
        ≡ failures_after_read (R.input reader.old).failures result }
{
    match reader.read_some(piece) {
        Ok(count) => Ok(count),
        Err(_) => Err(ReadAllError::Device),
    }
}

/// Reads to the end.
///
/// Stops at the first read that fails, and if there is no room for what was read. A beginning of
/// the bytes is then gone from the reader.
pub fn read_all<R: CountedRead>(alloc: Global, reader: &mut R) -> Result<Vec<u8>, ReadAllError>
    ensures ok { IfOk result (λ bytes.
        ReadsAll (R.input reader.old) (R.input reader.new) bytes.items) }
    ensures err { OnErr result (ReadsPart (R.input reader.old) (R.input reader.new)) }
    ensures device { IsErrOf result ReadAllError.Device
        → (R.input reader.new).failures ≡ one_more (R.input reader.old).failures }
    ensures no_memory { IsErrOf result ReadAllError.NoMemory
        → (R.input reader.new).failures ≡ (R.input reader.old).failures }
{
    let mut bytes = Vec::new(alloc);
    let mut piece = [0u8; PIECE];
    loop {
        let count = read_piece(reader, &mut piece)?;
        if count == 0 {
            return Ok(bytes);
        }
        bytes.extend_from_slice(&piece[..count])?;
    }
}
