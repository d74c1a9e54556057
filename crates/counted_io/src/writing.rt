ghost use Rattle.std.specs.Prelude.{◌≡◌, ◌<◌, ◌≤◌, IfOk, OnErr, take, length};
ghost use Rattle.counted_io.specs.Output.{Writes, WritesAll, WritesPart};

use crate::counted::CountedWrite;
use thiserror::Error;

/// Why a text wasn't written whole.
#[derive(Clone, Copy, Debug, PartialEq, Eq, Error)]
pub enum WriteError {
    /// A write failed.
    #[error("device")]
    Device,
}

impl WriteError {
    /// Returns the number of the error.
    pub fn code(self) -> u8
        ensures { result ≡ 1 }
    {
        match self {
            WriteError::Device => 1,
        }
    }
}

/// Writes a beginning of the bytes, at least one of them.
fn write_part<W: CountedWrite>(writer: &mut W, bytes: &[u8]) -> Result<usize, WriteError>
    requires { 0 < length bytes.now }
    ensures some { IfOk result (λ n. (0 < n) × (n ≤ length bytes.now)) }
    ensures ok { IfOk result (λ n.
        WritesAll (W.output writer.old) (W.output writer.new) (take n bytes.now)) }
    ensures err { OnErr result (WritesPart (W.output writer.old) (W.output writer.new) bytes.now) }
{
    match writer.write_some(bytes) {
        Ok(0) => Err(WriteError::Device),
        Ok(count) => Ok(count),
        Err(_) => Err(WriteError::Device),
    }
}

/// Writes all the bytes, in as many calls as the writer wants.
///
/// Stops at the first write that fails: a beginning of the bytes was written then.
#[tactic(auto, using(crate::proofs::OutputLaws::writing_in_turn))]
pub fn write_all<W: CountedWrite>(writer: &mut W, bytes: &[u8]) -> Result<(), WriteError>
    ensures { Writes (W.output writer.old) (W.output writer.new) result bytes.now }
{
    let mut rest = bytes;
    while !rest.is_empty() {
        let count = write_part(writer, rest)?;
        rest = rest.split_at(count).1;
    }
    Ok(())
}
