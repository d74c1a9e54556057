//! Pieces of a reader's bytes, and what is left after a fault.
ghost use Rattle.std.specs.Prelude.{◌≡◌, ◌<◌, ◌≤◌, length, take, IfOk, OnOk, OnErr, IfErr};
ghost use Rattle.std.specs.Io.KnownBytes.{Consumes, IsAtEnd, Keeps};
ghost use Rattle.counted_io.specs.Input.{failures_after_read};
ghost use Rattle.file_words.specs.declared.fault.ReadError.TheVariants.{Device};
ghost use Rattle.aig_binary.specs.Ending.{ReadsToEnd, StopsReading};

use counted_io::CountedRead;
use file_words::ReadError;

/// How many bytes one read asks for.
pub(crate) const PIECE: usize = 65536;

/// Reads the next bytes; none only at the end.
pub(crate) fn next_piece<R: CountedRead>(
    reader: &mut R,
    piece: &mut [u8],
) -> Result<usize, ReadError>
    requires { 0 < length piece.old }
    ensures bound { IfOk result (λ n. n ≤ length piece.new) }
    ensures ok { IfOk result (λ n. Consumes (R.input reader.old).bytes (R.input reader.new).bytes
        (take n piece.new)) }
    ensures end { IfOk result (λ n. n ≡ 0 → IsAtEnd (R.input reader.new).bytes) }
    ensures err { OnErr result (Keeps (R.input reader.old).bytes (R.input reader.new).bytes) }
    ensures device { IfErr result (λ e. e ≡ Device) }
    ensures failures { (R.input reader.new).failures
        ≡ failures_after_read (R.input reader.old).failures result }
{
    match reader.read_some(piece) {
        Ok(count) => Ok(count),
        Err(_) => Err(ReadError::Device),
    }
}

/// Reads what is left to its end, and drops it.
pub(crate) fn drop_rest<R: CountedRead>(reader: &mut R) -> Result<(), ReadError>
    ensures ok { OnOk result (ReadsToEnd (R.input reader.old) (R.input reader.new)) }
    ensures err { IfErr result (StopsReading (R.input reader.old) (R.input reader.new)) }
{
    let mut piece = [0u8; PIECE];
    for _ in 0..u64::MAX {
        if next_piece(reader, &mut piece)? == 0 {
            return Ok(());
        }
    }
    Err(ReadError::NoMemory)
}
