ghost use Rattle.std.specs.Prelude.{ℕ, List, ◌≡◌, ◌⊎◌, ◌++◌, Ok, Err, IfOk, IfErr};
ghost use Rattle.file_words.specs.declared.fault.ReadError.TheVariants.{NoMemory};
ghost use Rattle.file_words.specs.Answering.{Gives};
ghost use Rattle.aig_binary.specs.Spellings.{read_any};
ghost use Rattle.aig_binary.specs.Readers.{HoldsEither};

use crate::any_reader::AnyReader;
use aig_graph::Circuit;
use file_words::ReadError;
use std::alloc::Global;

/// Reads the circuit of a file of either spelling, all of whose bytes are there.
///
/// # Errors
///
/// `BadHeader` at 0 if the first three bytes are neither spelling's. Otherwise the first fault of
/// the bytes, or `NoMemory`, which may come before it. Never `Device`.
pub fn read_any(alloc: Global, bytes: &[u8]) -> Result<Circuit, ReadError>
    ensures ok { IfOk result (λ circuit. read_any bytes.now ≡ Ok circuit) }
    ensures err { IfErr result (λ error. (error ≡ NoMemory) ⊎ (read_any bytes.now ≡ Err error)) }
{
    read(alloc, bytes)
}

fn read(alloc: Global, bytes: &[u8]) -> Result<Circuit, ReadError>
    ensures { Gives NoMemory (λ circuit. circuit) result (read_any bytes.now) }
{
    let mut reader = AnyReader::new(alloc);
    let circuit = read_rest(&mut reader, bytes);
    // By name: the paths of the drop then stand in functions of their own, and are proved once.
    drop(reader);
    circuit
}

/// Returns the circuit of a file that ends with these bytes.
fn read_rest(reader: &mut AnyReader, bytes: &[u8]) -> Result<Circuit, ReadError>
    ensures { (before : List ℕ) → HoldsEither reader.old before
        → Gives NoMemory (λ circuit. circuit) result (read_any (before ++ bytes.now)) }
{
    match reader.feed(bytes) {
        Ok(()) => reader.finish(),
        Err(fault) => Err(fault),
    }
}
