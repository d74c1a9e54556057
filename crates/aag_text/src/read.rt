ghost use Rattle.std.specs.Prelude.{ℕ, List, ◌≡◌, ◌⊎◌, ◌++◌, Ok, IfOk, IfErr};
ghost use Rattle.file_words.specs.declared.fault.ReadError.TheVariants.{NoMemory};
ghost use Rattle.ascii_file.specs.Reading as reading;
ghost use Rattle.file_words.specs.Answering.{Gives};
ghost use Rattle.aag_text.specs.Readers.{Holds};

use crate::reader::AagReader;
use aig_graph::Circuit;
use file_words::ReadError;
use std::alloc::Global;

/// Reads the circuit of an ASCII file, with its gates in order. Inputs, latches and gates get new
/// variables in this order. The time is linear in the bytes, and memory in the items that were
/// read; the bytes aren't copied.
///
/// # Errors
///
/// The first fault of the file, or `NoMemory`, which may come before it; never `Device`.
pub fn read_aag(alloc: Global, bytes: &[u8]) -> Result<Circuit, ReadError>
    ensures ok { IfOk result (λ circuit. reading.read_bytes bytes.now ≡ Ok circuit) }
    ensures err { IfErr result (λ error. (error ≡ NoMemory) ⊎ reading.IsFaultOf bytes.now error) }
{
    read(alloc, bytes)
}

fn read(alloc: Global, bytes: &[u8]) -> Result<Circuit, ReadError>
    ensures { Gives NoMemory (λ circuit. circuit) result (reading.read_bytes bytes.now) }
{
    let mut reader = AagReader::new(alloc);
    let circuit = read_rest(&mut reader, bytes);
    drop(reader);
    circuit
}

/// Returns the circuit of a file that ends with these bytes.
fn read_rest(reader: &mut AagReader, bytes: &[u8]) -> Result<Circuit, ReadError>
    ensures { (before : List ℕ) → Holds reader.old before
        → Gives NoMemory (λ circuit. circuit) result (reading.read_bytes (before ++ bytes.now)) }
{
    reader.feed(bytes)?;
    reader.finish()
}
