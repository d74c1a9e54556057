ghost use Rattle.std.specs.Prelude.{ℕ, List, ◌≡◌, [], IfOk, OnOk, IfErr, Ok, Some};
ghost use Rattle.aig_binary.specs.Spellings.{read_any, spelling_of};
ghost use Rattle.aig_binary.specs.Pieces.{IsFinishError};
ghost use Rattle.aig_binary.specs.Ending.{IsReadError, ReadsToEnd, Spells};

use crate::pieces::CircuitReader;
use crate::rest::{PIECE, drop_rest, next_piece};
use aig_graph::Circuit;
use counted_io::CountedRead;
use file_words::{ReadError, Spelling};

/// A circuit that was read, and the spelling of its bytes.
#[derive(Drop)]
pub struct SpeltCircuit {
    pub circuit: Circuit,
    pub spelling: Spelling,
}

/// Returns the circuit of the bytes that were fed, of which there are no more.
fn finished<C: CircuitReader>(circuits: &mut C) -> Result<SpeltCircuit, ReadError>
    requires { (bytes : List ℕ) × C.holds circuits.old bytes }
    ensures ok { (bytes : List ℕ) → C.holds circuits.old bytes
        → IfOk result (λ spelt. read_any bytes ≡ Ok spelt.circuit) }
    ensures spelling { (bytes : List ℕ) → C.holds circuits.old bytes
        → IfOk result (λ spelt. spelling_of bytes ≡ Some spelt.spelling) }
    ensures err { (bytes : List ℕ) → C.holds circuits.old bytes
        → IfErr result (IsFinishError bytes) }
{
    let spelling = circuits.spelling();
    let circuit = circuits.finish()?;
    match spelling {
        Some(spelling) => Ok(SpeltCircuit { circuit, spelling }),
        None => unreachable!(),
    }
}

/// Feeds all bytes that a reader has left to a reader of circuits, in pieces of at most 65536
/// bytes, and returns the circuit.
///
/// # Errors
///
/// `Device` if a read failed, and `NoMemory` if memory ran out: the reading ends there. Otherwise
/// the fault of the bytes, which are read to their end also after it. More than 2^64 - 2 pieces are
/// refused as `NoMemory`.
pub fn read_circuit<R: CountedRead, C: CircuitReader>(
    reader: &mut R,
    circuits: &mut C,
) -> Result<SpeltCircuit, ReadError>
    requires { C.holds circuits.old [] }
    ensures read { OnOk result (ReadsToEnd (R.input reader.old) (R.input reader.new)) }
    ensures circuit { IfOk result (Spells (R.input reader.old)) }
    ensures err { IfErr result (IsReadError (R.input reader.old) (R.input reader.new)) }
{
    let mut piece = [0u8; PIECE];
    for _ in 0..u64::MAX {
        let count = next_piece(reader, &mut piece)?;
        if count == 0 {
            let spelt = finished(circuits)?;
            return Ok(spelt);
        }
        match circuits.feed(&piece[..count]) {
            Ok(()) => {}
            Err(ReadError::NoMemory) => return Err(ReadError::NoMemory),
            Err(fault) => {
                drop_rest(reader)?;
                return Err(fault);
            }
        }
    }
    Err(ReadError::NoMemory)
}
