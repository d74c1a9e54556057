ghost use Rattle.counted_io.specs.Output.{Writes};
ghost use Rattle.aig_binary.specs.Spellings.{text_in};

use crate::binary_text::write_aig;
use aag_text::write_aag;
use aig_graph::Circuit;
use counted_io::{CountedWrite, WriteError};
use file_words::Spelling;

/// Writes the circuit's text in the spelling. Takes no memory, and calls the writer about once for
/// each 8 KiB of text.
///
/// # Errors
///
/// `Device` if a write failed: a beginning of the text was written then, and the writer isn't
/// called again.
pub fn write<W: CountedWrite>(
    circuit: &Circuit,
    spelling: Spelling,
    writer: &mut W,
) -> Result<(), WriteError>
    ensures { Writes (W.output writer.old) (W.output writer.new) result
        (text_in spelling circuit.now) }
{
    match spelling {
        Spelling::Ascii => write_aag(circuit, writer),
        Spelling::Binary => write_aig(circuit, writer),
    }
}
