//! The binary form of the AIGER 1.9 note, section by section.
ghost use Rattle.counted_io.specs.Buffered.{Puts};
ghost use Rattle.counted_io.specs.Output.{Writes};
ghost use Rattle.aig_binary.specs.Text.{text_binary};

mod gates;
mod latches;

use crate::binary_text::gates::put_gates;
use crate::binary_text::latches::put_latches;
use aag_text::{put_counts, put_properties, put_symbols};
use aig_graph::Circuit;
use counted_io::{Buffered, CountedWrite, WriteError};

/// Puts the whole text, section by section.
fn put_text<W: CountedWrite>(out: &mut Buffered<'_, W>, circuit: &Circuit)
    ensures { Puts W.output out.old out.new (text_binary circuit.now) }
{
    let aig = circuit.aig();
    out.put(b"aig ");
    put_counts(out, circuit);
    put_latches(out, u64::from(aig.first_latch()), aig.latches());
    put_properties(out, circuit.props());
    put_gates(out, aig.first_gate(), aig.gates());
    put_symbols(out, circuit.symbols());
}

/// Writes the circuit's binary text. Each delta has as few bytes as can be.
///
/// Takes no memory, and calls the writer about once for each 8 KiB of text.
///
/// # Errors
///
/// `Device` if a write failed: a beginning of the text was written then, and the writer isn't
/// called again.
pub fn write_aig<W: CountedWrite>(circuit: &Circuit, writer: &mut W) -> Result<(), WriteError>
    ensures { Writes (W.output writer.old) (W.output writer.new) result (text_binary circuit.now) }
{
    let mut out = Buffered::new(writer);
    put_text(&mut out, circuit);
    out.flush()
}
