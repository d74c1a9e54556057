ghost use Rattle.std.specs.Prelude.{◌≡◌};
ghost use Rattle.counted_io.specs.Buffered.{Puts};
ghost use Rattle.counted_io.specs.Output.{Writes};
ghost use Rattle.file_words.specs.Text.{text};

use crate::counts::put_header;
use crate::graph::{put_gates, put_inputs, put_latches};
use crate::properties::put_properties;
use crate::symbols::put_symbols;
use aig_graph::Circuit;
use counted_io::{Buffered, CountedWrite, WriteError};

/// Puts the whole text, section by section.
fn put_text<W: CountedWrite>(out: &mut Buffered<'_, W>, circuit: &Circuit)
    ensures { Puts W.output out.old out.new (text circuit.now) }
{
    let aig = circuit.aig();
    let first_latch = 1 + u64::from(aig.inputs());
    let first_gate = first_latch + aig.latches().len() as u64;
    put_header(out, circuit);
    put_inputs(out, aig.inputs());
    put_latches(out, first_latch, aig.latches());
    put_properties(out, circuit.props());
    put_gates(out, first_gate, aig.gates());
    put_symbols(out, circuit.symbols());
}

/// Writes the circuit's ASCII text.
///
/// Takes no memory, and calls the writer about once for each 8 KiB of text.
///
/// # Errors
///
/// `Device` if a write failed: a beginning of the text was written then, and the writer isn't
/// called again.
pub fn write_aag<W: CountedWrite>(circuit: &Circuit, writer: &mut W) -> Result<(), WriteError>
    ensures { Writes (W.output writer.old) (W.output writer.new) result (text circuit.now) }
{
    let mut out = Buffered::new(writer);
    put_text(&mut out, circuit);
    out.flush()
}
