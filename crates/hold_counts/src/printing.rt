//! The line for people.
ghost use Rattle.std.specs.Prelude.{◌≡◌, ◌==◌, not};
ghost use Rattle.counted_io.specs.Buffered.{Puts};
ghost use Rattle.counted_io.specs.Output.{Writes};
ghost use Rattle.hold_counts.specs.Text.{holding_text, line_of, text_if};

use crate::Holding;
use counted_io::{Buffered, CountedWrite, WriteError};

/// Puts the line.
fn put_line<W: CountedWrite>(out: &mut Buffered<'_, W>, holding: &Holding)
    ensures { Puts W.output out.old out.new (line_of holding.now) }
{
    out.put(b"latches that hold ");
    out.put_number(holding.latches);
    out.put(b", classes of these ");
    out.put_number(holding.classes);
    out.put(b": try enables\n");
}

/// Puts the line if a register holds.
fn put_if<W: CountedWrite>(out: &mut Buffered<'_, W>, holds: bool, holding: &Holding)
    ensures { Puts W.output out.old out.new (text_if holds holding.now) }
{
    if holds {
        put_line(out, holding);
    }
}

/// Returns true if a register holds.
fn one_holds(holding: &Holding) -> bool
    ensures { result ≡ not (holding.now.latches == 0) }
{
    holding.latches != 0
}

/// Prints how many registers hold, and in how many classes, if one holds.
///
/// # Errors
///
/// `Device` if a write failed: a beginning of the text was written then, and the writer isn't
/// called again.
pub fn print_holding<W: CountedWrite>(holding: &Holding, writer: &mut W) -> Result<(), WriteError>
    ensures { Writes (W.output writer.old) (W.output writer.new) result
        (holding_text holding.now) }
{
    let mut out = Buffered::new(writer);
    put_if(&mut out, one_holds(holding), holding);
    out.flush()
}
