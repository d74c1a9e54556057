ghost use Rattle.std.specs.Prelude.{◌≡◌};
ghost use Rattle.counted_io.specs.Buffered.{Puts};
ghost use Rattle.counted_io.specs.Output.{Writes};
ghost use Rattle.reports.specs.Differences.{difference_text, place_text, shapes_text};

use counted_io::{Buffered, CountedWrite, WriteError};
use lane_sim::Place;

/// Puts the line of a place at which two circuits differ.
fn put_place<W: CountedWrite>(out: &mut Buffered<'_, W>, place: Place)
    ensures { Puts W.output out.old out.new (place_text place) }
{
    out.put(b"differ at sequence ");
    out.put_number(place.sequence as u64);
    out.put(b", step ");
    out.put_number(place.step as u64);
    out.put(b", place ");
    out.put_number(place.place as u64);
    out.put_byte(b'\n');
}

fn put_difference<W: CountedWrite>(out: &mut Buffered<'_, W>, found: Option<Place>)
    ensures { Puts W.output out.old out.new (difference_text found) }
{
    match found {
        Some(place) => put_place(out, place),
        None => out.put(b"same\n"),
    }
}

/// Prints the first place at which two circuits differ, or that there is none.
///
/// # Errors
///
/// `Device` if a write failed: a beginning of the text was written then, and the writer isn't
/// called again.
pub fn print_difference<W: CountedWrite>(
    found: Option<Place>,
    writer: &mut W,
) -> Result<(), WriteError>
    ensures { Writes (W.output writer.old) (W.output writer.new) result (difference_text found) }
{
    let mut out = Buffered::new(writer);
    put_difference(&mut out, found);
    out.flush()
}

/// Prints that two circuits can't be compared, since they differ in their numbers of inputs, free
/// latches or properties.
///
/// # Errors
///
/// `Device` if a write failed: a beginning of the text was written then, and the writer isn't
/// called again.
pub fn print_shapes_differ<W: CountedWrite>(writer: &mut W) -> Result<(), WriteError>
    ensures { Writes (W.output writer.old) (W.output writer.new) result shapes_text }
{
    let mut out = Buffered::new(writer);
    out.put(b"shapes differ\n");
    out.flush()
}
