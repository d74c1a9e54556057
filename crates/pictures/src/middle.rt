//! What is in the middle of a neighbourhood has a red line.
ghost use Rattle.std.specs.Prelude.{◌<◌, ◌*◌, ◌^◌};
ghost use Rattle.counted_io.specs.Buffered.{Puts};
ghost use Rattle.counted_io.specs.Line.{numbered_lines};
ghost use Rattle.pictures.specs.Pictures.{centre_line, centre_lines};

use crate::look::View;
use counted_io::{Buffered, CountedWrite};

fn put_line<W: CountedWrite>(out: &mut Buffered<'_, W>, var: usize, is_centre: bool)
    requires { 2 * var < 2 ^ 64 }
    ensures { Puts W.output out.old out.new (centre_line var is_centre) }
{
    if is_centre {
        out.put_number(2 * var as u64);
        out.put(b" [color=red];\n");
    }
}

/// Puts the lines of the variables with a mark.
fn put_marked<W: CountedWrite>(out: &mut Buffered<'_, W>, marks: &[bool])
    ensures { Puts W.output out.old out.new (numbered_lines centre_line 0 marks.now) }
{
    for (k, is_centre) in marks.iter().enumerate() {
        put_line(out, k, *is_centre);
    }
}

/// Puts what is in the middle, if anything is.
pub(crate) fn put_centre<W: CountedWrite>(out: &mut Buffered<'_, W>, view: &View)
    ensures { Puts W.output out.old out.new (centre_lines view.now.centre) }
{
    if let Some(marks) = view.centre() {
        put_marked(out, marks);
    }
}
