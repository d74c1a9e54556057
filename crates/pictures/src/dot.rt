ghost use Rattle.std.specs.Prelude.{ℕ, ◌≡◌, Bool, List, Option};
ghost use Rattle.counted_io.specs.Buffered.{Puts};
ghost use Rattle.counted_io.specs.Output.{Writes};
ghost use Rattle.pictures.specs.Looks.{IsViewOf};
ghost use Rattle.pictures.specs.Pictures.{dot_text, legend, picture};
ghost use Rattle.pictures.specs.Views.{drawn_in, look_in};

use crate::graph::put_graph;
use crate::look::View;
use crate::middle::put_centre;
use crate::names::put_names;
use crate::properties::put_properties;
use aig_graph::Circuit;
use counted_io::{Buffered, CountedWrite, WriteError};

const HEAD: &[u8] = b"digraph circuit {\nrankdir=LR;\nnode [shape=plaintext];\n";

/// Puts what the forms mean, as the caption of the picture.
fn put_legend<W: CountedWrite>(out: &mut Buffered<'_, W>)
    ensures { Puts W.output out.old out.new legend }
{
    out.put(
        b"labeljust=l;\nfontsize=10;\nlabel=\"dot: negated; dashed arrow: from a literal that isn't drawn\\l",
    );
    out.put(b"box: latch and its reset; dashed box: without one; double box: held\\l");
    out.put(b"circle: gate, by its literal; gray: no latch can move over it\\l");
    out.put(b"blue: latches move over it next; bold: holds a latch afterwards\\l");
    out.put(b"red: what was asked for, or what that reads\\l\";\n");
}

fn put_dot<W: CountedWrite>(out: &mut Buffered<'_, W>, circuit: &Circuit, view: &View)
    ensures { Puts W.output out.old out.new (dot_text (look_in view.now)
        (drawn_in view.now) view.now.centre circuit.now) }
{
    out.put(HEAD);
    put_legend(out);
    put_graph(out, view, circuit.aig());
    put_properties(out, view, circuit.props());
    put_centre(out, view);
    put_names(out, view, circuit);
    out.put(b"}\n");
}

/// Writes the picture of a circuit by its view.
///
/// Takes no memory, and calls the writer about once for each 8 KiB of text. Names are written as
/// text that shows them. A byte that is no printable ASCII is `\xNN`, but for the characters of a
/// name that is UTF-8 as a whole.
///
/// # Errors
///
/// `Device` if a write failed: a beginning of the text was written then, and the writer isn't
/// called again.
pub fn write_dot<W: CountedWrite>(
    circuit: &Circuit,
    view: &View,
    writer: &mut W,
) -> Result<(), WriteError>
    ensures { (held : List ℕ) (set : Option (List ℕ)) (shown : ℕ → Bool)
        (centre : Option (ℕ → Bool)) → IsViewOf circuit.now held set shown centre view.now
        → Writes (W.output writer.old) (W.output writer.new) result
        (picture circuit.now held set shown centre) }
{
    let mut out = Buffered::new(writer);
    put_dot(&mut out, circuit, view);
    out.flush()
}
