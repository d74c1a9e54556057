//! Properties as nodes, since several may read one literal. A property is drawn if all of its
//! literals are. With some of its edges alone it would look like another property.
ghost use Rattle.std.specs.Prelude.{◌≡◌};
ghost use Rattle.std.specs.Str.{byte};
ghost use Rattle.counted_io.specs.Buffered.{Puts};
ghost use Rattle.counted_io.specs.Line.{numbered_lines};
ghost use Rattle.pictures.specs.Pictures.{all_properties, are_drawn, property_lines, single_lines};
ghost use Rattle.pictures.specs.Views.{drawn_in, look_in};

use crate::look::View;
use crate::node::{Node, put_edges, put_node};
use aig_graph::{Lit, Props, Sequence};
use counted_io::{Buffered, CountedWrite};

/// Returns true if the variables of all literals are drawn.
pub(crate) fn are_drawn(view: &View, lits: &[Lit]) -> bool
    ensures { result ≡ are_drawn (look_in view.now) (drawn_in view.now) lits.now }
{
    for lit in lits {
        if !view.draws(lit.var()) {
            return false;
        }
    }
    true
}

fn put_property<W: CountedWrite>(
    out: &mut Buffered<'_, W>,
    view: &View,
    letter: u8,
    position: usize,
    lits: &[Lit],
)
    ensures { Puts W.output out.old out.new (property_lines (look_in view.now)
        (drawn_in view.now) letter position lits.now) }
{
    if are_drawn(view, lits) {
        let node = Node::Property(letter, position);
        put_node(out, node);
        out.put(b" [shape=note];\n");
        put_edges(out, view, node, lits);
    }
}

/// Puts properties of one literal each.
fn put_singles<W: CountedWrite>(out: &mut Buffered<'_, W>, view: &View, letter: u8, lits: &[Lit])
    ensures { Puts W.output out.old out.new (single_lines (look_in view.now)
        (drawn_in view.now) letter lits.now) }
{
    for (position, lit) in lits.iter().enumerate() {
        put_property(out, view, letter, position, &[*lit]);
    }
}

/// Puts justice properties.
fn put_justice<W: CountedWrite>(out: &mut Buffered<'_, W>, view: &View, justice: &[Sequence<Lit>])
    ensures { Puts W.output out.old out.new (numbered_lines
        (property_lines (look_in view.now) (drawn_in view.now) (byte "j")) 0 justice.now) }
{
    for (position, lits) in justice.iter().enumerate() {
        put_property(out, view, b'j', position, lits.as_slice());
    }
}

/// Puts the properties that are drawn, each with the edges to it.
pub(crate) fn put_properties<W: CountedWrite>(out: &mut Buffered<'_, W>, view: &View, props: &Props)
    ensures { Puts W.output out.old out.new (all_properties (look_in view.now)
        (drawn_in view.now) props.now) }
{
    put_singles(out, view, b'o', props.outputs.as_slice());
    put_singles(out, view, b'b', props.bad.as_slice());
    put_singles(out, view, b'c', props.constraints.as_slice());
    put_justice(out, view, props.justice.as_slice());
    put_singles(out, view, b'f', props.fairness.as_slice());
}
