ghost use Rattle.std.specs.Prelude.{◌≡◌, ◌==◌, ◌%◌, codes};
ghost use Rattle.counted_io.specs.Buffered.{Puts};
ghost use Rattle.pictures.specs.Nodes.{edge_line, edges, node_name, only_if};
ghost use Rattle.pictures.specs.Views.{drawn_in};

use crate::look::View;
use aig_graph::Lit;
use counted_io::{Buffered, CountedWrite};

/// A node of a picture.
#[derive(Clone, Copy)]
pub(crate) enum Node {
    /// The constant, an input, a latch or a gate.
    Variable(u32),
    /// A property, by the letter of its kind and its position, from 0, among those of its kind.
    Property(u8, usize),
}

/// Puts a text if `holds` is true.
pub(crate) fn put_if<W: CountedWrite>(out: &mut Buffered<'_, W>, holds: bool, text: &[u8])
    ensures { Puts W.output out.old out.new (only_if holds text.now) }
{
    if holds {
        out.put(text);
    }
}

/// Puts a node's name.
pub(crate) fn put_node<W: CountedWrite>(out: &mut Buffered<'_, W>, node: Node)
    ensures { Puts W.output out.old out.new (node_name node) }
{
    match node {
        Node::Variable(var) => out.put_number(2 * u64::from(var)),
        Node::Property(letter, position) => {
            out.put_byte(letter);
            out.put_number(position as u64);
        }
    }
}

/// Puts an edge, also from a variable that isn't drawn: it shows that something is read there.
fn put_edge<W: CountedWrite>(out: &mut Buffered<'_, W>, view: &View, to: Node, lit: Lit)
    ensures { Puts W.output out.old out.new (edge_line (drawn_in view.now) to lit) }
{
    let from = lit.var();
    put_node(out, Node::Variable(from));
    out.put(b" -> ");
    put_node(out, to);
    put_if(out, lit.is_negated(), b" [arrowhead=odot]");
    put_if(out, !view.draws(from), b" [style=dashed]");
    out.put(b";\n");
}

/// Puts the edges to a node from all of the literals.
pub(crate) fn put_edges<W: CountedWrite>(
    out: &mut Buffered<'_, W>,
    view: &View,
    to: Node,
    lits: &[Lit],
)
    ensures { Puts W.output out.old out.new (edges (drawn_in view.now) to lits.now) }
{
    for lit in lits {
        put_edge(out, view, to, *lit);
    }
}
