//! Inputs, latches and gates, each with the edges that lead to it. So every edge is put once, by
//! the node that reads, and no list of edges is made.
ghost use Rattle.std.specs.Prelude.{◌≡◌, ◌+◌, ◌-◌, ◌≤◌, ◌<◌, ◌++◌, [], ◌∷◌, length};
ghost use Rattle.std.specs.List.{flat_map, range_with_len};
ghost use Rattle.aig_graph.specs.declared.literal.TheConstants.{MAX_VARIABLES};
ghost use Rattle.counted_io.specs.Buffered.{Puts};
ghost use Rattle.counted_io.specs.Line.{numbered_lines};
ghost use Rattle.pictures.specs.Nodes.{edges, gate_line, latch_line, reset_mark};
ghost use Rattle.pictures.specs.Pictures.{gate_lines, graph_lines, input_lines, latch_lines};
ghost use Rattle.pictures.specs.Views.{drawn_in, look_in};
ghost use Rattle.pictures.specs.declared.node.Node.TheVariants.{Variable};

use crate::look::{Look, View};
use crate::node::{Node, put_edges, put_if, put_node};
use aig_graph::{Aig, Gate, Latch, MAX_VARIABLES, Reset};
use counted_io::{Buffered, CountedWrite};

fn put_drawn_input<W: CountedWrite>(out: &mut Buffered<'_, W>, view: &View, var: u32)
    ensures { Puts W.output out.old out.new (input_lines (look_in view.now)
        (drawn_in view.now) var) }
{
    if view.draws(var) {
        put_node(out, Node::Variable(var));
        out.put(b" [shape=cds,label=i");
        out.put_number(u64::from(var.saturating_sub(1)));
        out.put(b"];\n");
    }
}

/// Puts the inputs that are drawn. A header alone may announce 2^28 of them, so it ends at a write
/// that failed.
fn put_inputs<W: CountedWrite>(out: &mut Buffered<'_, W>, view: &View, inputs: u32)
    requires { inputs < MAX_VARIABLES }
    ensures { Puts W.output out.old out.new (flat_map
        (input_lines (look_in view.now) (drawn_in view.now)) (range_with_len 1 inputs)) }
{
    for input in 0..inputs {
        if out.has_failed() {
            return;
        }
        put_drawn_input(out, view, 1 + input);
    }
}

fn reset_mark(reset: Reset) -> &'static [u8]
    ensures { result.now ≡ reset_mark reset }
{
    match reset {
        Reset::Zero => b",xlabel=0",
        Reset::One => b",xlabel=1",
        Reset::Free => b",style=dashed",
    }
}

fn put_latch<W: CountedWrite>(
    out: &mut Buffered<'_, W>,
    first: u32,
    look: Look,
    var: u32,
    latch: Latch,
)
    requires { first ≤ var }
    ensures { Puts W.output out.old out.new (latch_line first look var latch) }
{
    put_node(out, Node::Variable(var));
    out.put(b" [shape=box,label=l");
    out.put_number(u64::from(var - first));
    out.put(reset_mark(latch.reset));
    put_if(out, look.held, b",peripheries=2");
    put_if(out, look.border, b",penwidth=3");
    out.put(b"];\n");
}

fn put_drawn_latch<W: CountedWrite>(
    out: &mut Buffered<'_, W>,
    view: &View,
    first: u32,
    var: u32,
    latch: Latch,
)
    requires { first ≤ var }
    ensures { Puts W.output out.old out.new (latch_lines (look_in view.now)
        (drawn_in view.now) first var latch) }
{
    let next = [latch.next];
    if view.draws(var) {
        put_latch(out, first, view.look(var), var, latch);
        put_edges(out, view, Node::Variable(var), &next);
    }
}

/// Puts the latches that are drawn, of which the first has the variable `first`.
fn put_latches<W: CountedWrite>(
    out: &mut Buffered<'_, W>,
    view: &View,
    first: u32,
    latches: &[Latch],
)
    requires { first + length latches.now ≤ MAX_VARIABLES }
    ensures { Puts W.output out.old out.new (numbered_lines
        (latch_lines (look_in view.now) (drawn_in view.now) first) first latches.now) }
{
    for (k, latch) in latches.iter().enumerate() {
        put_drawn_latch(out, view, first, first + k as u32, *latch);
    }
}

fn put_gate<W: CountedWrite>(out: &mut Buffered<'_, W>, look: Look, var: u32)
    ensures { Puts W.output out.old out.new (gate_line look var) }
{
    put_node(out, Node::Variable(var));
    out.put(b" [shape=circle");
    put_if(out, look.fixed, b",color=gray,fontcolor=gray");
    put_if(out, look.inside, b",style=filled,fillcolor=lightblue");
    put_if(out, look.border, b",penwidth=3");
    out.put(b"];\n");
}

fn put_drawn_gate<W: CountedWrite>(out: &mut Buffered<'_, W>, view: &View, var: u32, gate: Gate)
    ensures { Puts W.output out.old out.new (gate_lines (look_in view.now)
        (drawn_in view.now) var gate) }
{
    if view.draws(var) {
        put_gate(out, view.look(var), var);
        put_edges(out, view, Node::Variable(var), &[gate.rhs0, gate.rhs1]);
    }
}

/// Puts the gates that are drawn, of which the first has the variable `first`.
fn put_gates<W: CountedWrite>(out: &mut Buffered<'_, W>, view: &View, first: u32, gates: &[Gate])
    requires { first + length gates.now ≤ MAX_VARIABLES }
    ensures { Puts W.output out.old out.new (numbered_lines
        (gate_lines (look_in view.now) (drawn_in view.now)) first gates.now) }
{
    for (k, gate) in gates.iter().enumerate() {
        put_drawn_gate(out, view, first + k as u32, *gate);
    }
}

/// Puts the inputs, latches and gates that are drawn, each with the edges to it.
pub(crate) fn put_graph<W: CountedWrite>(out: &mut Buffered<'_, W>, view: &View, aig: &Aig)
    ensures { Puts W.output out.old out.new (graph_lines (look_in view.now)
        (drawn_in view.now) aig.now) }
{
    put_inputs(out, view, aig.inputs());
    put_latches(out, view, aig.first_latch(), aig.latches());
    put_gates(out, view, aig.first_gate(), aig.gates());
}
