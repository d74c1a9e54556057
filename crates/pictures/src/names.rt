//! Names come after all nodes: in DOT a later line of a node changes its label. So a name is put at
//! its turn in the circuit's list, and none is looked for.
ghost use Rattle.std.specs.Prelude.{◌≡◌, ◌+◌, ◌<◌, All};
ghost use Rattle.std.specs.List.{flat_map};
ghost use Rattle.aig_graph.specs.declared.literal.TheConstants.{MAX_VARIABLES};
ghost use Rattle.aig_graph.specs.Circuits.{IsNetlist};
ghost use Rattle.counted_io.specs.Buffered.{Puts};
ghost use Rattle.pictures.specs.Pictures.{all_names, is_drawn_at, is_single_drawn_at, justice_name, name_line, property_names, single_name, variable_name};
ghost use Rattle.pictures.specs.Views.{drawn_in, look_in};

use crate::label::put_label;
use crate::look::View;
use crate::node::{Node, put_node};
use crate::properties::are_drawn;
use aig_graph::{Circuit, Lit, MAX_VARIABLES, Props, Sequence, Symbol, Symbols};
use counted_io::{Buffered, CountedWrite};

fn put_name<W: CountedWrite>(out: &mut Buffered<'_, W>, node: Node, name: &[u8])
    ensures { Puts W.output out.old out.new (name_line node name.now) }
{
    put_node(out, node);
    out.put(b" [label=\"");
    put_label(out, name);
    out.put(b"\"];\n");
}

fn put_variable_name<W: CountedWrite>(
    out: &mut Buffered<'_, W>,
    view: &View,
    first: u32,
    symbol: &Symbol,
)
    requires { first + symbol.now.position < MAX_VARIABLES }
    ensures { Puts W.output out.old out.new (variable_name (look_in view.now)
        (drawn_in view.now) first symbol.now) }
{
    let var = first + symbol.position;
    if view.draws(var) {
        put_name(out, Node::Variable(var), symbol.name.as_slice());
    }
}

/// Puts the names of the inputs or latches that are drawn. The first of them has the variable
/// `first`.
fn put_variable_names<W: CountedWrite>(
    out: &mut Buffered<'_, W>,
    view: &View,
    first: u32,
    symbols: &[Symbol],
)
    requires { All (λ symbol. first + symbol.position < MAX_VARIABLES) symbols.now }
    ensures { Puts W.output out.old out.new (flat_map
        (variable_name (look_in view.now) (drawn_in view.now) first) symbols.now) }
{
    for symbol in symbols {
        put_variable_name(out, view, first, symbol);
    }
}

/// Returns true if the property of one literal at a position exists and is drawn.
fn is_single_drawn_at(view: &View, lits: &[Lit], position: u32) -> bool
    ensures { result ≡ is_single_drawn_at (look_in view.now) (drawn_in view.now) lits.now position }
{
    match lits.get(position as usize) {
        Some(lit) => view.draws(lit.var()),
        None => false,
    }
}

/// Returns true if the justice property at a position exists and is drawn.
fn is_drawn_at(view: &View, justice: &[Sequence<Lit>], position: u32) -> bool
    ensures { result ≡ is_drawn_at (look_in view.now) (drawn_in view.now) justice.now position }
{
    match justice.get(position as usize) {
        Some(lits) => are_drawn(view, lits.as_slice()),
        None => false,
    }
}

fn put_single_name<W: CountedWrite>(
    out: &mut Buffered<'_, W>,
    view: &View,
    letter: u8,
    lits: &[Lit],
    symbol: &Symbol,
)
    ensures { Puts W.output out.old out.new (single_name (look_in view.now)
        (drawn_in view.now) letter lits.now symbol.now) }
{
    if is_single_drawn_at(view, lits, symbol.position) {
        let node = Node::Property(letter, symbol.position as usize);
        put_name(out, node, symbol.name.as_slice());
    }
}

/// Puts the names of the properties of one literal each that are drawn.
fn put_single_names<W: CountedWrite>(
    out: &mut Buffered<'_, W>,
    view: &View,
    letter: u8,
    lits: &[Lit],
    symbols: &[Symbol],
)
    ensures { Puts W.output out.old out.new (flat_map
        (single_name (look_in view.now) (drawn_in view.now) letter lits.now) symbols.now) }
{
    for symbol in symbols {
        put_single_name(out, view, letter, lits, symbol);
    }
}

fn put_justice_name<W: CountedWrite>(
    out: &mut Buffered<'_, W>,
    view: &View,
    justice: &[Sequence<Lit>],
    symbol: &Symbol,
)
    ensures { Puts W.output out.old out.new (justice_name (look_in view.now)
        (drawn_in view.now) justice.now symbol.now) }
{
    if is_drawn_at(view, justice, symbol.position) {
        let node = Node::Property(b'j', symbol.position as usize);
        put_name(out, node, symbol.name.as_slice());
    }
}

/// Puts the names of the justice properties that are drawn.
fn put_justice_names<W: CountedWrite>(
    out: &mut Buffered<'_, W>,
    view: &View,
    justice: &[Sequence<Lit>],
    symbols: &[Symbol],
)
    ensures { Puts W.output out.old out.new (flat_map
        (justice_name (look_in view.now) (drawn_in view.now) justice.now) symbols.now) }
{
    for symbol in symbols {
        put_justice_name(out, view, justice, symbol);
    }
}

fn put_property_names<W: CountedWrite>(
    out: &mut Buffered<'_, W>,
    view: &View,
    props: &Props,
    symbols: &Symbols,
)
    ensures { Puts W.output out.old out.new (property_names (look_in view.now)
        (drawn_in view.now) props.now symbols.now) }
{
    put_single_names(
        out,
        view,
        b'o',
        props.outputs.as_slice(),
        symbols.outputs.as_slice(),
    );
    put_single_names(
        out,
        view,
        b'b',
        props.bad.as_slice(),
        symbols.bad.as_slice(),
    );
    put_single_names(
        out,
        view,
        b'c',
        props.constraints.as_slice(),
        symbols.constraints.as_slice(),
    );
    put_justice_names(
        out,
        view,
        props.justice.as_slice(),
        symbols.justice.as_slice(),
    );
    put_single_names(
        out,
        view,
        b'f',
        props.fairness.as_slice(),
        symbols.fairness.as_slice(),
    );
}

/// Puts the names of all that is drawn and has one.
pub(crate) fn put_names<W: CountedWrite>(out: &mut Buffered<'_, W>, view: &View, circuit: &Circuit)
    ensures { Puts W.output out.old out.new (all_names (look_in view.now)
        (drawn_in view.now) circuit.now) }
{
    let aig = circuit.aig();
    let symbols = circuit.symbols();
    put_variable_names(out, view, 1, symbols.inputs.as_slice());
    put_variable_names(out, view, aig.first_latch(), symbols.latches.as_slice());
    put_property_names(out, view, circuit.props(), symbols);
}
