//! What a name names.
ghost use Rattle.std.specs.Prelude.{◌≡◌, ◌+◌, ◌<◌, ◌==◌, ◌||◌, ◌&&◌, All, bytes_eq};
ghost use Rattle.std.specs.List.{list_any};
ghost use Rattle.aig_graph.specs.declared.literal.TheConstants.{MAX_VARIABLES};
ghost use Rattle.aig_graph.specs.Border.{reads};
ghost use Rattle.aig_graph.specs.Keep.{has_name};
ghost use Rattle.pictures.specs.Near.{is_name_of, is_named, is_property_name, is_property_named, names_justice, names_single, names_variable};
ghost use Rattle.pictures.specs.Places.{is_justice_read, is_single_read};
ghost use Rattle.aig_graph.specs.Marking.{Marks};

use aig_graph::{Circuit, Lit, MAX_VARIABLES, Props, Sequence, Symbol, Symbols, mark_variable};

fn is_called(symbol: &Symbol, name: &[u8]) -> bool
    ensures { result ≡ bytes_eq symbol.now.name name.now }
{
    symbol.name.as_slice() == name
}

fn is_among(symbols: &[Symbol], name: &[u8]) -> bool
    ensures { result ≡ has_name symbols.now name.now }
{
    for symbol in symbols {
        if name == symbol.name.as_slice() {
            return true;
        }
    }
    false
}

/// Returns true if an input, a latch or a property of the circuit has the name.
#[tactic(auto, unfolding(crate::specs::Near::is_name_of))]
pub(crate) fn has_name(circuit: &Circuit, name: &[u8]) -> bool
    ensures { result ≡ is_name_of circuit.now.symbols name.now }
{
    let symbols = circuit.symbols();
    is_among(symbols.inputs.as_slice(), name)
        || is_among(symbols.latches.as_slice(), name)
        || is_property_name(symbols, name)
}

#[tactic(auto, unfolding(crate::specs::Near::is_property_name))]
fn is_property_name(symbols: &Symbols, name: &[u8]) -> bool
    ensures { result ≡ is_property_name symbols.now name.now }
{
    is_among(symbols.outputs.as_slice(), name)
        || is_among(symbols.bad.as_slice(), name)
        || is_among(symbols.constraints.as_slice(), name)
        || is_among(symbols.justice.as_slice(), name)
        || is_among(symbols.fairness.as_slice(), name)
}

/// Marks a variable if `holds` is true.
pub(crate) fn mark_where(marks: &mut [bool], holds: bool, var: u32)
    ensures { Marks 0 marks.old marks.new (λ v. holds && (var == v)) }
{
    if holds {
        mark_variable(marks, 0, var);
    }
}

#[tactic(auto, unfolding(crate::specs::Near::names_variable))]
fn mark_variable_named(marks: &mut [bool], first: u32, symbol: &Symbol, name: &[u8])
    requires { first + symbol.now.position < MAX_VARIABLES }
    ensures { Marks 0 marks.old marks.new (λ v. names_variable first name.now v symbol.now) }
{
    mark_where(marks, is_called(symbol, name), first + symbol.position);
}

/// Marks the inputs or latches with the name, of which the first has the variable `first`.
fn mark_variables_named(marks: &mut [bool], first: u32, symbols: &[Symbol], name: &[u8])
    requires { All (λ symbol. first + symbol.position < MAX_VARIABLES) symbols.now }
    ensures { Marks 0 marks.old marks.new (λ v. list_any
        (names_variable first name.now v) symbols.now) }
{
    for symbol in symbols {
        mark_variable_named(marks, first, symbol, name);
    }
}

/// Marks the variable of the literal at a position, if there is one.
pub(crate) fn mark_single(marks: &mut [bool], lits: &[Lit], position: usize)
    ensures { Marks 0 marks.old marks.new (λ v. is_single_read lits.now position v) }
{
    if let Some(lit) = lits.get(position) {
        mark_variable(marks, 0, lit.var());
    }
}

#[tactic(auto, unfolding(crate::specs::Near::names_single))]
fn mark_single_named(marks: &mut [bool], lits: &[Lit], symbol: &Symbol, name: &[u8])
    ensures { Marks 0 marks.old marks.new (λ v. names_single lits.now name.now v symbol.now) }
{
    if is_called(symbol, name) {
        mark_single(marks, lits, symbol.position as usize);
    }
}

/// Marks what the properties of one literal each with the name read.
fn mark_singles_named(marks: &mut [bool], lits: &[Lit], symbols: &[Symbol], name: &[u8])
    ensures { Marks 0 marks.old marks.new (λ v. list_any
        (names_single lits.now name.now v) symbols.now) }
{
    for symbol in symbols {
        mark_single_named(marks, lits, symbol, name);
    }
}

fn mark_literals(marks: &mut [bool], lits: &[Lit])
    ensures { Marks 0 marks.old marks.new (λ v. list_any (reads v) lits.now) }
{
    for lit in lits {
        mark_variable(marks, 0, lit.var());
    }
}

/// Marks the variables of the literals at a position, if there are some.
pub(crate) fn mark_justice(marks: &mut [bool], justice: &[Sequence<Lit>], position: usize)
    ensures { Marks 0 marks.old marks.new (λ v. is_justice_read justice.now position v) }
{
    if let Some(lits) = justice.get(position) {
        mark_literals(marks, lits.as_slice());
    }
}

#[tactic(auto, unfolding(crate::specs::Near::names_justice))]
fn mark_justice_property(
    marks: &mut [bool],
    justice: &[Sequence<Lit>],
    symbol: &Symbol,
    name: &[u8],
)
    ensures { Marks 0 marks.old marks.new (λ v. names_justice justice.now name.now v symbol.now) }
{
    if is_called(symbol, name) {
        mark_justice(marks, justice, symbol.position as usize);
    }
}

/// Marks what the justice properties with the name read.
fn mark_justice_named(
    marks: &mut [bool],
    justice: &[Sequence<Lit>],
    symbols: &[Symbol],
    name: &[u8],
)
    ensures { Marks 0 marks.old marks.new (λ v. list_any
        (names_justice justice.now name.now v) symbols.now) }
{
    for symbol in symbols {
        mark_justice_property(marks, justice, symbol, name);
    }
}

#[tactic(auto, unfolding(crate::specs::Near::is_property_named))]
fn mark_properties_named(marks: &mut [bool], props: &Props, symbols: &Symbols, name: &[u8])
    ensures { Marks 0 marks.old marks.new (is_property_named props.now symbols.now name.now) }
{
    mark_singles_named(
        marks,
        props.outputs.as_slice(),
        symbols.outputs.as_slice(),
        name,
    );
    mark_singles_named(marks, props.bad.as_slice(), symbols.bad.as_slice(), name);
    mark_singles_named(
        marks,
        props.constraints.as_slice(),
        symbols.constraints.as_slice(),
        name,
    );
    mark_justice_named(
        marks,
        props.justice.as_slice(),
        symbols.justice.as_slice(),
        name,
    );
    mark_singles_named(
        marks,
        props.fairness.as_slice(),
        symbols.fairness.as_slice(),
        name,
    );
}

/// Marks what has the name, and what the properties with it read.
pub(crate) fn mark_named(marks: &mut [bool], circuit: &Circuit, name: &[u8])
    ensures { Marks 0 marks.old marks.new (is_named circuit.now name.now) }
{
    let aig = circuit.aig();
    let symbols = circuit.symbols();
    mark_variables_named(marks, 1, symbols.inputs.as_slice(), name);
    mark_variables_named(marks, aig.first_latch(), symbols.latches.as_slice(), name);
    mark_properties_named(marks, circuit.props(), symbols, name);
}
