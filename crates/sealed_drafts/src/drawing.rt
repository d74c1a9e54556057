//! The circuit of a draft, the map between the states of two circuits, and a circuit of which
//! nothing but its outputs matters.
ghost use Rattle.std.specs.Prelude.{◌≡◌, ◌≤◌, IfOk, length};
ghost use Rattle.aig_graph.specs.Circuits.{outputs_alone};
ghost use Rattle.aig_graph.specs.declared.literal.TheConstants.{MAX_VARIABLES};
ghost use Rattle.backward_circuits.specs.Drawn.{HasOtherLatches};
ghost use Rattle.sealed_drafts.specs.Sealed.{AreStanding};

use crate::names::latch_names;
use crate::props::sealed_props;
use crate::sealing::sealed_graph;
use crate::seals::{SealError, literal_below};
use aig_graph::{Circuit, Lit, Props, Sequence, Symbols};
use backward_circuits::names_of_map;
use backward_sets::{DraftLatch, Literal, Pair};
use std::alloc::Global;

/// Returns the circuit of a draft. It has the properties of the first circuit, and all names but
/// those of latches that went. `stands` has what replaces that circuit's latches and gates.
///
/// # Errors
///
/// `NoMemory` if memory is refused, `OutOfRange` if a literal isn't one of the circuit.
pub fn drawn_circuit(
    alloc: Global,
    circuit: &Circuit,
    latches: &[DraftLatch],
    gates: &[Pair],
    stands: &[Literal],
) -> Result<Circuit, SealError>
    ensures { IfOk result (HasOtherLatches circuit.now) }
{
    circuit.known();
    let inputs = circuit.aig().inputs();
    let aig = sealed_graph(alloc, inputs, latches, gates)?;
    aig.known();
    let props = sealed_props(alloc, circuit, stands, aig.variables())?;
    let names = latch_names(alloc, circuit.symbols().latches.as_slice(), latches)?;
    let symbols = circuit.symbols().with_latches(alloc, names)?;
    Ok(Circuit::new(aig, props, symbols))
}

/// Returns the literals, if their variables are before an end.
fn literals_below(alloc: Global, literals: &[Literal], end: usize) -> Result<Vec<Lit>, SealError>
    requires { end ≤ MAX_VARIABLES }
    ensures { IfOk result (λ lits. AreStanding (length literals.now) end lits.items) }
{
    let mut lits = Vec::with_capacity(alloc, literals.len())?;
    for literal in literals {
        lits.push(literal_below(*literal, end)?)?;
    }
    Ok(lits)
}

/// Returns properties that are outputs and constraints.
fn map_props(alloc: Global, outputs: Vec<Lit>, constraints: Vec<Lit>) -> Props
    ensures { result ≡ record (outputs_alone outputs.items) { constraints = constraints.items } }
{
    let mut props = Props::of_outputs(alloc, outputs);
    props.constraints = Sequence::from_vec(constraints);
    props
}

/// Returns a map of states: an input for each latch of `from`, an output for each latch of `to`,
/// and constraints.
///
/// # Errors
///
/// `NoMemory` if memory is refused, `OutOfRange` if a literal isn't one of the map, or there isn't
/// one for each latch.
pub fn drawn_map(
    alloc: Global,
    from: &Circuit,
    to: &Circuit,
    gates: &[Pair],
    outputs: &[Literal],
    constraints: &[Literal],
) -> Result<Circuit, SealError> {
    from.known();
    to.known();
    if outputs.len() != to.aig().latches().len() {
        return Err(SealError::OutOfRange);
    }
    let inputs = from.aig().latches().len() as u32;
    let aig = sealed_graph(alloc, inputs, &[], gates)?;
    aig.known();
    let literals = literals_below(alloc, outputs, aig.variables())?;
    let facts = literals_below(alloc, constraints, aig.variables())?;
    let symbols = names_of_map(
        alloc,
        from.symbols().latches.as_slice(),
        to.symbols().latches.as_slice(),
    )?;
    let props = map_props(alloc, literals, facts);
    Ok(Circuit::new(aig, props, symbols))
}

/// Returns a circuit without names, whose properties are outputs.
///
/// # Errors
///
/// `NoMemory` if memory is refused, `OutOfRange` if a literal isn't one of the circuit.
pub fn drawn_outputs(
    alloc: Global,
    inputs: u32,
    latches: &[DraftLatch],
    gates: &[Pair],
    outputs: &[Literal],
) -> Result<Circuit, SealError> {
    let aig = sealed_graph(alloc, inputs, latches, gates)?;
    aig.known();
    let literals = literals_below(alloc, outputs, aig.variables())?;
    let props = Props::of_outputs(alloc, literals);
    Ok(Circuit::new(aig, props, Symbols::none(alloc)))
}
