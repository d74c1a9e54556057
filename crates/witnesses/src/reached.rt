//! The steps at which bad states are reached under one sequence. The circuit is simulated a step
//! after another, and of each the named bad states and the constraints alone are read.
ghost use Rattle.std.specs.Prelude.{ℕ, ◌≡◌, ◌<◌, ◌↔◌, false, All, IfOk, IsTrue, List, length, map, None};
ghost use Rattle.std.specs.List.{slice_index_or};
ghost use Rattle.aig_graph.specs.Graph.{Graph, variable};
ghost use Rattle.lane_sim.specs.declared.stimulus.InputSequence.{InputSequence as Sequenced};
ghost use Rattle.lane_sim.specs.Blocks.{in_lane};
ghost use Rattle.lane_sim.specs.Steps.{AreAt, AreFor, HoldsAt};
ghost use Rattle.lane_sim.specs.Traces.{value_in};
ghost use Rattle.witnesses.specs.Found.{AreFound, AreTrue, is_one_of, noted};
ghost use Rattle.witnesses.specs.declared.witness.Property.TheVariants.{Bad};

use crate::widths::bad_literals;
use crate::witness::Property;
use aig_graph::{Circuit, Lit, NoMemory};
use lane_sim::{InputSequence, State, Values};
use std::alloc::Global;

/// Returns true if each of these literals is 1.
fn are_true(values: &Values, literals: &[Lit]) -> bool
    requires { All (λ lit. variable lit < length values.now.table.items) literals.now }
    ensures { (g : Graph) (sequences : List Sequenced) (t : ℕ) → AreAt g sequences values.now t
        → (IsTrue result ↔ AreTrue (value_in g (in_lane sequences 0) t) literals.now) }
{
    for k in 0..literals.len() {
        if !values.get(0, literals[k]) {
            return false;
        }
    }
    true
}

/// Returns true if there is a bad state with this number, and it is 1.
fn is_one(values: &Values, bad: &[Lit], number: usize) -> bool
    requires { All (λ lit. variable lit < length values.now.table.items) bad.now }
    ensures { (g : Graph) (sequences : List Sequenced) (t : ℕ) → AreAt g sequences values.now t
        → result ≡ slice_index_or (map (value_in g (in_lane sequences 0) t) bad.now) number false }
{
    if number < bad.len() {
        return values.get(0, bad[number]);
    }
    false
}

/// Returns true if a property is a bad state that is 1.
fn is_one_of(values: &Values, bad: &[Lit], property: Property) -> bool
    requires { All (λ lit. variable lit < length values.now.table.items) bad.now }
    ensures { (g : Graph) (sequences : List Sequenced) (t : ℕ) → AreAt g sequences values.now t
        → result ≡ is_one_of (map (value_in g (in_lane sequences 0) t) bad.now) property }
{
    match property {
        Property::Bad(number) => is_one(values, bad, number),
        Property::Justice(_) => false,
    }
}

/// Returns the step if nothing was found before and the property is a bad state that is 1.
fn noted(
    found: Option<usize>,
    values: &Values,
    bad: &[Lit],
    property: Property,
    step: usize,
) -> Option<usize>
    requires { All (λ lit. variable lit < length values.now.table.items) bad.now }
    ensures { (g : Graph) (sequences : List Sequenced) (t : ℕ) → AreAt g sequences values.now t
        → result ≡ noted (map (value_in g (in_lane sequences 0) t) bad.now) step property found }
{
    match found {
        Some(found) => Some(found),
        None => {
            if is_one_of(values, bad, property) {
                Some(step)
            } else {
                None
            }
        }
    }
}

/// Notes the step for each property that is reached at it first.
fn note_step(
    found: &mut [Option<usize>],
    values: &Values,
    bad: &[Lit],
    properties: &[Property],
    step: usize,
)
    requires long { length found.old ≡ length properties.now }
    requires literals { All (λ lit. variable lit < length values.now.table.items) bad.now }
    ensures { (g : Graph) (sequences : List Sequenced) (t : ℕ) → AreAt g sequences values.now t
        → (i : ℕ) → i < length properties.now
        → slice_index_or found.new i None
        ≡ noted (map (value_in g (in_lane sequences 0) t) bad.now) step
        (slice_index_or properties.now i (Bad 0)) (slice_index_or found.old i None) }
{
    for i in 0..found.len() {
        found[i] = noted(found[i], values, bad, properties[i], step);
    }
}

/// Simulates the circuit under the one sequence, and notes the step at which each property is
/// reached first. After a step in which a constraint is 0 nothing is reached.
fn note_steps(
    circuit: &Circuit,
    sequences: &[InputSequence],
    properties: &[Property],
    state: &mut State,
    values: &mut Values,
    found: &mut [Option<usize>],
)
    requires one { length sequences.now ≡ 1 }
    requires long { length found.old ≡ length properties.now }
    requires state { HoldsAt circuit.now.aig sequences.now state.old 0 }
    requires values { AreFor circuit.now.aig values.old }
    requires none { (i : ℕ) → slice_index_or found.old i None ≡ None }
    ensures { AreFound circuit.now (in_lane sequences.now 0) properties.now found.new }
{
    circuit.known();
    let aig = circuit.aig();
    let props = circuit.props();
    for step in 0..sequences[0].steps.len() {
        values.evaluate(aig, state, sequences, step);
        if !are_true(values, props.constraints.as_slice()) {
            return;
        }
        note_step(found, values, bad_literals(props), properties, step);
        state.advance(aig, values);
    }
}

/// Returns for each property that is a bad state the first step of the one sequence at which it is
/// reached. It is 1 then, and each constraint has been 1 up to then. A circuit without bad states
/// has its outputs in their place.
pub(crate) fn first_steps(
    alloc: Global,
    circuit: &Circuit,
    sequences: &[InputSequence],
    properties: &[Property],
) -> Result<Vec<Option<usize>>, NoMemory>
    requires { length sequences.now ≡ 1 }
    ensures many { IfOk result (λ found. length found.items ≡ length properties.now) }
    ensures found { IfOk result (λ found. AreFound circuit.now (in_lane sequences.now 0)
        properties.now found.items) }
{
    let mut found = vec![in alloc; None; properties.len()]?;
    let mut values = Values::new(alloc, circuit.aig())?;
    let mut state = State::new(alloc, circuit.aig())?;
    state.open(circuit.aig(), sequences);
    note_steps(
        circuit,
        sequences,
        properties,
        &mut state,
        &mut values,
        found.as_mut_slice(),
    );
    Ok(found)
}
