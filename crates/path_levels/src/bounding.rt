//! The circuit of which the gates past a bound are no longer passable. Networks, flows, judges and
//! certificates work on it as they are.
ghost use Rattle.std.specs.Prelude.{◌≡◌, ◌+◌, ◌≤◌, ◌++◌, ◌↔◌, IsTrue, All, IfOk, OnOk, MatchOption, false, length, map};
ghost use Rattle.std.specs.List.{enumerate_from, flat_map};
ghost use Rattle.aig_graph.specs.Marking.{mark_at};
ghost use Rattle.aig_graph.specs.declared.literal.TheConstants.{MAX_VARIABLES};
ghost use Rattle.aig_graph.specs.Graph.{first_gate};
ghost use Rattle.path_levels.specs.Bounded.{NoneBarred, bounded, gate_left, gates_left, graph_left, outputs_left, reads_barred, with_barred};

use crate::barring::barred_gates;
use aig_graph::{
    Aig, Circuit, Gate, Keep, Lit, NoMemory, Props, Symbols, mark_at, property_literals,
};
use std::alloc::Global;

/// Returns the gate, or if it is barred the one that reads the constant alone.
fn gate_left(barred: bool, gate: Gate) -> Gate
    ensures { result ≡ gate_left barred gate }
{
    if barred {
        Gate::of(Lit::FALSE, Lit::FALSE)
    } else {
        gate
    }
}

/// Returns what is left of each gate, by the marks of the barred ones.
fn gates_left(
    alloc: Global,
    barred: &[bool],
    first: u32,
    gates: &[Gate],
) -> Result<Vec<Gate>, NoMemory>
    requires { first + length gates.now ≤ MAX_VARIABLES }
    ensures { IfOk result (λ left. left.items
        ≡ map (λ e. gate_left (mark_at first barred.now e.0) e.1) (enumerate_from first gates.now)) }
{
    let mut left = Vec::with_capacity(alloc, gates.len())?;
    for (k, gate) in gates.iter().enumerate() {
        left.push(gate_left(mark_at(barred, first, first + k as u32), *gate))?;
    }
    Ok(left)
}

/// Puts what a gate reads at the end, if it is barred.
fn push_reads(outputs: &mut Vec<Lit>, barred: bool, gate: Gate) -> Result<(), NoMemory>
    ensures { OnOk result (outputs.new.items ≡ outputs.old.items ++ reads_barred barred gate) }
{
    if barred {
        outputs.push(gate.rhs0)?;
        outputs.push(gate.rhs1)?;
    }
    Ok(())
}

/// Puts what barred gates read at the end, by their marks.
fn push_barred(
    outputs: &mut Vec<Lit>,
    barred: &[bool],
    first: u32,
    gates: &[Gate],
) -> Result<(), NoMemory>
    requires { first + length gates.now ≤ MAX_VARIABLES }
    ensures { OnOk result (outputs.new.items ≡ outputs.old.items
        ++ flat_map (λ e. reads_barred (mark_at first barred.now e.0) e.1)
        (enumerate_from first gates.now)) }
{
    for (k, gate) in gates.iter().enumerate() {
        push_reads(outputs, mark_at(barred, first, first + k as u32), *gate)?;
    }
    Ok(())
}

fn outputs_left(alloc: Global, circuit: &Circuit, barred: &[bool]) -> Result<Vec<Lit>, NoMemory>
    ensures { IfOk result (λ outputs. outputs.items
        ≡ outputs_left (mark_at (first_gate circuit.now.aig) barred.now) circuit.now) }
{
    let aig = circuit.aig();
    let mut outputs = property_literals(alloc, circuit.props())?;
    push_barred(&mut outputs, barred, aig.first_gate(), aig.gates())?;
    Ok(outputs)
}

fn graph_left(alloc: Global, aig: &Aig, barred: &[bool]) -> Result<Aig, NoMemory>
    ensures { IfOk result (λ left. left
        ≡ graph_left (mark_at (first_gate aig.now) barred.now) aig.now) }
{
    let latches = Vec::from_slice(alloc, aig.latches())?;
    let gates = gates_left(alloc, barred, aig.first_gate(), aig.gates())?;
    Ok(Aig::from_parts(aig.inputs(), latches, gates))
}

/// Returns the circuit in which the marked gates are barred.
fn with_barred(alloc: Global, circuit: &Circuit, barred: &[bool]) -> Result<Circuit, NoMemory>
    ensures { IfOk result (λ left. left
        ≡ with_barred (mark_at (first_gate circuit.now.aig) barred.now) circuit.now) }
{
    circuit.known();
    let outputs = outputs_left(alloc, circuit, barred)?;
    let aig = graph_left(alloc, circuit.aig(), barred)?;
    let props = Props::of_outputs(alloc, outputs);
    Ok(Circuit::new(aig, props, Symbols::none(alloc)))
}

/// Makes the gates that arrive past the bound no longer passable. The closed sets of the result are
/// those of the circuit whose gates arrive within the bound, with their borders
/// ([`bounded_law`](crate::bounded_law)). Linear in the circuit, but for a search among the held
/// latches. It has no names, and outputs in the place of all properties.
///
/// # Errors
///
/// Memory is refused.
pub fn bounded(
    alloc: Global,
    circuit: &Circuit,
    keep: &Keep,
    bound: u32,
) -> Result<Circuit, NoMemory>
    ensures { IfOk result (λ it. it ≡ bounded bound keep.now circuit.now) }
{
    let barred = barred_gates(alloc, circuit.aig(), keep, bound)?;
    with_barred(alloc, circuit, barred.as_slice())
}

/// Returns true if no mark is set.
fn is_unmarked(marks: &[bool]) -> bool
    ensures { IsTrue result ↔ All (λ mark. mark ≡ false) marks.now }
{
    marks.iter().all(|mark| !*mark)
}

/// Returns [`bounded`] of a circuit, or `None` if no passable gate arrives past the bound. The
/// circuit then serves as it is, and nothing is copied.
///
/// # Errors
///
/// Memory is refused.
pub fn bounded_if_barred(
    alloc: Global,
    circuit: &Circuit,
    keep: &Keep,
    bound: u32,
) -> Result<Option<Circuit>, NoMemory>
    ensures { IfOk result (λ it. MatchOption it (NoneBarred bound circuit.now.aig keep.now)
        (λ left. left ≡ bounded bound keep.now circuit.now)) }
{
    let barred = barred_gates(alloc, circuit.aig(), keep, bound)?;
    if is_unmarked(barred.as_slice()) {
        return Ok(None);
    }
    Ok(Some(with_barred(alloc, circuit, barred.as_slice())?))
}
