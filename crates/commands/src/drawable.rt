//! The check that a circuit can be drawn as asked: around a node with a name, or as a whole that
//! isn't too large.
ghost use Rattle.std.specs.Prelude.{◌≡◌, ◌<◌, ◌↔◌, IsTrue, None, Some, MatchResult};
ghost use Rattle.commands.specs.Drawings.{CanBeDrawn, IsRefusal};
ghost use Rattle.commands.specs.Drawings as wanted;

use aig_graph::Circuit;
use circuit_files::Failure;
use command_line::Drawing;
use pictures::has_node;

/// The most nodes in a picture of a whole circuit.
const MOST_NODES: u128 = 2000;

/// Counts the nodes of a picture of the whole circuit. In `u128` no sum of lengths overflows.
fn nodes(circuit: &Circuit) -> u128
    ensures { result ≡ wanted.nodes circuit.now }
{
    let props = circuit.props();
    circuit.aig().variables() as u128
        + props.outputs.len() as u128
        + props.bad.len() as u128
        + props.constraints.len() as u128
        + props.justice.len() as u128
        + props.fairness.len() as u128
}

/// Returns true if a picture of the whole circuit would have too many nodes.
fn is_too_large(circuit: &Circuit) -> bool
    ensures { IsTrue result ↔ 2000 < wanted.nodes circuit.now }
{
    nodes(circuit) > MOST_NODES
}

/// Checks that the circuit has the name, or that a picture gives it to one of its nodes.
fn check_name<'a>(circuit: &Circuit, task: &Drawing<'a>, name: &'a str) -> Result<(), Failure<'a>>
    ensures { MatchResult result (λ _. CanBeDrawn (Some name.entry) circuit.now)
        (IsRefusal (Some name.entry) circuit.now task.now.input) }
{
    if has_node(circuit, name.as_bytes()) {
        Ok(())
    } else {
        Err(Failure::NoSuchName(task.input.name(), name))
    }
}

/// Checks that the circuit doesn't have too many nodes.
fn check_size<'a>(circuit: &Circuit, task: &Drawing<'a>) -> Result<(), Failure<'a>>
    ensures { MatchResult result (λ _. CanBeDrawn None circuit.now)
        (IsRefusal None circuit.now task.now.input) }
{
    if is_too_large(circuit) {
        Err(Failure::TooManyNodes(task.input.name()))
    } else {
        Ok(())
    }
}

/// Checks that the circuit can be drawn as the task asks.
pub(crate) fn check_drawable<'a>(circuit: &Circuit, task: &Drawing<'a>) -> Result<(), Failure<'a>>
    ensures { MatchResult result (λ _. CanBeDrawn task.now.around circuit.now)
        (IsRefusal task.now.around circuit.now task.now.input) }
{
    match task.around {
        Some(name) => check_name(circuit, task, name),
        None => check_size(circuit, task),
    }
}
