//! A step of a circuit from the state that literals hold.
ghost use Rattle.std.specs.Prelude.{◌≡◌, ◌<◌, ◌++◌, All, IfOk, OnOk, length, map};
ghost use Rattle.std.specs.List.{flat_map};
ghost use Rattle.aig_graph.specs.Circuits.{AreLiteralsOf};
ghost use Rattle.aig_graph.specs.Graph.{IsGraph, variable, variables_end};
ghost use Rattle.aig_graph.specs.Streams.{property_literals};
ghost use Rattle.map_circuits.specs.Growing.{Extends};
ghost use Rattle.map_circuits.specs.Instances.{substitute};
ghost use Rattle.map_miters.specs.Holding.{Held, HoldAs, IsStep};

use crate::errors::MiterError;
use crate::images::{add_over, substitutes_of};
use aig_graph::{AigBuilder, Circuit, Latch, Lit, NoMemory, property_literals};
use map_circuits::Instance;
use std::alloc::Global;
use witness_circuits::push_nexts;

/// What the latches hold after a step, and what the properties are in it.
#[derive(Drop)]
pub struct Step {
    pub nexts: Vec<Lit>,
    pub props: Vec<Lit>,
}

/// Returns the literals that stand for the next literals of latches.
fn nexts_of(alloc: Global, part: &Instance, latches: &[Latch]) -> Result<Vec<Lit>, NoMemory>
    requires { All (λ latch. variable latch.next < length part.now) latches.now }
    ensures { IfOk result (λ nexts. nexts.items
        ≡ map (λ latch. substitute part.now latch.next) latches.now) }
{
    let mut nexts = Vec::new(alloc);
    push_nexts(&mut nexts, part, latches)?;
    Ok(nexts)
}

/// Returns the literals that stand for those of the properties.
fn props_of(alloc: Global, part: &Instance, circuit: &Circuit) -> Result<Vec<Lit>, NoMemory>
    requires { length part.now ≡ variables_end circuit.now.aig }
    ensures { IfOk result (λ found. found.items
        ≡ map (substitute part.now) (property_literals circuit.now.props)) }
{
    circuit.known();
    let literals = property_literals(alloc, circuit.props())?;
    substitutes_of(alloc, part, literals.as_slice())
}

/// Adds a step of a circuit whose inputs and latches are these literals.
///
/// # Errors
///
/// `NoMemory` if memory is refused, `TooLarge` if the graph has as many variables as it may. Some
/// gates may then have been added.
pub fn add_step(
    alloc: Global,
    gates: &mut AigBuilder,
    circuit: &Circuit,
    inputs: &[Lit],
    state: &[Lit],
) -> Result<Step, MiterError>
    requires graph { IsGraph gates.old }
    requires wide { length inputs.now ≡ circuit.now.aig.inputs }
    requires long { length state.now ≡ length circuit.now.aig.latches }
    requires inputs { AreLiteralsOf gates.old inputs.now }
    requires state { AreLiteralsOf gates.old state.now }
    ensures extends { OnOk result (Extends gates.old gates.new) }
    ensures step { IfOk result (λ step. (x s : Held) → HoldAs gates.old inputs.now x
        → HoldAs gates.old state.now s → IsStep gates.new circuit.now x s step) }
{
    circuit.known();
    let part = add_over(alloc, gates, circuit.aig(), inputs, state)?;
    let nexts = nexts_of(alloc, &part, circuit.aig().latches())?;
    let props = props_of(alloc, &part, circuit)?;
    Ok(Step { nexts, props })
}
