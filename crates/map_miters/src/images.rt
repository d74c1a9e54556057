//! Circuits once more among the gates of a larger graph, over literals that hold a state.
ghost use Rattle.std.specs.Prelude.{◌≡◌, ◌<◌, [], IfOk, OnOk, All, length, map};
ghost use Rattle.aig_graph.specs.Circuits.{AreLiteralsOf};
ghost use Rattle.aig_graph.specs.Graph.{IsGraph, variable, variables_end};
ghost use Rattle.aig_graph.specs.Value.{value_within};
ghost use Rattle.map_circuits.specs.Growing.{Extends};
ghost use Rattle.map_circuits.specs.Instances.{substitute};
ghost use Rattle.witness_circuits.specs.Parts.{IsView};
ghost use Rattle.map_miters.specs.Holding.{Held, HoldAs, IsImage};

use crate::errors::MiterError;
use aig_graph::{Aig, AigBuilder, Circuit, Lit, NoMemory};
use map_circuits::{Instance, add_conjunction_of, add_instance};
use std::alloc::Global;
use witness_circuits::{leaves, push_substitutes};

/// What a map gives for a state.
#[derive(Drop)]
pub struct Image {
    /// Whether its constraints are 1.
    pub kept: Lit,
    /// What its outputs are.
    pub outputs: Vec<Lit>,
}

/// Adds the gates of a graph whose inputs and latches are these literals.
pub(crate) fn add_over(
    alloc: Global,
    gates: &mut AigBuilder,
    aig: &Aig,
    inputs: &[Lit],
    latches: &[Lit],
) -> Result<Instance, MiterError>
    requires graph { IsGraph gates.old }
    requires wide { length inputs.now ≡ aig.now.inputs }
    requires long { length latches.now ≡ length aig.now.latches }
    requires inputs { AreLiteralsOf gates.old inputs.now }
    requires latches { AreLiteralsOf gates.old latches.now }
    ensures extends { OnOk result (Extends gates.old gates.new) }
    ensures many { IfOk result (λ part. length part ≡ variables_end aig.now) }
    ensures view { IfOk result (λ part. (x s : Held) → HoldAs gates.old inputs.now x
        → HoldAs gates.old latches.now s
        → IsView gates.new aig.now (λ z u. value_within aig.now (x z u) (s z u)) part) }
{
    aig.known();
    let leaves = leaves(alloc, inputs, latches)?;
    let part = add_instance(gates, aig, leaves)?;
    Ok(part)
}

/// Returns the literals that stand for these.
pub(crate) fn substitutes_of(
    alloc: Global,
    part: &Instance,
    lits: &[Lit],
) -> Result<Vec<Lit>, NoMemory>
    requires { All (λ lit. variable lit < length part.now) lits.now }
    ensures { IfOk result (λ found. found.items ≡ map (substitute part.now) lits.now) }
{
    let mut found = Vec::new(alloc);
    push_substitutes(&mut found, part, lits)?;
    Ok(found)
}

/// Adds what a map gives for the state that these literals hold.
///
/// # Errors
///
/// `NoMemory` if memory is refused, `TooLarge` if the graph has as many variables as it may. Some
/// gates may then have been added.
pub fn add_image(
    alloc: Global,
    gates: &mut AigBuilder,
    map: &Circuit,
    state: &[Lit],
) -> Result<Image, MiterError>
    requires graph { IsGraph gates.old }
    requires wide { length state.now ≡ map.now.aig.inputs }
    requires latches { map.now.aig.latches ≡ [] }
    requires state { AreLiteralsOf gates.old state.now }
    ensures extends { OnOk result (Extends gates.old gates.new) }
    ensures image { IfOk result (λ image. (s : Held) → HoldAs gates.old state.now s
        → IsImage gates.new map.now s image) }
{
    map.known();
    let part = add_over(alloc, gates, map.aig(), state, &[])?;
    let outputs = substitutes_of(alloc, &part, map.props().outputs.as_slice())?;
    let constraints = substitutes_of(alloc, &part, map.props().constraints.as_slice())?;
    let kept = add_conjunction_of(gates, constraints.as_slice())?;
    Ok(Image { kept, outputs })
}
