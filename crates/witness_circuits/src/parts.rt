//! The circuit, its map and the witness, each once among the gates of one graph. The map reads the
//! circuit's latches. The witness reads the map for the latches that it shares.
ghost use Rattle.std.specs.Prelude.{ℕ, ◌≡◌, ◌+◌, ◌*◌, ◌≤◌, ◌<◌, [], IfOk, OnOk, Some, length, slice_get};
ghost use Rattle.aig_graph.specs.declared.literal.TheConstants.{MAX_VARIABLES};
ghost use Rattle.aig_graph.specs.Circuits.{AreLiteralsOf};
ghost use Rattle.aig_graph.specs.Graph.{IsGraph, variables_end};
ghost use Rattle.aig_graph.specs.Graph as graphs;
ghost use Rattle.aig_graph.specs.Value.{value_within};
ghost use Rattle.map_circuits.specs.Growing.{Extends};
ghost use Rattle.witness_circuits.specs.Joining.{own_count};
ghost use Rattle.aig_graph.specs.Tables.{table};
ghost use Rattle.witness_circuits.specs.Literals.{AreSources};
ghost use Rattle.witness_circuits.specs.Parts.{AreParts, AreWitnessLeaves, HasPlaces, IsLiftable, IsFitting, IsView, first_leaves, in_shared, map_leaves, over_latches, substitutes};

use crate::errors::LiftError;
use crate::literals::{leaves, numbered, push_substitutes, sources};
use crate::sharing::Sharing;
use aig_graph::{Aig, AigBuilder, Circuit, Lit, NoMemory};
use map_circuits::{Instance, add_instance};
use std::alloc::Global;

/// What stands for the literals of each circuit.
#[derive(Drop)]
pub(crate) struct Parts {
    pub(crate) first: Instance,
    pub(crate) map: Instance,
    pub(crate) witness: Instance,
}

/// Returns the literals of the inputs and latches of the circuit: the inputs are the first
/// variables, and the latches begin with `first_latch`.
fn first_leaves(alloc: Global, first_latch: u32, first: &Aig) -> Result<Instance, NoMemory>
    requires { first_latch + length first.now.latches ≤ MAX_VARIABLES }
    ensures { IfOk result (λ leaves. leaves ≡ first_leaves first_latch first.now) }
{
    let inputs = numbered(alloc, 1, first.inputs() as usize)?;
    let latches = numbered(alloc, first_latch, first.latches().len())?;
    leaves(alloc, inputs.as_slice(), latches.as_slice())
}

/// Returns the literals of the inputs of the map, which are latches.
fn map_leaves(alloc: Global, first_latch: u32, map: &Aig) -> Result<Instance, NoMemory>
    requires { first_latch + map.now.inputs ≤ MAX_VARIABLES }
    ensures { IfOk result (λ leaves. leaves ≡ map_leaves first_latch map.now) }
{
    let inputs = numbered(alloc, first_latch, map.inputs() as usize)?;
    leaves(alloc, inputs.as_slice(), &[])
}

/// Returns the literals of the inputs of the witness: inputs of the circuit, or its own after
/// those.
fn input_sources(alloc: Global, first: &Aig, sharing: &Sharing) -> Result<Vec<Lit>, NoMemory>
    requires below { (i at : ℕ) → slice_get sharing.now.inputs i ≡ Some (Some at) → at < first.now.inputs }
    requires room { 1 + first.now.inputs + own_count sharing.now.inputs ≤ MAX_VARIABLES }
    ensures { IfOk result (λ lits. AreSources sharing.now.inputs
        (table 0 first.now.inputs (λ i. 2 * (1 + i))) (1 + first.now.inputs) lits.items) }
{
    let shared = numbered(alloc, 1, first.inputs() as usize)?;
    sources(
        alloc,
        sharing.inputs.as_slice(),
        shared.as_slice(),
        1 + first.inputs(),
    )
}

/// Returns the literals of the inputs and latches of the witness. The latches that it shares are
/// these literals.
fn witness_leaves(
    alloc: Global,
    first_latch: u32,
    first: &Aig,
    outputs: &[Lit],
    sharing: &Sharing,
) -> Result<Instance, NoMemory>
    requires inputs { (i at : ℕ) → slice_get sharing.now.inputs i ≡ Some (Some at)
        → at < first.now.inputs }
    requires latches { (j at : ℕ) → slice_get sharing.now.latches j ≡ Some (Some at) → at < length outputs.now }
    requires room { first_latch ≡ 1 + first.now.inputs + own_count sharing.now.inputs }
    requires latch_room { first_latch + length first.now.latches + own_count sharing.now.latches ≤ MAX_VARIABLES }
    ensures { IfOk result (AreWitnessLeaves first_latch first.now outputs.now sharing.now) }
{
    let inputs = input_sources(alloc, first, sharing)?;
    let own = first_latch + first.latches().len() as u32;
    let latches = sources(alloc, sharing.latches.as_slice(), outputs, own)?;
    leaves(alloc, inputs.as_slice(), latches.as_slice())
}

/// Adds the gates of the circuit.
fn add_first(
    alloc: Global,
    gates: &mut AigBuilder,
    first_latch: u32,
    first: &Aig,
) -> Result<Instance, LiftError>
    requires graph { IsGraph gates.old }
    requires at { first_latch ≡ graphs.first_latch gates.old }
    requires inputs { first.now.inputs ≤ gates.old.inputs }
    requires latches { length first.now.latches ≤ length gates.old.latches }
    ensures extends { OnOk result (Extends gates.old gates.new) }
    ensures view { IfOk result (IsView gates.new first.now (λ z u. value_within first.now z u)) }
{
    first.known();
    let leaves = first_leaves(alloc, first_latch, first)?;
    let part = add_instance(gates, first, leaves)?;
    Ok(part)
}

/// Adds the gates of the map.
fn add_map(
    alloc: Global,
    gates: &mut AigBuilder,
    first_latch: u32,
    map: &Aig,
) -> Result<Instance, LiftError>
    requires graph { IsGraph gates.old }
    requires at { first_latch ≡ graphs.first_latch gates.old }
    requires inputs { map.now.inputs ≤ length gates.old.latches }
    requires latches { map.now.latches ≡ [] }
    ensures extends { OnOk result (Extends gates.old gates.new) }
    ensures view { IfOk result (IsView gates.new map.now (over_latches map.now)) }
{
    map.known();
    let leaves = map_leaves(alloc, first_latch, map)?;
    let part = add_instance(gates, map, leaves)?;
    Ok(part)
}

/// Adds the gates of the witness. The latches that it shares are these literals.
fn add_witness(
    alloc: Global,
    gates: &mut AigBuilder,
    first_latch: u32,
    first: &Aig,
    outputs: &[Lit],
    witness: &Aig,
    sharing: &Sharing,
) -> Result<Instance, LiftError>
    requires graph { IsGraph gates.old }
    requires at { first_latch ≡ graphs.first_latch gates.old }
    requires places { HasPlaces gates.old first.now sharing.now }
    requires outputs { AreLiteralsOf gates.old outputs.now }
    requires widths { IsFitting first.now (length outputs.now) witness.now sharing.now }
    ensures extends { OnOk result (Extends gates.old gates.new) }
    ensures view { IfOk result (IsView gates.new witness.now
        (in_shared gates.old outputs.now first.now witness.now sharing.now)) }
{
    witness.known();
    let leaves = witness_leaves(alloc, first_latch, first, outputs, sharing)?;
    let part = add_instance(gates, witness, leaves)?;
    Ok(part)
}

/// Returns the literals that stand for the outputs of the map.
fn outputs_of(alloc: Global, part: &Instance, map: &Circuit) -> Result<Vec<Lit>, NoMemory>
    requires { length part.now ≡ variables_end map.now.aig }
    ensures { IfOk result (λ lits. lits.items ≡ substitutes part.now map.now.props.outputs) }
{
    map.known();
    let mut outputs = Vec::new(alloc);
    push_substitutes(&mut outputs, part, map.props().outputs.as_slice())?;
    Ok(outputs)
}

/// Adds the gates of all three.
pub(crate) fn add_parts(
    alloc: Global,
    gates: &mut AigBuilder,
    first_latch: u32,
    first: &Circuit,
    map: &Circuit,
    witness: &Circuit,
    sharing: &Sharing,
) -> Result<Parts, LiftError>
    requires graph { IsGraph gates.old }
    requires at { first_latch ≡ graphs.first_latch gates.old }
    requires places { HasPlaces gates.old first.now.aig sharing.now }
    requires fits { IsLiftable first.now map.now witness.now sharing.now }
    ensures extends { OnOk result (Extends gates.old gates.new) }
    ensures parts { IfOk result (AreParts gates.new first.now map.now witness.now sharing.now) }
{
    map.known();
    let circuit = first.aig();
    let of_first = add_first(alloc, gates, first_latch, circuit)?;
    let of_map = add_map(alloc, gates, first_latch, map.aig())?;
    let outputs = outputs_of(alloc, &of_map, map)?;
    let lits = outputs.as_slice();
    let of_witness = add_witness(
        alloc,
        gates,
        first_latch,
        circuit,
        lits,
        witness.aig(),
        sharing,
    )?;
    Ok(Parts {
        first: of_first,
        map: of_map,
        witness: of_witness,
    })
}
