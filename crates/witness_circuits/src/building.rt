//! The graph of the lifted witness.
ghost use Rattle.std.specs.Prelude.{◌≡◌, ◌+◌, ◌<◌, All, IfOk, length};
ghost use Rattle.aig_graph.specs.declared.literal.TheConstants.{MAX_VARIABLES};
ghost use Rattle.aig_graph.specs.Building.{without_gates};
ghost use Rattle.aig_graph.specs.Graph.{IsGraph, variable, variables_end};
ghost use Rattle.witness_circuits.specs.Joining.{own_count};
ghost use Rattle.witness_circuits.specs.Latches.{AreOwn};
ghost use Rattle.witness_circuits.specs.Parts.{IsLiftable, both_nexts, both_resets};
ghost use Rattle.witness_circuits.specs.Built.{IsBuilt, IsFilled};

use crate::errors::LiftError;
use crate::latches::{own_latches, push_nexts, push_resets, set_nexts};
use crate::literals::own_count;
use crate::parts::{Parts, add_parts};
use crate::properties::add_props;
use crate::sharing::Sharing;
use aig_graph::{Aig, AigBuilder, Circuit, Latch, Lit, NoMemory, Props, Reset};
use std::alloc::Global;

/// A graph without gates, and the properties over the gates that it gets.
#[derive(Drop)]
pub(crate) struct Built {
    pub(crate) gates: AigBuilder,
    pub(crate) props: Props,
}

/// Returns the resets of the circuit's latches, and of the witness's own.
fn resets_of(alloc: Global, first: &[Latch], own: &[Latch]) -> Result<Vec<Reset>, NoMemory>
    ensures { IfOk result (λ resets. resets.items ≡ both_resets first.now own.now) }
{
    let mut resets = Vec::new(alloc);
    push_resets(&mut resets, first)?;
    push_resets(&mut resets, own)?;
    Ok(resets)
}

/// Returns a graph without gates that has the inputs and latches of the circuit, and the witness's
/// own.
fn begun(
    alloc: Global,
    first: &Aig,
    own_inputs: u32,
    own: &[Latch],
) -> Result<AigBuilder, LiftError>
    requires { own_inputs < MAX_VARIABLES }
    ensures is { IfOk result (λ gates. gates
        ≡ without_gates (first.now.inputs + own_inputs) (both_resets first.now.latches own.now)) }
    ensures graph { IfOk result (λ gates. IsGraph gates) }
{
    first.known();
    let resets = resets_of(alloc, first.latches(), own)?;
    let gates = AigBuilder::new(alloc, first.inputs() + own_inputs, resets)?;
    Ok(gates)
}

/// Returns the literals that stand for the next literals of the circuit's latches, and of the
/// witness's own.
fn nexts_of(alloc: Global, parts: &Parts, first: &Aig, own: &[Latch]) -> Result<Vec<Lit>, NoMemory>
    requires first { length parts.now.first ≡ variables_end first.now }
    requires own { All (λ latch. variable latch.next < length parts.now.witness) own.now }
    ensures { IfOk result (λ nexts. nexts.items ≡ both_nexts parts.now first.now.latches own.now) }
{
    first.known();
    let mut nexts = Vec::new(alloc);
    push_nexts(&mut nexts, &parts.first, first.latches())?;
    push_nexts(&mut nexts, &parts.witness, own)?;
    Ok(nexts)
}

/// Adds all gates and gives the latches their next literals.
fn filled(
    alloc: Global,
    gates: &mut AigBuilder,
    own: &[Latch],
    first: &Circuit,
    map: &Circuit,
    witness: &Circuit,
    sharing: &Sharing,
) -> Result<Props, LiftError>
    requires graph { IsGraph gates.old }
    requires begun { gates.old ≡ without_gates
        (first.now.aig.inputs + own_count sharing.now.inputs)
        (both_resets first.now.aig.latches own.now) }
    requires fits { IsLiftable first.now map.now witness.now sharing.now }
    requires own { AreOwn sharing.now.latches witness.now.aig.latches
        (length sharing.now.latches) own.now }
    ensures { IfOk result (IsFilled gates.new first.now map.now witness.now sharing.now) }
{
    first.known();
    map.known();
    witness.known();
    let circuit = first.aig();
    let own_inputs = own_count(sharing.inputs.as_slice());
    let first_latch = circuit.first_latch() + own_inputs;
    let parts = add_parts(alloc, gates, first_latch, first, map, witness, sharing)?;
    let props = add_props(alloc, gates, &parts, first, map, witness, sharing)?;
    let nexts = nexts_of(alloc, &parts, circuit, own)?;
    set_nexts(gates, nexts.as_slice());
    Ok(props)
}

/// Returns the graph of the lifted witness, and its properties.
pub(crate) fn assembled(
    alloc: Global,
    first: &Circuit,
    map: &Circuit,
    witness: &Circuit,
    sharing: &Sharing,
) -> Result<Built, LiftError>
    requires { IsLiftable first.now map.now witness.now sharing.now }
    ensures { IfOk result (IsBuilt first.now map.now witness.now sharing.now) }
{
    witness.known();
    let own_inputs = own_count(sharing.inputs.as_slice());
    let own = own_latches(alloc, sharing.latches.as_slice(), witness.aig().latches())?;
    let mut gates = begun(alloc, first.aig(), own_inputs, own.as_slice())?;
    match filled(
        alloc,
        &mut gates,
        own.as_slice(),
        first,
        map,
        witness,
        sharing,
    ) {
        Ok(props) => Ok(Built { gates, props }),
        Err(error) => {
            drop(gates);
            Err(error)
        }
    }
}
