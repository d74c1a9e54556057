//! Two circuits beside each other over shared inputs, as a model of the first. The second is lifted
//! as if it were a witness circuit that shares the inputs alone, so all its latches are its own.
ghost use Rattle.std.specs.Prelude.{◌≡◌, [], IfOk, length};
ghost use Rattle.aig_graph.specs.Circuits.{IsNetlist};
ghost use Rattle.map_miters.specs.Beside.{IsBeside, beside_sharing, no_map};

use crate::circuits::circuit_of;
use aig_graph::{Aig, AigBuilder, Circuit, NoMemory, Props, Sequence};
use std::alloc::Global;
use witness_circuits::{LiftError, Sharing, first_places, witness_lifted_over};

/// Returns a map of the latches that gives nothing: no latch is read through it.
fn no_map(alloc: Global, first: &Aig) -> Result<Circuit, LiftError>
    ensures { IfOk result (λ map. map ≡ no_map (length first.now.latches)) }
{
    first.known();
    let gates = AigBuilder::new(alloc, first.latches().len() as u32, Vec::new(alloc))?;
    let props = Props::of_outputs(alloc, Vec::new(alloc));
    Ok(circuit_of(alloc, gates, props))
}

/// Returns the sharing by which the inputs of the second circuit are those of the first, and its
/// latches its own.
fn beside_sharing(alloc: Global, first: &Aig, second: &Aig) -> Result<Sharing, NoMemory>
    ensures { IfOk result (λ sharing. sharing ≡ beside_sharing first.now second.now) }
{
    first.known();
    second.known();
    let inputs = first_places(alloc, second.inputs(), first.inputs() as usize)?;
    let latches = first_places(alloc, second.latches().len() as u32, 0)?;
    Ok(Sharing {
        inputs: Sequence::from_vec(inputs),
        latches: Sequence::from_vec(latches),
    })
}

/// Returns the circuits beside each other: the latches of the first, and then those of the second.
pub(crate) fn beside(alloc: Global, first: &Circuit, second: &Circuit) -> Result<Circuit, LiftError>
    requires { second.now.aig.inputs ≡ first.now.aig.inputs }
    ensures { IfOk result (IsBeside first.now second.now) }
{
    second.known();
    let model = first.aig();
    let sharing = beside_sharing(alloc, model, second.aig())?;
    match no_map(alloc, model) {
        Ok(map) => {
            let both = witness_lifted_over(alloc, model, first, &map, second, &sharing);
            drop(map);
            drop(sharing);
            both
        }
        Err(error) => {
            drop(sharing);
            Err(error)
        }
    }
}
