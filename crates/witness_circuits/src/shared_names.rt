//! The latches and inputs that a witness circuit shares with its model: by names if any of its
//! names says a literal, else by places.
ghost use Rattle.std.specs.Prelude.{◌≡◌, IfErr, IfOk, IsErrOf};
ghost use Rattle.witness_circuits.specs.Witnesses.{IsSharing};
ghost use Rattle.witness_circuits.specs.Naming.{IsByNames, IsByPlaces, IsSharedBy};
ghost use Rattle.witness_circuits.specs.declared.sharing.Sharing.{Sharing as Shares};
ghost use Rattle.witness_circuits.specs.declared.sharing_errors.SharingError.TheVariants.{NoMemory, NoSuchLiteral};

use crate::naming::{any_says, named_places};
use crate::placing::first_places;
use crate::sharing::Sharing;
use crate::sharing_errors::SharingError;
use aig_graph::{Circuit, Sequence};
use std::alloc::Global;

/// Returns the sharing that the names say.
fn by_names(alloc: Global, model: &Circuit, witness: &Circuit) -> Result<Sharing, SharingError>
    ensures named { IfOk result (IsByNames model.now witness.now) }
    ensures refused { IsErrOf result NoSuchLiteral → (k : Shares) → IsByNames model.now witness.now k → ⊥ }
{
    model.known();
    witness.known();
    let of_model = model.aig();
    let of_witness = witness.aig();
    let names = witness.symbols();
    let inputs = named_places(
        alloc,
        of_witness.inputs() as usize,
        names.inputs.as_slice(),
        1,
        of_model.inputs() as usize,
    )?;
    let latches = named_places(
        alloc,
        of_witness.latches().len(),
        names.latches.as_slice(),
        of_model.first_latch(),
        of_model.latches().len(),
    )?;
    Ok(Sharing {
        inputs: Sequence::from_vec(inputs),
        latches: Sequence::from_vec(latches),
    })
}

/// Returns the sharing by numbers.
fn by_places(alloc: Global, model: &Circuit, witness: &Circuit) -> Result<Sharing, SharingError>
    ensures placed { IfOk result (IsByPlaces model.now witness.now) }
    ensures memory { IfErr result (λ error. error ≡ NoMemory) }
{
    model.known();
    witness.known();
    let of_model = model.aig();
    let of_witness = witness.aig();
    let inputs = first_places(alloc, of_witness.inputs(), of_model.inputs() as usize)?;
    let latches = first_places(
        alloc,
        of_witness.latches().len() as u32,
        of_model.latches().len(),
    )?;
    Ok(Sharing {
        inputs: Sequence::from_vec(inputs),
        latches: Sequence::from_vec(latches),
    })
}

/// Returns the sharing by names if one says a literal, else by numbers.
fn shared(alloc: Global, model: &Circuit, witness: &Circuit) -> Result<Sharing, SharingError>
    ensures shared { IfOk result (IsSharedBy model.now witness.now) }
    ensures refused { IsErrOf result NoSuchLiteral → (k : Shares) → IsSharedBy model.now witness.now k → ⊥ }
{
    let names = witness.symbols();
    if any_says(names.inputs.as_slice()) {
        by_names(alloc, model, witness)
    } else if any_says(names.latches.as_slice()) {
        by_names(alloc, model, witness)
    } else {
        by_places(alloc, model, witness)
    }
}

/// Returns the inputs and latches of a witness circuit that are those of the model. The names of
/// its inputs and latches say which. If none says a literal, their numbers do.
///
/// # Errors
///
/// `NoMemory` if memory is refused. `NoSuchLiteral` if the name of an input says another thing than
/// the positive literal of an input of the model. Likewise for a latch, and for a name that says
/// what an earlier one says.
pub fn sharing_of(
    alloc: Global,
    model: &Circuit,
    witness: &Circuit,
) -> Result<Sharing, SharingError>
    ensures shared { IfOk result (IsSharedBy model.now witness.now) }
    ensures fits { IfOk result (IsSharing model.now witness.now) }
    ensures refused { IsErrOf result NoSuchLiteral → (k : Shares) → IsSharedBy model.now witness.now k → ⊥ }
{
    shared(alloc, model, witness)
}
