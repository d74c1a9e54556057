//! A witness circuit is lifted back in two steps. The circuits are put beside each other, and the
//! witness circuit of the second is lifted over both by the map turned round. So the second one's
//! latches become the witness's own. They can't be replaced as `lifted_witness` does: what they
//! hold is no function of the first one's latches.
ghost use Rattle.std.specs.Prelude.{◌≡◌, IfOk};
ghost use Rattle.map_miters.specs.Beside.{IsBeside};
ghost use Rattle.map_miters.specs.Lifting.{IsLiftedBack};
ghost use Rattle.map_miters.specs.Turned.{IsTurnable, IsTurned};
ghost use Rattle.witness_circuits.specs.Lifting.{IsNamedAs};
ghost use Rattle.witness_circuits.specs.Witnesses.{IsSharing};

use crate::MiterError;
use crate::beside::beside;
use crate::turned::turned;
use aig_graph::Circuit;
use std::alloc::Global;
use witness_circuits::{LiftError, Sharing, witness_lifted_over};

/// Returns the refusal of a lift for that of a miter.
fn lift_error(error: MiterError) -> LiftError {
    match error {
        MiterError::NoMemory => LiftError::NoMemory,
        MiterError::TooLarge => LiftError::TooLarge,
    }
}

/// Returns the witness circuit over both circuits, by the map turned round.
fn lifted_over(
    alloc: Global,
    both: &Circuit,
    first: &Circuit,
    second: &Circuit,
    map: &Circuit,
    witness: &Circuit,
    sharing: &Sharing,
) -> Result<Circuit, LiftError>
    requires beside { IsBeside first.now second.now both.now }
    requires turnable { IsTurnable first.now second.now map.now }
    requires shares { IsSharing second.now witness.now sharing.now }
    ensures lifted { IfOk result (IsLiftedBack first.now second.now map.now witness.now
        sharing.now) }
    ensures named { IfOk result (IsNamedAs first.now.aig) }
{
    match turned(alloc, first, second, map) {
        Ok(turned) => {
            turned.known();
            let lifted = witness_lifted_over(alloc, first.aig(), both, &turned, witness, sharing);
            drop(turned);
            lifted
        }
        Err(error) => Err(lift_error(error)),
    }
}

/// Makes a witness circuit for a circuit, of one for another circuit whose states a map maps to
/// those of the circuit. It has the inputs and latches of the circuit, which its names say. After
/// these come the latches of the other circuit, and those that are the witness's own. Its
/// constraints are the circuit's. Linear in all four.
///
/// # Errors
///
/// `NoMemory` if memory is refused, `TooLarge` if it would have more variables than a graph may
/// have.
pub fn witness_lifted_back(
    alloc: Global,
    first: &Circuit,
    second: &Circuit,
    map: &Circuit,
    witness: &Circuit,
    sharing: &Sharing,
) -> Result<Circuit, LiftError>
    requires turnable { IsTurnable first.now second.now map.now }
    requires shares { IsSharing second.now witness.now sharing.now }
    ensures lifted { IfOk result (IsLiftedBack first.now second.now map.now witness.now
        sharing.now) }
    ensures named { IfOk result (IsNamedAs first.now.aig) }
{
    let both = beside(alloc, first, second)?;
    let lifted = lifted_over(alloc, &both, first, second, map, witness, sharing);
    drop(both);
    lifted
}
