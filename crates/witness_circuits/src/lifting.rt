//! A witness circuit is lifted in one graph. Each latch that it shares is replaced by what the map
//! gives, so no latch of the mapped circuit is left. A latch that is only equated with it would
//! start by itself, and could start otherwise.
ghost use Rattle.std.specs.Prelude.{◌≡◌, IfOk};
ghost use Rattle.aig_graph.specs.Circuits.{IsNetlist};
ghost use Rattle.witness_circuits.specs.Built.{circuit_of};
ghost use Rattle.witness_circuits.specs.Lifting.{HasRoomFor, IsLifted, IsLiftedOver, IsNamedAs};
ghost use Rattle.witness_circuits.specs.Parts.{IsLiftable};

use crate::building::{Built, assembled};
use crate::errors::LiftError;
use crate::names::names_of;
use crate::sharing::Sharing;
use aig_graph::{Aig, Circuit, Symbols};
use std::alloc::Global;

/// Returns the graph and its properties as a circuit with these names. Takes no memory.
fn finished(built: Built, symbols: Symbols) -> Circuit
    requires { IsNetlist (circuit_of built symbols) }
    ensures { result ≡ circuit_of built symbols }
{
    let Built { gates, props } = built;
    Circuit::new(gates.finish(), props, symbols)
}

/// Makes a witness circuit for a model, of one for the circuit to which a map maps the states of
/// the first circuit. The first circuit is the model, or has the model's inputs and latches and
/// more latches. The result has the inputs and latches of the first circuit, and after them those
/// that are the witness's own. Its names say that its first inputs and latches are those of the
/// model. Linear in all three.
///
/// # Errors
///
/// `NoMemory` if memory is refused, `TooLarge` if it would have more variables than a graph may
/// have.
pub fn witness_lifted_over(
    alloc: Global,
    model: &Aig,
    first: &Circuit,
    map: &Circuit,
    witness: &Circuit,
    sharing: &Sharing,
) -> Result<Circuit, LiftError>
    requires fits { IsLiftable first.now map.now witness.now sharing.now }
    requires room { HasRoomFor model.now first.now.aig }
    ensures lifted { IfOk result (IsLiftedOver first.now map.now witness.now sharing.now) }
    ensures named { IfOk result (IsNamedAs model.now) }
{
    let symbols = names_of(alloc, model)?;
    match assembled(alloc, first, map, witness, sharing) {
        Ok(built) => Ok(finished(built, symbols)),
        Err(error) => {
            drop(symbols);
            Err(error)
        }
    }
}

/// Makes a witness circuit for a circuit, of one for the circuit to which a map maps its states. It
/// has the inputs and latches of the circuit, which its names say, and after them those that are
/// the witness's own. Linear in all three.
///
/// # Errors
///
/// `NoMemory` if memory is refused, `TooLarge` if it would have more variables than a graph may
/// have.
pub fn lifted_witness(
    alloc: Global,
    first: &Circuit,
    map: &Circuit,
    witness: &Circuit,
    sharing: &Sharing,
) -> Result<Circuit, LiftError>
    requires { IsLiftable first.now map.now witness.now sharing.now }
    ensures { IfOk result (IsLifted first.now map.now witness.now sharing.now) }
{
    let lifted = witness_lifted_over(alloc, first.aig(), first, map, witness, sharing)?;
    Ok(lifted)
}
