//! The judge: what is asked of a finished circuit and its map, by proved code alone.
ghost use Rattle.std.specs.Prelude.{◌<◌, IfOk, IsTrue};
ghost use Rattle.aig_graph.specs.Graph.{known_latches};
ghost use Rattle.class_circuits.specs.MovedOn.{IsMapOn, IsMovedOn};

use crate::held::are_held_on;
use crate::names::has_other_latches;
use aig_graph::{Circuit, Keep, NoMemory};
use backward_circuits::is_within;
use map_checks::{Answer, CheckError, check_map};
use map_circuits::free_stay;
use std::alloc::Global;

/// Returns true if the new circuit has fewer latches with a known reset.
fn has_fewer(circuit: &Circuit, after: &Circuit) -> bool
    ensures { IsTrue result → known_latches after.now.aig < known_latches circuit.now.aig }
{
    after.aig().known_latches() < circuit.aig().known_latches()
}

/// Returns true if the map shows that the new circuit is a retiming of the one before, whose free
/// latches it has as they are.
fn is_mapped(
    alloc: Global,
    circuit: &Circuit,
    after: &Circuit,
    map: &Circuit,
) -> Result<bool, NoMemory>
    ensures { IfOk result (λ mapped. IsTrue mapped
        → IsMapOn circuit.now after.now map.now) }
{
    match check_map(alloc, circuit, after, map) {
        Ok(Answer::Retiming(kept)) => {
            drop(kept);
            free_stay(alloc, circuit, after, map)
        }
        Ok(Answer::NotShown(_)) => Ok(false),
        Err(CheckError::NoMemory) => Err(NoMemory),
        Err(_) => Ok(false),
    }
}

/// Returns true if the new circuit is one that the circuit before may become by moves of its
/// registers. Asks the check of maps last, which takes longest.
///
/// # Errors
///
/// `NoMemory` if memory is refused.
pub fn is_moved_on(
    alloc: Global,
    circuit: &Circuit,
    keep: &Keep,
    bound: Option<u32>,
    after: &Circuit,
    map: &Circuit,
) -> Result<bool, NoMemory>
    ensures { IfOk result (λ moved. IsTrue moved
        → IsMovedOn circuit.now keep.now bound after.now map.now) }
{
    if !has_fewer(circuit, after) || !has_other_latches(circuit, after) {
        return Ok(false);
    }
    if !is_within(alloc, bound, circuit, after)? {
        return Ok(false);
    }
    if !are_held_on(alloc, circuit, after, map, keep)? {
        return Ok(false);
    }
    is_mapped(alloc, circuit, after, map)
}
