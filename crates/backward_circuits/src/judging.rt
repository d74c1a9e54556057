//! The judge: what is asked of the finished circuit and map, by proved code alone.
ghost use Rattle.std.specs.Prelude.{◌≡◌, IfOk, IsTrue, length};
ghost use Rattle.aig_graph.specs.Graph.{free_latches};
ghost use Rattle.state_maps.specs.MapCircuits.{FreeStay};
ghost use Rattle.backward_circuits.specs.MovedBack.{IsFit, IsMovedBack, IsMapBack};

use crate::bounds::is_within;
use crate::held::are_held_back;
use aig_graph::{Circuit, Keep, NoMemory};
use map_checks::{Answer, CheckError, check_map};
use map_circuits::free_stay;
use std::alloc::Global;

/// Returns true if both have equal numbers of free latches.
fn have_same_free(circuit: &Circuit, after: &Circuit) -> bool
    ensures { IsTrue result → free_latches after.now.aig ≡ free_latches circuit.now.aig }
{
    after.aig().free_latches() == circuit.aig().free_latches()
}

/// Returns true if both have one list of free latches, in one order: the output of each is the
/// input of one.
fn keeps_free(
    alloc: Global,
    circuit: &Circuit,
    after: &Circuit,
    map: &Circuit,
) -> Result<bool, NoMemory>
    requires { length map.now.props.outputs ≡ length circuit.now.aig.latches }
    ensures { IfOk result (λ kept. IsTrue kept
        → (free_latches after.now.aig ≡ free_latches circuit.now.aig)
        × FreeStay after.now circuit.now map.now) }
{
    if have_same_free(circuit, after) {
        free_stay(alloc, after, circuit, map)
    } else {
        Ok(false)
    }
}

/// Returns true if the map shows that the circuit of before is a retiming of the new one. All of
/// its free latches are there, each as it is.
fn is_mapped(
    alloc: Global,
    circuit: &Circuit,
    after: &Circuit,
    map: &Circuit,
) -> Result<bool, NoMemory>
    ensures { IfOk result (λ mapped. IsTrue mapped → IsMapBack circuit.now after.now map.now) }
{
    match check_map(alloc, after, circuit, map) {
        Ok(Answer::Retiming(kept)) => {
            drop(kept);
            keeps_free(alloc, circuit, after, map)
        }
        Ok(Answer::NotShown(_)) => Ok(false),
        Err(CheckError::NoMemory) => Err(NoMemory),
        Err(_) => Ok(false),
    }
}

/// Returns true if the new circuit has no more latches, and held ones have stayed.
fn is_fit(circuit: &Circuit, after: &Circuit, map: &Circuit, keep: &Keep) -> bool
    ensures { IsTrue result → IsFit circuit.now keep.now after.now map.now }
{
    after.aig().latches().len() <= circuit.aig().latches().len()
        && are_held_back(circuit, after, map, keep)
}

/// Returns true if the new circuit is what the first one may become.
///
/// # Errors
///
/// `NoMemory` if memory is refused.
pub fn is_moved_back(
    alloc: Global,
    circuit: &Circuit,
    keep: &Keep,
    bound: Option<u32>,
    after: &Circuit,
    map: &Circuit,
) -> Result<bool, NoMemory>
    ensures { IfOk result (λ moved. IsTrue moved
        → IsMovedBack circuit.now keep.now bound after.now map.now) }
{
    if !is_fit(circuit, after, map, keep) {
        return Ok(false);
    }
    if !is_mapped(alloc, circuit, after, map)? {
        return Ok(false);
    }
    is_within(alloc, bound, circuit, after)
}
