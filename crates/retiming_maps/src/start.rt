//! The map before any step: each latch holds what it holds.
ghost use Rattle.std.specs.Prelude.{◌≡◌, ◌+◌, ◌*◌, ◌<◌, IfOk};
ghost use Rattle.aig_graph.specs.Laws.{all_free};
ghost use Rattle.aig_graph.specs.declared.literal.TheConstants.{MAX_VARIABLES};
ghost use Rattle.aig_graph.specs.Tables.{table};
ghost use Rattle.retiming_maps.specs.Mapping.{IsMapTo};

use crate::parts::MapParts;
use aig_graph::{Circuit, Lit, NoMemory};
use map_circuits::{LatchFunctions, MapError, MapGates};
use std::alloc::Global;

/// Returns the literals of `count` inputs.
fn input_literals(alloc: Global, count: u32) -> Result<Vec<Lit>, NoMemory>
    requires { count < MAX_VARIABLES }
    ensures { IfOk result (λ literals. literals.items ≡ table 0 count (λ j. 2 * (1 + j))) }
{
    let mut literals = Vec::with_capacity(alloc, count as usize)?;
    for place in 0..count {
        literals.push(Lit::new(1 + place, false))?;
    }
    Ok(literals)
}

/// Returns the map of a circuit's states to themselves. Linear in the latches.
///
/// # Errors
///
/// `NoMemory` if memory is refused.
pub fn identity(alloc: Global, circuit: &Circuit) -> Result<MapParts, MapError>
    ensures { IfOk result (IsMapTo circuit.now circuit.now (all_free circuit.now.aig)) }
{
    circuit.known();
    let count = circuit.aig().latches().len() as u32;
    let gates = MapGates::new(alloc, count);
    let literals = input_literals(alloc, count)?;
    let constraints = Vec::new(alloc);
    Ok(MapParts {
        gates,
        functions: LatchFunctions::of(literals),
        constraints,
    })
}
