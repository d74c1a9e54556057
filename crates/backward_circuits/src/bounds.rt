//! The length of the longest path, if there is a bound.
ghost use Rattle.std.specs.Prelude.{IfOk, IsTrue};
ghost use Rattle.backward_circuits.specs.MovedBack.{IsWithin};

use aig_graph::{Circuit, NoMemory};
use path_levels::levels;
use std::alloc::Global;

/// Returns true if no path of a circuit is longer than a bound, or than the longest of the circuit
/// before. So it does if there is no bound.
///
/// # Errors
///
/// `NoMemory` if a table is refused.
pub fn is_within(
    alloc: Global,
    bound: Option<u32>,
    circuit: &Circuit,
    after: &Circuit,
) -> Result<bool, NoMemory>
    ensures { IfOk result (λ within. IsTrue within → IsWithin bound circuit.now after.now) }
{
    match bound {
        None => Ok(true),
        Some(bound) => {
            let most = bound.max(levels(alloc, circuit)?);
            Ok(levels(alloc, after)? <= most)
        }
    }
}
