//! The map of a circuit's states to themselves: an output for each latch that is its input.
ghost use Rattle.std.specs.Prelude.{◌≡◌, ◌+◌, ◌*◌, ◌<◌, IfOk};
ghost use Rattle.aig_graph.specs.declared.literal.TheConstants.{MAX_VARIABLES};
ghost use Rattle.aig_graph.specs.Tables.{table};
ghost use Rattle.backward_circuits.specs.Drawn.{IsWires};

use crate::names::names_of_map;
use aig_graph::{Aig, Circuit, Lit, NoMemory, Props};
use std::alloc::Global;

/// Returns the literals of `count` inputs.
fn input_literals(alloc: Global, count: u32) -> Result<Vec<Lit>, NoMemory>
    requires { count < MAX_VARIABLES }
    ensures { IfOk result (λ literals. literals.items ≡ table 0 count (λ j. 2 * (1 + j))) }
{
    let mut literals = Vec::with_capacity(alloc, count as usize)?;
    for place in 0..count {
        literals.push(Lit::new(1 + place, false))?;
    }
    Ok(literals)
}

/// Returns the map of a circuit's states to themselves.
///
/// # Errors
///
/// `NoMemory` if memory is refused.
pub fn wires(alloc: Global, circuit: &Circuit) -> Result<Circuit, NoMemory>
    ensures { IfOk result (IsWires circuit.now) }
{
    circuit.known();
    let count = circuit.aig().latches().len() as u32;
    let names = circuit.symbols().latches.as_slice();
    let outputs = input_literals(alloc, count)?;
    let symbols = names_of_map(alloc, names, names)?;
    let aig = Aig::from_parts(count, Vec::new(alloc), Vec::new(alloc));
    Ok(Circuit::new(aig, Props::of_outputs(alloc, outputs), symbols))
}
