//! Arrivals in one pass: a gate's is the latest of what a latch behind it would be fed by. Latches
//! come before gates, and fan-ins before their gates, so their arrivals are there when a gate is
//! met. The table begins at the first latch, since nothing before it moves.
ghost use Rattle.std.specs.Prelude.{◌≡◌, IfOk, length};
ghost use Rattle.aig_graph.specs.Tables.{table};
ghost use Rattle.aig_graph.specs.Graph.{first_latch, latches_and_gates};
ghost use Rattle.path_levels.specs.Arrivals.{arrival};

use crate::entries::{entry_above, entry_at};
use crate::leveling::gate_levels;
use aig_graph::{Aig, NoMemory};
use std::alloc::Global;

/// Returns the arrival of each latch, with room for those of the gates.
fn latch_arrivals(alloc: Global, aig: &Aig) -> Result<Vec<u32>, NoMemory>
    ensures { IfOk result (λ arrivals. arrivals.items
        ≡ table (first_latch aig.now) (length aig.now.latches) (arrival aig.now)) }
{
    let first = aig.first_gate();
    let levels = gate_levels(alloc, aig)?;
    let mut arrivals = Vec::with_capacity(alloc, aig.latches_and_gates())?;
    for latch in aig.latches() {
        arrivals.push(entry_at(first, levels.as_slice(), latch.next.var()))?;
    }
    Ok(arrivals)
}

/// Returns the arrival of each latch and each gate.
pub(crate) fn arrivals(alloc: Global, aig: &Aig) -> Result<Vec<u32>, NoMemory>
    ensures { IfOk result (λ arrivals. arrivals.items
        ≡ table (first_latch aig.now) (latches_and_gates aig.now) (arrival aig.now)) }
{
    let first = aig.first_latch();
    let mut arrivals = latch_arrivals(alloc, aig)?;
    for gate in aig.gates() {
        let arrival = entry_above(first, arrivals.as_slice(), *gate);
        arrivals.push(arrival)?;
    }
    Ok(arrivals)
}
