//! The gates that a bound bars. Latches could move over them, but would be fed by what arrives too
//! late.
ghost use Rattle.std.specs.Prelude.{◌≡◌, ◌&&◌, IfOk, length, nat_lt};
ghost use Rattle.aig_graph.specs.Tables.{table};
ghost use Rattle.aig_graph.specs.Graph.{first_gate};
ghost use Rattle.path_levels.specs.Bounded.{is_barred};

use crate::arriving::arrivals;
use crate::entries::entry_at;
use aig_graph::{Aig, Keep, NoMemory};
use frame_net::passable;
use std::alloc::Global;

/// Returns true if a gate is passable and arrives past the bound.
fn is_late(is_passable: bool, arrival: u32, bound: u32) -> bool
    ensures { result ≡ (is_passable && nat_lt bound arrival) }
{
    is_passable && bound < arrival
}

/// Marks the passable gates that arrive past the bound, from the first gate on. Linear in the
/// graph, but for a search among the held latches.
pub(crate) fn barred_gates(
    alloc: Global,
    aig: &Aig,
    keep: &Keep,
    bound: u32,
) -> Result<Vec<bool>, NoMemory>
    ensures { IfOk result (λ barred. barred.items
        ≡ table (first_gate aig.now) (length aig.now.gates) (is_barred bound aig.now keep.now)) }
{
    let arrivals = arrivals(alloc, aig)?;
    let pass = passable(alloc, aig, keep)?;
    let first = aig.first_latch();
    let gates = aig.gates().len();
    let mut barred = Vec::with_capacity(alloc, gates)?;
    for k in 0..gates {
        let var = aig.first_gate() + k as u32;
        let arrival = entry_at(first, arrivals.as_slice(), var);
        barred.push(is_late(pass.has(var), arrival, bound))?;
    }
    Ok(barred)
}
