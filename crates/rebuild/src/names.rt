ghost use Rattle.std.specs.Prelude.{◌≡◌, ◌<◌, All, IfOk, length, map, filter};
ghost use Rattle.rebuild.specs.Moved.{stays, moved_name, moved_symbols};
ghost use Rattle.rebuild.specs.Planned.{planned};

use crate::plan::Plan;
use aig_graph::{NoMemory, Sequence, Symbol, Symbols};
use std::alloc::Global;

/// Returns the names of the latches that stay, at the positions of these.
fn staying_names(
    alloc: Global,
    plan: &Plan<'_>,
    names: &[Symbol],
) -> Result<Sequence<Symbol>, NoMemory>
    requires { All (λ name. name.position < length (planned
        plan.now).circuit.aig.latches) names.now }
    ensures { IfOk result (λ copies. copies ≡ map (moved_name (planned plan.now))
        (filter (stays (planned plan.now)) names.now)) }
{
    let mut copies = Vec::new(alloc);
    for name in names {
        if let Some(position) = plan.staying_position(name.position) {
            copies.push(name.at(alloc, position)?)?;
        }
    }
    Ok(Sequence::from_vec(copies))
}

/// Returns the names after the move.
pub(crate) fn moved_symbols(alloc: Global, plan: &Plan<'_>) -> Result<Symbols, NoMemory>
    ensures { IfOk result (λ symbols. symbols ≡ moved_symbols (planned plan.now)) }
{
    let symbols = plan.marks.circuit.symbols();
    let latches = staying_names(alloc, plan, symbols.latches.as_slice())?;
    symbols.with_latches(alloc, latches)
}
