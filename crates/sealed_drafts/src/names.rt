//! The names of latches. A latch that is one of the first circuit has its name.
ghost use Rattle.std.specs.Prelude.{◌≤◌, IfOk, length};
ghost use Rattle.aig_graph.specs.declared.literal.TheConstants.{MAX_VARIABLES};
ghost use Rattle.aig_graph.specs.Circuits.{AreNamesBelow};

use aig_graph::{NoMemory, Sequence, Symbol};
use backward_circuits::name_at;
use backward_sets::DraftLatch;
use std::alloc::Global;

/// Returns the names of the latches of a draft that are latches of the first circuit, which has
/// these.
pub(crate) fn latch_names(
    alloc: Global,
    names: &[Symbol],
    latches: &[DraftLatch],
) -> Result<Sequence<Symbol>, NoMemory>
    requires { length latches.now ≤ MAX_VARIABLES }
    ensures { IfOk result (AreNamesBelow (length latches.now)) }
{
    let mut own = Vec::new(alloc);
    for (place, latch) in latches.iter().enumerate() {
        if let Some(name) = named(names, latch) {
            own.push(name.at(alloc, place as u32)?)?;
        }
    }
    Ok(Sequence::from_vec(own))
}

/// Returns the name of a latch.
fn named<'a>(names: &'a [Symbol], latch: &DraftLatch) -> Option<&'a Symbol> {
    name_at(names, latch.origin?)
}
