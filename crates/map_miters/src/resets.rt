//! What latches hold at step 0.
ghost use Rattle.std.specs.Prelude.{◌≡◌, IfOk, length};
ghost use Rattle.map_miters.specs.Holding.{AreResets};

use aig_graph::{Latch, Lit, NoMemory, opening_literal};
use std::alloc::Global;

/// Returns the literals of the values that latches hold at step 0. Their own literals are these.
pub(crate) fn resets_of(alloc: Global, latches: &[Latch], own: &[Lit]) -> Result<Vec<Lit>, NoMemory>
    requires { length own.now ≡ length latches.now }
    ensures { IfOk result (λ lits. AreResets latches.now own.now lits.items) }
{
    let mut lits = Vec::new(alloc);
    for (place, latch) in latches.iter().enumerate() {
        lits.push(opening_literal(latch.reset, own[place]))?;
    }
    Ok(lits)
}
