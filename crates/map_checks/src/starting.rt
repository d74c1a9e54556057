//! Step 0: the map over the resets, of which each free latch is any value. Its outputs must be the
//! resets of the second circuit. For a free latch that is one of the first's.
ghost use Rattle.std.specs.Prelude.{◌≡◌, ◌≤◌, [], IfOk, IfSome, length, if◌then◌else◌};
ghost use Rattle.aig_graph.specs.Graph.{free_before, is_free};
ghost use Rattle.aig_graph.specs.Tables.{table};
ghost use Rattle.map_checks.specs.Starts.{AreOpeningLiterals, IsFreeLatch, IsResetImage};

use aig_graph::{Aig, Circuit, Latch, Lit, NoMemory, Reset, opening_literal};
use gate_sharing::{Copied, Equalities, SharedGates, SharingError, copy};
use std::alloc::Global;

/// Returns the value of each latch at step 0.
fn reset_leaves(alloc: Global, aig: &Aig) -> Result<Copied, NoMemory>
    ensures { IfOk result (AreOpeningLiterals aig.now) }
{
    let first = aig.first_latch();
    let mut literals = Vec::with_capacity(alloc, aig.latches().len())?;
    for (place, latch) in aig.latches().iter().enumerate() {
        let own = Lit::new(first + place as u32, false);
        literals.push(opening_literal(latch.reset, own))?;
    }
    Ok(Copied::of(1, literals))
}

/// Returns the map over the values of a circuit's latches at step 0.
pub(crate) fn reset_image(alloc: Global, first: &Aig, map: &Circuit) -> Result<Copied, SharingError>
    requires inputs { map.now.aig.inputs ≡ length first.now.latches }
    requires latches { map.now.aig.latches ≡ [] }
    ensures { IfOk result (IsResetImage first.now map.now.aig) }
{
    let leaves = reset_leaves(alloc, first)?;
    let mut shared = SharedGates::after(alloc, first.first_gate());
    let mut equal = Equalities::none(alloc, first.first_latch());
    let image = copy(&mut shared, &mut equal, map.aig(), leaves)?;
    shared.known();
    Ok(image)
}

/// Returns 1 if the latch is free, else 0.
fn one_if_free(latch: &Latch) -> u32
    ensures value { result ≡ (if is_free latch.now then 1 else 0) }
    ensures small { result ≤ 1 }
{
    u32::from(latch.reset == Reset::Free)
}

/// Counts, for each latch, the free ones before it.
pub fn free_places(alloc: Global, aig: &Aig) -> Result<Vec<u32>, NoMemory>
    ensures { IfOk result (λ places. places.items
        ≡ table 0 (length aig.now.latches) (free_before aig.now)) }
{
    let mut places = Vec::with_capacity(alloc, aig.latches().len())?;
    let mut free = 0;
    for latch in aig.latches() {
        places.push(free)?;
        free += one_if_free(latch);
    }
    Ok(places)
}

/// Returns the place among the free latches of the one with this literal.
pub(crate) fn free_place(aig: &Aig, places: &[u32], lit: Lit) -> Option<u32>
    requires { places.now ≡ table 0 (length aig.now.latches) (free_before aig.now) }
    ensures { IfSome result (IsFreeLatch aig.now lit) }
{
    if lit.is_negated() {
        return None;
    }
    let latch = aig.latch(lit.var())?;
    if latch.reset != Reset::Free {
        return None;
    }
    Some(places[(lit.var() - aig.first_latch()) as usize])
}
