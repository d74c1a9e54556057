//! The judge of a reading: the latches begin as what they read as, and are told what that is told.
ghost use Rattle.std.specs.Prelude.{ℕ, ◌≡◌, true, List, IfOk, IfSome};
ghost use Rattle.unit_refutations.specs.Classes.{AreAlike};
ghost use Rattle.pair_checks.specs.Openings.{openings};
ghost use Rattle.pair_checks.specs.Pairs.{IsInductive};
ghost use Rattle.pair_checks.specs.Sides.{IsPair};

use crate::pairs::{Pair, paired};
use crate::readings::begin_alike;
use aig_graph::{Aig, Lit, NoMemory};
use gate_sharing::SharingError;
use std::alloc::Global;
use unit_refutations::{Propagation, first_open};

/// How many visits of gates the question of a latch may take.
pub(crate) const VISITS: u32 = 200_000;

/// Returns true if the latches are told what that is told which they read as.
fn are_told_alike(alloc: Global, pair: &Pair, reads: &[Lit]) -> Result<bool, NoMemory>
    ensures { IfOk result (λ alike. alike ≡ true → AreAlike pair.now.graph reads.now) }
{
    let mut propagation = Propagation::of(alloc, &pair.graph)?;
    let open = first_open(alloc, &mut propagation, &pair.graph, reads, VISITS)?;
    Ok(open.is_none())
}

/// Returns the pair of two circuits whose latches read as these, if it is shown that they always
/// hold what they read as. They begin as `begins` says.
pub(crate) fn judged(
    alloc: Global,
    first: &Aig,
    second: &Aig,
    begins: &[Lit],
    reads: &[Lit],
) -> Result<Option<Pair>, SharingError>
    requires { second.now.inputs ≡ first.now.inputs }
    ensures pair { IfOk result (λ found. IfSome found (IsPair first.now second.now reads.now)) }
    ensures inductive { IfOk result (λ found. IfSome found (λ pair. (kept : List ℕ)
        → begins.now ≡ openings first.now second.now kept
        → IsInductive first.now second.now kept reads.now)) }
{
    first.known();
    second.known();
    if !begin_alike(first.first_latch(), begins, reads) {
        return Ok(None);
    }
    let Some(pair) = paired(alloc, first, second, reads)? else {
        return Ok(None);
    };
    pair.graph.known();
    if are_told_alike(alloc, &pair, reads)? {
        Ok(Some(pair))
    } else {
        Ok(None)
    }
}
