//! The judge of classes of latches, over gates in which each literal reads its substitute already.
//! It judges if a latch and its reading have equal signatures. Nobody has to believe how the
//! classes were found.
ghost use Rattle.std.specs.Prelude.{◌≡◌, true, IfOk, IfNone};
ghost use Rattle.unit_refutations.specs.Classes.{AreAlike, IsAlike, told};

use crate::probing::equal_by_probing;
use crate::propagating::Propagation;
use aig_graph::{Aig, Latch, Lit, NoMemory, opening_literal};
use std::alloc::Global;

/// Returns a latch's signature: its next literal, negated if its reset is 1.
fn told(latch: &Latch) -> Lit
    ensures { result ≡ told latch.now }
{
    latch
        .next
        .signed_as(opening_literal(latch.reset, Lit::FALSE))
}

/// Returns true if the latch at a place and its reading are shown to have equal signatures.
fn is_alike(
    alloc: Global,
    propagation: &mut Propagation,
    aig: &Aig,
    place: usize,
    reads: Lit,
) -> Result<bool, NoMemory>
    ensures { IfOk result (λ alike. alike ≡ true → IsAlike aig.now place reads) }
{
    let Some(latch) = aig.latches().get(place) else {
        return Ok(true);
    };
    if reads.var() == 0 {
        return equal_by_probing(alloc, propagation, aig, told(latch), Lit::FALSE);
    }
    match aig.latch(reads.var()) {
        Some(first) => equal_by_probing(alloc, propagation, aig, told(latch), told(&first)),
        None => Ok(true),
    }
}

/// Returns the first latch whose reading isn't shown to have its signature, with `visits` visits of
/// gates for each latch.
///
/// # Errors
///
/// `NoMemory` if memory is refused.
pub fn first_open(
    alloc: Global,
    propagation: &mut Propagation,
    aig: &Aig,
    reads: &[Lit],
    visits: u32,
) -> Result<Option<usize>, NoMemory>
    ensures { IfOk result (λ first. IfNone first (AreAlike aig.now reads.now)) }
{
    for (place, lit) in reads.iter().enumerate() {
        propagation.allow(visits);
        if !is_alike(alloc, propagation, aig, place, *lit)? {
            return Ok(Some(place));
        }
    }
    Ok(None)
}
