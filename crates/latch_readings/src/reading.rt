//! Whether a list of literals is a reading: whether each latch may read as its literal.
ghost use Rattle.std.specs.Prelude.{◌≡◌, ◌<◌, IfNone, IfSome, Some, length, slice_get, true};
ghost use Rattle.merged_circuits.specs.Readings.{IsReading, ReadsAs, may_merge};
ghost use Rattle.latch_readings.specs.Judgements.{IsMisread, IsOfFirst};

use aig_graph::{Aig, Latch, Lit, Reset};
use clean::{Held, constant_of, own_literal};

/// Returns true if the latch at a place may be merged.
pub(crate) fn may_merge(held: &Held<'_>, place: usize, latch: &Latch) -> bool
    requires { place < length held.now.marks.items }
    ensures { result ≡ may_merge held.now.positions.now place latch.now }
{
    let is_held = held.has(place);
    latch.reset != Reset::Free && !is_held
}

/// Returns true if a literal is that of an earlier latch, as a latch that may be merged may read
/// it. The earlier one may be merged too, and reads as itself. Its literal is negated if the resets
/// differ.
fn reads_as_first(
    aig: &Aig,
    held: &Held<'_>,
    reads: &[Lit],
    place: usize,
    latch: &Latch,
    lit: Lit,
) -> bool
    requires there { slice_get aig.now.latches place ≡ Some latch.now }
    requires held { length held.now.marks.items ≡ length aig.now.latches }
    requires reads { length reads.now ≡ length aig.now.latches }
    ensures so { result ≡ true
        → IsOfFirst aig.now held.now.positions.now reads.now place latch.now lit }
    ensures only { IsOfFirst aig.now held.now.positions.now reads.now place latch.now lit
        → result ≡ true }
{
    if lit.var() < aig.first_latch() {
        return false;
    }
    let earlier = (lit.var() - aig.first_latch()) as usize;
    if earlier >= place {
        return false;
    }
    let first = aig.latches()[earlier];
    let own = own_literal(aig, earlier);
    let started = own.signed_as(constant_of(first.reset));
    let is_first = may_merge(held, earlier, &first) && reads[earlier] == own;
    is_first && lit == started.signed_as(constant_of(latch.reset))
}

/// Returns true if the latch at a place may read as a literal.
fn reads_as(
    aig: &Aig,
    held: &Held<'_>,
    reads: &[Lit],
    place: usize,
    latch: &Latch,
    lit: Lit,
) -> bool
    requires there { slice_get aig.now.latches place ≡ Some latch.now }
    requires held { length held.now.marks.items ≡ length aig.now.latches }
    requires reads { length reads.now ≡ length aig.now.latches }
    ensures so { result ≡ true
        → ReadsAs aig.now held.now.positions.now reads.now place latch.now lit }
    ensures only { ReadsAs aig.now held.now.positions.now reads.now place latch.now lit
        → result ≡ true }
{
    if lit == own_literal(aig, place) {
        return true;
    }
    if !may_merge(held, place, latch) {
        return false;
    }
    lit == constant_of(latch.reset) || reads_as_first(aig, held, reads, place, latch, lit)
}

/// Returns the first place at which a latch may not read as its literal. It is the number of
/// literals if that isn't the number of latches.
pub(crate) fn first_misread(aig: &Aig, held: &Held<'_>, reads: &[Lit]) -> Option<usize>
    requires { length held.now.marks.items ≡ length aig.now.latches }
    ensures reading { IfNone result (IsReading aig.now held.now.positions.now reads.now) }
    ensures misread { IfSome result (IsMisread aig.now held.now.positions.now reads.now) }
{
    if reads.len() != aig.latches().len() {
        return Some(reads.len());
    }
    for (place, latch) in aig.latches().iter().enumerate() {
        if !reads_as(aig, held, reads, place, latch, reads[place]) {
            return Some(place);
        }
    }
    None
}
