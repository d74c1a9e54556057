//! Both circuits as one graph over the same inputs, in which their latches read as given literals.
ghost use Rattle.std.specs.Prelude.{◌≡◌, ◌≤◌, true, All, IfOk, IfSome, drop, length, take};
ghost use Rattle.pair_checks.specs.Sides.{IsPair, IsRead};

use aig_graph::{Aig, Lit, MAX_VARIABLES};
use gate_sharing::{Copied, SharedCircuits, SharingError, leaves_below};
use std::alloc::Global;

/// The graph, and for each variable of both circuits a literal of it.
pub(crate) struct Pair {
    pub(crate) graph: Aig,
    pub(crate) first: Copied,
    pub(crate) second: Copied,
}

impl Drop for Pair {
    // written out: docs/PROOFS.md, Drops and exits
    fn drop(self) {
        let Pair {
            graph: _graph,
            first: _first,
            second: _second,
        } = self;
    }
}

/// Returns true if a literal is a constant, or that of a latch.
fn is_read(first: u32, end: u32, lit: Lit) -> bool
    ensures { result ≡ true → IsRead first end lit }
{
    lit.var() == 0 || first <= lit.var() && lit.var() < end
}

/// Returns true if all literals are constants, or those of latches.
fn are_read(first: u32, end: u32, reads: &[Lit]) -> bool
    ensures { result ≡ true → All (IsRead first end) reads.now }
{
    reads.iter().all(|lit| is_read(first, end, *lit))
}

/// Returns what the `count` latches of the first circuit read as.
fn front(reads: &[Lit], count: usize) -> &[Lit]
    requires { count ≤ length reads.now }
    ensures { result.now ≡ take count reads.now }
{
    &reads[..count]
}

/// Returns what the latches of the second circuit read as, after `count` of the first.
fn back(reads: &[Lit], count: usize) -> &[Lit]
    requires { count ≤ length reads.now }
    ensures { result.now ≡ drop count reads.now }
{
    &reads[count..]
}

/// Returns the pair of two circuits whose latches read as these, those of the first before the
/// others. There is none if there aren't as many, or if one reads as something else than a constant
/// or a latch.
pub(crate) fn paired(
    alloc: Global,
    first: &Aig,
    second: &Aig,
    reads: &[Lit],
) -> Result<Option<Pair>, SharingError>
    requires { second.now.inputs ≡ first.now.inputs }
    ensures { IfOk result (λ found. IfSome found (IsPair first.now second.now reads.now)) }
{
    first.known();
    second.known();
    let count = first.latches().len();
    let end = first.first_gate() as usize + second.latches().len();
    if end > MAX_VARIABLES {
        return Err(SharingError::TooLarge);
    }
    let end = end as u32;
    let var = first.first_latch();
    if reads.len() != count + second.latches().len() {
        return Ok(None);
    }
    if !are_read(var, end, reads) {
        return Ok(None);
    }
    let Some(leaves) = leaves_below(alloc, var, front(reads, count), end)? else {
        return Ok(None);
    };
    let Some(others) = leaves_below(alloc, var, back(reads, count), end)? else {
        return Ok(None);
    };
    let (one, of_first) = SharedCircuits::after(alloc, end).with(alloc, first, leaves)?;
    let (both, of_second) = one.with(alloc, second, others)?;
    Ok(Some(Pair {
        graph: both.graph(alloc)?,
        first: of_first,
        second: of_second,
    }))
}
