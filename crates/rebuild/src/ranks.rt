//! The ranks of a few places among marks, each from the one before it: one walk up to the last of
//! them, and no table.
ghost use Rattle.std.specs.Prelude.{ℕ, Bool, ◌≡◌, ◌+◌, ◌≤◌, ◌<◌, All, IfOk, length, map};
ghost use Rattle.std.specs.List.Sorted.{IsStrictlyIncreasing};
ghost use Rattle.aig_graph.specs.Counting.{count_below};
ghost use Rattle.aig_graph.specs.Marking.{AreAllMarks};

use aig_graph::NoMemory;
use std::alloc::Global;

/// Returns the rank of place `to`, the number of marked places before it, by the rank of a place
/// before it.
fn rank_from(marks: &[bool], rank: u32, from: u32, to: u32) -> u32
    requires order { from ≤ to }
    requires within { to ≤ length marks.now }
    requires few { rank ≤ from }
    ensures rank { (first : ℕ) (p : ℕ → Bool) → AreAllMarks first marks.now p
        → rank ≡ count_below p (first + from) → result ≡ count_below p (first + to) }
    ensures few { result ≤ to }
{
    let mut next = rank;
    for k in from..to {
        if marks[k as usize] {
            next += 1;
        }
    }
    next
}

/// Returns the ranks of rising places.
pub(crate) fn ranks_of(alloc: Global, marks: &[bool], places: &[u32]) -> Result<Vec<u32>, NoMemory>
    requires rising { IsStrictlyIncreasing places.now }
    requires within { All (λ place. place < length marks.now) places.now }
    ensures { IfOk result (λ ranks. (first : ℕ) (p : ℕ → Bool) → AreAllMarks first marks.now p
        → ranks.items ≡ map (λ place. count_below p (first + place)) places.now) }
{
    let mut ranks = Vec::with_capacity(alloc, places.len())?;
    let mut rank = 0;
    let mut from = 0;
    for place in places {
        rank = rank_from(marks, rank, from, *place);
        from = *place;
        ranks.push(rank)?;
    }
    Ok(ranks)
}
