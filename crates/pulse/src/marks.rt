//! Marks of the nodes that were delivered since the last turn.
ghost use Rattle.std.specs.Prelude.{◌≡◌, ℕ, ◌<◌, ◌≤◌, IfOk, false, length, slice_index_or};
ghost use Rattle.pulse_parts.specs.Marks.{and_range};

use std::alloc::{AllocError, Global};

/// Returns a mark for each node, none of them set.
pub(crate) fn no_marks(alloc: Global, nodes: u32) -> Result<Vec<bool>, AllocError>
    ensures len { IfOk result (λ v. length v.items ≡ nodes) }
    ensures none { IfOk result (λ v. (u : ℕ) → u < length v.items
        → slice_index_or v.items u false ≡ false) }
{
    vec![in alloc; false; nodes as usize]
}

/// Marks the nodes from `first` up to `end`.
pub(crate) fn mark(delivered: &mut [bool], first: u32, end: u32)
    requires ordered { first ≤ end }
    requires within { end ≤ length delivered.old }
    ensures { (v : ℕ) → v < length delivered.old
        → slice_index_or delivered.new v false
        ≡ and_range (λ u. slice_index_or delivered.old u false) first end v }
{
    for v in first..end {
        delivered[v as usize] = true;
    }
}

/// Takes all marks away.
pub(crate) fn unmark(delivered: &mut [bool])
    ensures { (v : ℕ) → slice_index_or delivered.new v false ≡ false }
{
    for v in 0..delivered.len() {
        delivered[v] = false;
    }
}
