//! Literals that must be one, and whether they are.
ghost use Rattle.std.specs.Prelude.{ℕ, ◌≡◌, ◌<◌, false, All, IfNone, IfOk, OnOk, length};
ghost use Rattle.std.specs.List.{slice_index_or};
ghost use Rattle.aig_graph.specs.Gates.{Gates};
ghost use Rattle.aig_graph.specs.Graph.{variable};
ghost use Rattle.gate_sharing.specs.Copies.{copied_end, copy_of};
ghost use Rattle.gate_sharing.specs.Equal.{StaysRight};
ghost use Rattle.map_checks.specs.Parts.{AreMarkedEqual, IsMarked};

use aig_graph::{Lit, NoMemory};
use gate_sharing::{Copied, Equalities};
use std::alloc::Global;

/// Returns the first of these literals that isn't 1.
pub(crate) fn first_open(copied: &Copied, lits: &[Lit]) -> Option<usize>
    requires { All (λ lit. variable lit < copied_end copied.now) lits.now }
    ensures { IfNone result (All (λ lit. copy_of copied.now lit ≡ 1) lits.now) }
{
    for (place, lit) in lits.iter().enumerate() {
        if copied.literal(*lit) != Lit::TRUE {
            return Some(place);
        }
    }
    None
}

/// Returns true if there is a mark at a place.
pub(crate) fn is_marked(marks: &[bool], place: usize) -> bool
    ensures { result ≡ slice_index_or marks.now place false }
{
    match marks.get(place) {
        Some(mark) => *mark,
        None => false,
    }
}

/// Returns the first place without a mark.
pub(crate) fn first_unmarked(marks: &[bool]) -> Option<usize>
    ensures { IfNone result ((place : ℕ) → place < length marks.now → IsMarked marks.now place) }
{
    for (place, mark) in marks.iter().enumerate() {
        if !*mark {
            return Some(place);
        }
    }
    None
}

/// Marks the places at which the literals of two lists come down to one.
pub(crate) fn mark_equal(
    alloc: Global,
    equal: &mut Equalities,
    lits: &[Lit],
    others: &[Lit],
) -> Result<Vec<bool>, NoMemory>
    requires { length lits.now ≡ length others.now }
    ensures right { OnOk result (StaysRight equal.old equal.new) }
    ensures long { IfOk result (λ marks. length marks.items ≡ length lits.now) }
    ensures equal { IfOk result (λ marks. (k : Gates)
        → AreMarkedEqual k equal.old lits.now others.now marks.items) }
{
    let mut marks = Vec::with_capacity(alloc, lits.len())?;
    for (place, lit) in lits.iter().enumerate() {
        let root = equal.find(*lit);
        marks.push(root == equal.find(others[place]))?;
    }
    Ok(marks)
}
