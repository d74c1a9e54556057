//! The parts of a step are shown by sharing gates alone if that is enough, as it is for the maps of
//! this program's retimings. Else they are shown by cases. What cases show beside the part for
//! which they were made counts too.
ghost use Rattle.std.specs.Prelude.{◌≡◌, [], IfNone, IfOk, IfSome, OnOk};
ghost use Rattle.map_checks.specs.Answers.{AreFitting, KeepsStates};
ghost use Rattle.map_checks.specs.Parts.{AreShownWhere, IsTree};

use crate::cases::{Asked, Look, first_look};
use crate::comparing::{first_unmarked, is_marked};
use crate::trees::{Tree, step};
use aig_graph::Circuit;
use gate_sharing::SharingError;
use std::alloc::Global;

/// How many cases are asked for one part at most.
const FOR_ONE: u32 = 100;

/// How many are asked for all.
const FOR_ALL: u32 = 400;

/// Asks the cases of a tree for a part, and marks the parts that all of its cases show. Returns how
/// many cases it may ask yet.
fn settle(
    alloc: Global,
    first: &Circuit,
    second: &Circuit,
    map: &Circuit,
    part: usize,
    tree: Tree,
    marks: &mut Vec<bool>,
) -> Result<u32, SharingError>
    requires fitting { AreFitting first.now second.now map.now }
    requires latches { map.now.aig.latches ≡ [] }
    requires tree { IsTree first.now second.now map.now tree.pending.items tree.shown.items }
    requires shown { AreShownWhere first.now second.now map.now [] marks.old.items }
    ensures { OnOk result (AreShownWhere first.now second.now map.now [] marks.new.items) }
{
    let mut tree = tree;
    for _ in 0..tree.left {
        step(alloc, first, second, map, part, &mut tree)?;
    }
    tree.add_to(marks);
    Ok(tree.left)
}

/// Returns the first part of a step that isn't shown.
pub(crate) fn first_open_part(
    alloc: Global,
    first: &Circuit,
    second: &Circuit,
    map: &Circuit,
) -> Result<Option<usize>, SharingError>
    requires fitting { AreFitting first.now second.now map.now }
    requires latches { map.now.aig.latches ≡ [] }
    ensures { IfOk result (λ part. IfNone part (KeepsStates first.now second.now map.now)) }
{
    first.known();
    second.known();
    map.known();
    let Look {
        mut marks,
        mut asked,
    } = first_look(alloc, first, second, map)?;
    let mut left = FOR_ALL;
    for _ in 0..FOR_ALL {
        let Some(part) = first_unmarked(marks.as_slice()) else {
            return Ok(None);
        };
        let share = left.min(FOR_ONE);
        let tree = Tree::of(alloc, marks.len(), share, asked.take())?;
        let rest = settle(alloc, first, second, map, part, tree, &mut marks)?;
        left = left.saturating_sub(share).saturating_add(rest);
        if !is_marked(marks.as_slice(), part) {
            return Ok(Some(part));
        }
    }
    Ok(first_unmarked(marks.as_slice()))
}
