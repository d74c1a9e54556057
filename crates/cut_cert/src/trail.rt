//! The nodes of a walk, each of them marked and none twice.
ghost use Rattle.std.specs.Prelude.{◌≡◌, ◌<◌, ◌++◌, ◌∷◌, [], IfOk, OnOk, MatchOption, true, false, length, replicate, reverse};
ghost use Rattle.aig_graph.specs.Marking.{has};
ghost use Rattle.frame_net.specs.FlowNet.{node_count};
ghost use Rattle.cut_cert.specs.Walks.{AreOn, ComesTo, points_of};

use aig_graph::NoMemory;
use frame_net::{Net, Point};
use std::alloc::Global;

/// Returns marks of `nodes` nodes, none of which is set.
pub(crate) fn no_marks(alloc: Global, nodes: u32) -> Result<Vec<bool>, NoMemory>
    ensures { IfOk result (λ marks. marks.items ≡ replicate nodes false) }
{
    let marks = vec![in alloc; false; nodes as usize]?;
    Ok(marks)
}

/// Appends a node that isn't marked.
pub(crate) fn push_marked(
    nodes: &mut Vec<u32>,
    marks: &mut [bool],
    node: u32,
) -> Result<(), NoMemory>
    requires within { node < length marks.old }
    requires new { has (reverse nodes.old.items) node ≡ false }
    requires on { AreOn (length marks.old) marks.old (reverse nodes.old.items) }
    ensures nodes { OnOk result (reverse nodes.new.items ≡ node ∷ reverse nodes.old.items) }
    ensures on { OnOk result (AreOn (length marks.old) marks.new (reverse nodes.new.items)) }
{
    nodes.push(node)?;
    marks[node as usize] = true;
    Ok(())
}

/// Takes the last node off the trail.
fn pop_marked(nodes: &mut Vec<u32>, marks: &mut [bool]) -> Option<u32>
    requires on { AreOn (length marks.old) marks.old (reverse nodes.old.items) }
    ensures nodes { MatchOption result (reverse nodes.old.items ≡ [])
        (λ node. reverse nodes.old.items ≡ node ∷ reverse nodes.new.items) }
    ensures on { MatchOption result (AreOn (length marks.old) marks.new [])
        (λ node. AreOn (length marks.old) marks.new (reverse nodes.new.items)) }
{
    let node = nodes.pop()?;
    marks[node as usize] = false;
    Some(node)
}

/// Takes `node`, which is on the trail, and all nodes after it off the trail.
fn forget_loop(nodes: &mut Vec<u32>, marks: &mut [bool], node: u32)
    requires there { has (reverse nodes.old.items) node ≡ true }
    requires on { AreOn (length marks.old) marks.old (reverse nodes.old.items) }
    ensures to { ComesTo node (reverse nodes.old.items) (reverse nodes.new.items) }
    ensures on { AreOn (length marks.old) marks.new (reverse nodes.new.items) }
{
    while let Some(last) = pop_marked(nodes, marks) {
        if last == node {
            return;
        }
    }
}

/// Takes `node` and all nodes after it off the trail, if a walk comes back to `node`.
pub(crate) fn come_to(nodes: &mut Vec<u32>, marks: &mut [bool], node: u32)
    requires within { node < length marks.old }
    requires on { AreOn (length marks.old) marks.old (reverse nodes.old.items) }
    ensures to { ComesTo node (reverse nodes.old.items) (reverse nodes.new.items) }
    ensures on { AreOn (length marks.old) marks.new (reverse nodes.new.items) }
{
    if marks[node as usize] {
        forget_loop(nodes, marks, node);
    }
}

/// Takes all nodes off the trail, and returns their points, the last first.
pub(crate) fn take_points(
    alloc: Global,
    net: &Net,
    nodes: &mut Vec<u32>,
    marks: &mut [bool],
) -> Result<Vec<Point>, NoMemory>
    requires sized { length marks.old ≡ node_count net.now }
    requires on { AreOn (length marks.old) marks.old (reverse nodes.old.items) }
    ensures points { IfOk result (λ points. points.items
        ≡ points_of net.now (reverse nodes.old.items)) }
    ensures on { OnOk result (AreOn (length marks.old) marks.new []) }
{
    let mut points = Vec::with_capacity(alloc, nodes.len())?;
    while let Some(node) = pop_marked(nodes, marks) {
        if let Some(point) = net.point(node) {
            points.push(point)?;
        }
    }
    Ok(points)
}
