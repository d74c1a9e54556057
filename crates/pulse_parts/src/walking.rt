//! Reads a whole part. Only the rows of its active nodes are walked, since each other node pushes
//! nothing.
//!
//! In this file `list` and `listed` are about the flow's list of nodes that may be active.
ghost use Rattle.std.specs.Prelude.{◌≡◌, ◌<◌, IfSome, true, false};
ghost use Rattle.frame_net.specs.FlowNet.{node_count};
ghost use Rattle.pulse_parts.specs.Parts.{AreFlowParts, HasRow, KeepsNodes, LabelsFit, PushPartFits, cells_of};
ghost use Rattle.pulse_parts.specs.Reading.{CoversActive, HoldsZeros, PartWalks, WholeRead, cells_active};
ghost use Rattle.pulse_parts.specs.Listing.{ListActive, ListsRange};

use crate::clearing::clear_part;
use crate::parts::{FlowPart, PushPart};
use crate::reading::{is_active, walk_at};
use frame_net::Net;

/// Reads node `v` of a part if it is active, into a row of 0s.
fn visit(net: &Net, labels: &[u32], flow: &[FlowPart], v: u32, part: &mut PushPart)
    requires labels { LabelsFit net.now labels.now }
    requires flow { AreFlowParts net.now 0 flow.now }
    requires v { v < node_count net.now }
    requires row { HasRow net.now v part.old }
    ensures same { KeepsNodes part.old part.new }
    ensures active { cells_active net.now labels.now (cells_of flow.now) v ≡ true
        → PartWalks net.now labels.now v (cells_of flow.now) part.old part.new }
    ensures idle { cells_active net.now labels.now (cells_of flow.now) v ≡ false
        → part.new ≡ part.old }
{
    if is_active(net, labels, flow, v) {
        let base = part.base;
        let values = part.values.as_mut_slice();
        walk_at(net, labels, flow, v, base, values, &mut part.walked);
        part.pushing.add(v);
    }
}

/// Reads the active nodes of a part, whose rows are 0s. They become the list of its nodes that
/// push, and their number is that of the rows walked.
fn walk_all(net: &Net, labels: &[u32], flow: &[FlowPart], part: &mut PushPart)
    requires labels { LabelsFit net.now labels.now }
    requires flow { AreFlowParts net.now 0 flow.now }
    requires part { PushPartFits net.now part.old }
    requires zero { HoldsZeros net.now part.old }
    ensures { WholeRead net.now labels.now (cells_of flow.now) part.old part.new }
{
    net.known();
    let (first, end) = (part.first, part.end);
    part.pushing.begin();
    part.walked = 0;
    for v in first..end {
        visit(net, labels, flow, v, part);
    }
}

/// Does what `walk_all` does, by a visit of the listed nodes, which rise and have all active ones
/// of the part.
fn walk_listed(net: &Net, labels: &[u32], flow: &[FlowPart], list: &[u32], part: &mut PushPart)
    requires labels { LabelsFit net.now labels.now }
    requires flow { AreFlowParts net.now 0 flow.now }
    requires list { CoversActive net.now labels.now
        (cells_of flow.now) part.old.first part.old.end list.now }
    requires part { PushPartFits net.now part.old }
    requires zero { HoldsZeros net.now part.old }
    ensures { WholeRead net.now labels.now (cells_of flow.now) part.old part.new }
{
    net.known();
    part.pushing.begin();
    part.walked = 0;
    for i in 0..list.len() {
        visit(net, labels, flow, list[i], part);
    }
}

/// Returns the place of the part of the flow that has the nodes from `first` up to `end` and lists
/// the active ones. Returns none if the flow's parts are cut at other nodes.
fn listing_part(flow: &[FlowPart], first: u32, end: u32, listed: bool) -> Option<usize>
    ensures { IfSome result (λ i. ListsRange flow.now listed first end i) }
{
    if !listed {
        return None;
    }
    for i in 0..flow.len() {
        let part = &flow[i];
        if part.first == first && part.end == end && part.active.complete {
            return Some(i);
        }
    }
    None
}

/// Reads all nodes of a part, whose rows are 0s.
fn walk_part(net: &Net, labels: &[u32], flow: &[FlowPart], part: &mut PushPart, listed: bool)
    requires labels { LabelsFit net.now labels.now }
    requires flow { AreFlowParts net.now 0 flow.now }
    requires part { PushPartFits net.now part.old }
    requires zero { HoldsZeros net.now part.old }
    requires listed { listed ≡ true → ListActive (node_count net.now) labels.now flow.now }
    ensures { WholeRead net.now labels.now (cells_of flow.now) part.old part.new }
{
    net.known();
    match listing_part(flow, part.first, part.end, listed) {
        Some(i) => {
            let list = flow[i].active.nodes.as_slice();
            walk_listed(net, labels, flow, list, part);
        }
        None => walk_all(net, labels, flow, part),
    }
}

/// Reads all nodes of a part. It walks the rows of the active nodes, which become the list of those
/// that push, and counts them from 0. If `listed`, the flow's parts list the active nodes.
pub fn read_whole(net: &Net, labels: &[u32], flow: &[FlowPart], part: &mut PushPart, listed: bool)
    requires labels { LabelsFit net.now labels.now }
    requires flow { AreFlowParts net.now 0 flow.now }
    requires part { PushPartFits net.now part.old }
    requires listed { listed ≡ true → ListActive (node_count net.now) labels.now flow.now }
    ensures { WholeRead net.now labels.now (cells_of flow.now) part.old part.new }
{
    clear_part(net, part);
    walk_part(net, labels, flow, part, listed);
}
