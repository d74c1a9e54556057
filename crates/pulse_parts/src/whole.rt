//! Delivers a whole part. If lists name the nodes that have something to do, only these are
//! visited.
//!
//! `pulse` decides if lists are of this flow and of these pushes, and hands that on as `listed`.
//! `active` is the list that stands; `spare` is room for another, in which the nodes of this
//! delivery are gathered; then the two change places.
ghost use Rattle.std.specs.Prelude.{◌≡◌, ◌+◌, ◌<◌, ◌≤◌, ◌^◌, true, length};
ghost use Rattle.frame_net.specs.FlowNet.{node_count};
ghost use Rattle.pulse_parts.specs.Parts.{ArePushParts, FlowPartFits, LabelsFit, values_of};
ghost use Rattle.pulse_parts.specs.Delivering.{PartDelivered, PartSafe};
ghost use Rattle.pulse_parts.specs.Listing.{HasTurning, ListsActive, ListsTurning, SparesTurning};
ghost use Rattle.pulse_parts.specs.Visiting.{ListsWork};

use crate::delivering::{deliver_at, deliver_part};
use crate::gathering::{gather, is_active};
use crate::node_list::NodeList;
use crate::parts::{FlowPart, PushPart};
use frame_net::Net;
use std::mem;

/// Delivers the nodes of a part that `spare` lists. The others have nothing to do.
fn deliver_listed(net: &Net, labels: &[u32], pushes: &[PushPart], part: &mut FlowPart)
    requires pushes { ArePushParts net.now 0 pushes.now }
    requires labels { LabelsFit net.now labels.now }
    requires part { FlowPartFits net.now part.old }
    requires safe { PartSafe net.now (values_of pushes.now) 0 (node_count net.now) part.old }
    requires work { ListsWork net.now labels.now (values_of pushes.now) part.old }
    ensures delivered { PartDelivered net.now labels.now (values_of pushes.now) 0
        (node_count net.now) part.old part.new }
    ensures turning { SparesTurning (node_count net.now) labels.now part.new }
{
    net.known();
    for i in 0..part.spare.nodes.len() {
        let v = part.spare.nodes[i];
        deliver_at(net, labels, pushes, v, part);
    }
}

/// Makes a list of the nodes from `first` on that are active by their new labels or whose labels
/// change.
fn list_turning(
    nodes: u32,
    labels: &[u32],
    first: u32,
    excess: &[u32],
    next: &[u32],
    list: &mut NodeList,
)
    requires labels { first + length excess.now ≤ length labels.now }
    requires few { length labels.now < 2 ^ 32 }
    requires next { length next.now ≡ length excess.now }
    ensures { list.new.complete ≡ true → HasTurning nodes labels.now first
        (first + length excess.now) excess.now next.now list.new.nodes.items }
{
    list.begin();
    for i in 0..excess.len() {
        let v = first + i as u32;
        let label = labels[v as usize];
        if next[i] != label || is_active(v, excess[i], label, nodes) {
            list.add(v);
        }
    }
}

/// Delivers all nodes of a part. If `listed`, the lists of the parts are of this flow and of these
/// pushes. If they are complete as well and leave room, only the nodes that they name are visited.
/// The list of the part's nodes that may be active by their new labels is made anew.
pub fn deliver_whole(
    net: &Net,
    labels: &[u32],
    pushes: &[PushPart],
    part: &mut FlowPart,
    listed: bool,
)
    requires pushes { ArePushParts net.now 0 pushes.now }
    requires labels { LabelsFit net.now labels.now }
    requires part { FlowPartFits net.now part.old }
    requires safe { PartSafe net.now (values_of pushes.now) 0 (node_count net.now) part.old }
    requires active { listed ≡ true → ListsActive (node_count net.now) labels.now part.old }
    ensures delivered { PartDelivered net.now labels.now (values_of pushes.now) 0
        (node_count net.now) part.old part.new }
    ensures turning { ListsTurning (node_count net.now) labels.now part.new }
{
    let nodes = net.nodes();
    gather(net, labels, pushes, part, listed);
    if part.spare.complete {
        deliver_listed(net, labels, pushes, part);
        mem::swap(&mut part.active, &mut part.spare);
    } else {
        deliver_part(net, labels, pushes, part, 0, nodes);
        list_turning(
            nodes,
            labels,
            part.first,
            part.excess.as_slice(),
            part.next.as_slice(),
            &mut part.active,
        );
    }
}
