//! Gathers the nodes of a part that have something to do in a delivery. They are active, push, or
//! are pushed to.
//!
//! A list has room for each node of the part once. A node may be added more than once, until `rise`
//! leaves it once. The list isn't complete if its room is full before that, or a list that it is
//! made of isn't complete. Then all nodes of the part are visited.
ghost use Rattle.std.specs.Prelude.{◌≡◌, ◌+◌, ◌<◌, ◌≤◌, true, length};
ghost use Rattle.frame_net.specs.FlowNet.{node_count};
ghost use Rattle.pulse_parts.specs.Parts.{ArePushParts, FlowPartFits, LabelsFit, values_of};
ghost use Rattle.pulse_parts.specs.Listing.{active_by, active_in, AreWithin, EachListed, Extends, IsListed, ListsActive};
ghost use Rattle.pulse_parts.specs.Visiting.{AllPushesListed, HeadsListed, ListsWork, PushesListed};

use crate::node_list::NodeList;
use crate::parts::{FlowPart, PushPart};
use crate::places::push_row;
use frame_net::Net;

/// Returns true if node `v` of `nodes` nodes, with this excess and label, is active.
pub fn is_active(v: u32, excess: u32, label: u32, nodes: u32) -> bool
    ensures { result ≡ active_by nodes v excess label }
{
    v > 1 && excess > 0 && label < nodes
}

/// Adds the listed nodes that are active.
fn add_active(
    nodes: u32,
    labels: &[u32],
    first: u32,
    excess: &[u32],
    listed: &[u32],
    list: &mut NodeList,
)
    requires listed { AreWithin first (first + length excess.now) listed.now }
    requires labels { first + length excess.now ≤ length labels.now }
    ensures extends { Extends first (first + length excess.now) list.old list.new }
    ensures active { list.new.complete ≡ true
        → EachListed listed.now (λ v. active_in nodes labels.now first excess.now v ≡ true
        → IsListed list.new.nodes.items v) }
{
    for i in 0..listed.len() {
        let v = listed[i];
        let had = excess[(v - first) as usize];
        if is_active(v, had, labels[v as usize], nodes) {
            list.add(v);
        }
    }
}

/// Adds the nodes from `first` up to `end` to which node `u` pushes.
fn add_heads(net: &Net, pushes: &[PushPart], u: u32, first: u32, end: u32, list: &mut NodeList)
    requires pushes { ArePushParts net.now 0 pushes.now }
    requires u { u < node_count net.now }
    ensures extends { Extends first end list.old list.new }
    ensures heads { list.new.complete ≡ true
        → HeadsListed net.now (values_of pushes.now) first end list.new.nodes.items u }
{
    net.known();
    let heads = net.heads(u);
    let row = push_row(pushes, net, u);
    for k in 0..heads.len() {
        let w = heads[k];
        if row[k] > 0 && w >= first && w < end {
            list.add(w);
        }
    }
}

/// Adds node `u`, unless the list has it at `place`, and the nodes to which it pushes. Only nodes
/// from `first` up to `end` are added.
fn add_from(
    net: &Net,
    pushes: &[PushPart],
    u: u32,
    place: usize,
    first: u32,
    end: u32,
    list: &mut NodeList,
)
    requires pushes { ArePushParts net.now 0 pushes.now }
    requires u { u < node_count net.now }
    ensures extends { Extends first end list.old list.new }
    ensures listed { list.new.complete ≡ true
        → PushesListed net.now (values_of pushes.now) first end list.new.nodes.items u }
{
    if u >= first && u < end && !list.has_at(place, u) {
        list.add(u);
    }
    add_heads(net, pushes, u, first, end, list);
}

/// Adds the nodes of one list that push, and those to which they push. They come in the order of
/// the active nodes, with which `list` begins.
fn add_pushes(
    net: &Net,
    pushes: &[PushPart],
    from: &[u32],
    first: u32,
    end: u32,
    list: &mut NodeList,
)
    requires pushes { ArePushParts net.now 0 pushes.now }
    requires from { AreWithin 0 (node_count net.now) from.now }
    ensures extends { Extends first end list.old list.new }
    ensures listed { list.new.complete ≡ true → EachListed from.now
        (PushesListed net.now (values_of pushes.now) first end list.new.nodes.items) }
{
    for i in 0..from.len() {
        add_from(net, pushes, from[i], i, first, end, list);
    }
}

/// Adds all nodes from `first` up to `end` that push or are pushed to. If a part doesn't list its
/// nodes that push, the list isn't complete.
fn add_all_pushes(net: &Net, pushes: &[PushPart], first: u32, end: u32, list: &mut NodeList)
    requires pushes { ArePushParts net.now 0 pushes.now }
    ensures extends { Extends first end list.old list.new }
    ensures listed { list.new.complete ≡ true
        → AllPushesListed net.now (values_of pushes.now) first end list.new.nodes.items }
{
    net.known();
    for i in 0..pushes.len() {
        let part = &pushes[i];
        if !part.pushing.complete {
            list.forget();
            return;
        }
        let from = part.pushing.nodes.as_slice();
        add_pushes(net, pushes, from, first, end, list);
    }
}

/// Lists in `spare` the nodes of a part that have something to do, rising. The list is complete if
/// those that it is made of are complete and there is room. If `listed`, these are lists of this
/// flow and of these pushes.
pub(crate) fn gather(
    net: &Net,
    labels: &[u32],
    pushes: &[PushPart],
    part: &mut FlowPart,
    listed: bool,
)
    requires pushes { ArePushParts net.now 0 pushes.now }
    requires labels { LabelsFit net.now labels.now }
    requires part { FlowPartFits net.now part.old }
    requires active { listed ≡ true → ListsActive (node_count net.now) labels.now part.old }
    ensures same { part.new ≡ record part.old { spare = part.new.spare } }
    ensures work { part.new.spare.complete ≡ true
        → ListsWork net.now labels.now (values_of pushes.now) part.new }
{
    net.known();
    let nodes = net.nodes();
    let first = part.first;
    let end = part.end;
    part.spare.begin();
    if listed && part.active.complete {
        let actives = part.active.nodes.as_slice();
        add_active(
            nodes,
            labels,
            first,
            part.excess.as_slice(),
            actives,
            &mut part.spare,
        );
        add_all_pushes(net, pushes, first, end, &mut part.spare);
        part.spare.rise();
    } else {
        part.spare.forget();
    }
}
