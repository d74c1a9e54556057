//! Looks for an active node: neither source nor sink, with excess, and with a label below the
//! number of nodes.
ghost use Rattle.std.specs.Prelude.{◌≡◌, ◌+◌, ◌<◌, ◌≤◌, ◌^◌, false, true, length};
ghost use Rattle.frame_net.specs.FlowNet.{node_count};
ghost use Rattle.pulse_parts.specs.Listing.{active_in, AreWithin, EachListed, ListActive, ListsActive};
ghost use Rattle.pulse_parts.specs.Parts.{AreFlowParts, LabelsFit, cells_of, pairs};
ghost use Rattle.pulse_parts.specs.Runs.{any_active, HasActive, LacksActive};

use crate::{FlowPart, is_active};
use frame_net::Net;

/// Returns true if some listed node of the part is active.
fn listed_active(nodes: u32, labels: &[u32], part: &FlowPart) -> bool
    requires part { part.now.end ≤ length labels.now }
    requires excess { length part.now.excess.items + part.now.first ≡ part.now.end }
    requires within { AreWithin part.now.first part.now.end part.now.active.nodes.items }
    ensures some { result ≡ true → HasActive nodes labels.now part.now }
    ensures none { result ≡ false → EachListed part.now.active.nodes.items
        (λ v. active_in nodes labels.now part.now.first part.now.excess.items v ≡ false) }
{
    let list = part.active.nodes.as_slice();
    for i in 0..list.len() {
        let v = list[i];
        let excess = part.excess[(v - part.first) as usize];
        if is_active(v, excess, labels[v as usize], nodes) {
            return true;
        }
    }
    false
}

/// Returns true if some node of the part is active, by a visit of all.
fn any_of_all_active(nodes: u32, labels: &[u32], part: &FlowPart) -> bool
    requires few { length labels.now < 2 ^ 32 }
    requires part { part.now.end ≤ length labels.now }
    requires excess { length part.now.excess.items + part.now.first ≡ part.now.end }
    ensures some { result ≡ true → HasActive nodes labels.now part.now }
    ensures none { result ≡ false → LacksActive nodes labels.now part.now }
{
    for i in 0..part.excess.len() {
        let v = part.first + i as u32;
        if is_active(v, part.excess[i], labels[v as usize], nodes) {
            return true;
        }
    }
    false
}

/// Returns true if some node of the part is active. If `listed`, the part's list is of this flow
/// and these labels; if it is complete as well, only its nodes are visited.
fn part_active(nodes: u32, labels: &[u32], part: &FlowPart, listed: bool) -> bool
    requires few { length labels.now < 2 ^ 32 }
    requires part { part.now.end ≤ length labels.now }
    requires excess { length part.now.excess.items + part.now.first ≡ part.now.end }
    requires lists { listed ≡ true → ListsActive nodes labels.now part.now }
    ensures some { result ≡ true → HasActive nodes labels.now part.now }
    ensures none { result ≡ false → LacksActive nodes labels.now part.now }
{
    if listed && part.active.complete {
        listed_active(nodes, labels, part)
    } else {
        any_of_all_active(nodes, labels, part)
    }
}

/// Returns true if some node is active. If `listed`, the parts' lists are of this flow and these
/// labels.
pub fn any_active_node(net: &Net, labels: &[u32], parts: &[FlowPart], listed: bool) -> bool
    requires parts { AreFlowParts net.now 0 parts.now }
    requires labels { LabelsFit net.now labels.now }
    requires lists { listed ≡ true → ListActive (node_count net.now) labels.now parts.now }
    ensures { result ≡ any_active (node_count net.now)
        (pairs net.now (cells_of parts.now) labels.now) }
{
    let nodes = net.nodes();
    for part in parts {
        if part_active(nodes, labels, part, listed) {
            return true;
        }
    }
    false
}
