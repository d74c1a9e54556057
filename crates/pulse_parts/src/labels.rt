//! The labels of all nodes, which the new ones replace at the end of a pulse.
ghost use Rattle.std.specs.Prelude.{◌≡◌, ℕ, ◌+◌, ◌-◌, ◌<◌, ◌≤◌, ◌⊎◌, IfOk, true, length, slice_index};
ghost use Rattle.frame_net.specs.FlowNet.{node_count};
ghost use Rattle.pulse_parts.specs.Listing.{AreWithin, EachListed, IsListed};
ghost use Rattle.pulse_parts.specs.Parts.{cells_of};
ghost use Rattle.pulse_parts.specs.Start.{LabelsStart};
ghost use Rattle.pulse_parts.specs.Labels.{AreLabelled, HasLabels, HoldLabels, HoldsLabels, KeepLabels, KeepsLabels};

use crate::FlowPart;
use frame_net::Net;
use std::alloc::{AllocError, Global};

/// Returns the labels at the start: the number of nodes at the source, else 0.
pub fn start_labels(alloc: Global, net: &Net) -> Result<Vec<u32>, AllocError>
    ensures len { IfOk result (λ v. length v.items ≡ node_count net.now) }
    ensures each { IfOk result (λ v. LabelsStart net.now v.items) }
{
    net.known();
    let nodes = net.nodes();
    let mut labels = vec![in alloc; 0u32; nodes as usize]?;
    labels[0] = nodes;
    Ok(labels)
}

/// Replaces the labels of the listed nodes by their new ones.
fn turn_listed(labels: &mut [u32], first: u32, next: &[u32], list: &[u32])
    requires list { AreWithin first (first + length next.now) list.now }
    requires labels { first + length next.now ≤ length labels.old }
    ensures listed { EachListed list.now
        (λ v. slice_index labels.new v ≡ slice_index next.now (v - first)) }
    ensures others { (v : ℕ) → IsListed list.now v
        ⊎ (slice_index labels.new v ≡ slice_index labels.old v) }
{
    for i in 0..list.len() {
        let v = list[i];
        labels[v as usize] = next[(v - first) as usize];
    }
}

/// Replaces the labels of a part's nodes by their new ones. If `listed`, no label changes outside
/// of the part's list; if that is complete as well, only its nodes are copied.
fn turn_part(labels: &mut [u32], part: &FlowPart, listed: bool)
    requires part { part.now.end ≤ length labels.old }
    requires next { length part.now.next.items + part.now.first ≡ part.now.end }
    requires lists { listed ≡ true → part.now.active.complete ≡ true
        → KeepsLabels labels.old part.now }
    ensures here { (v : ℕ) → part.now.first ≤ v → v < part.now.end
        → slice_index labels.new v ≡ slice_index part.now.next.items (v - part.now.first) }
    ensures others { (v : ℕ) → (v < part.now.first) ⊎ (part.now.end ≤ v)
        → slice_index labels.new v ≡ slice_index labels.old v }
{
    if listed && part.active.complete {
        let list = part.active.nodes.as_slice();
        turn_listed(labels, part.first, part.next.as_slice(), list);
    } else {
        labels[part.first as usize..part.end as usize].copy_from_slice(part.next.as_slice());
    }
}

/// Replaces the labels by the new ones. If `listed`, no label changes outside of the parts'
/// complete lists.
pub fn turn(labels: &mut [u32], parts: &[FlowPart], listed: bool)
    requires parts { AreLabelled (length labels.old) 0 parts.now }
    requires lists { listed ≡ true → KeepLabels labels.old parts.now }
    ensures { (v : ℕ) → v < length labels.old
        → slice_index labels.new v ≡ slice_index (cells_of parts.now).next v }
{
    for part in parts {
        turn_part(labels, part, listed);
    }
}

/// Makes the labels of a part's nodes their new labels too.
fn hold_part(labels: &[u32], part: &mut FlowPart)
    requires { HasLabels (length labels.now) part.old }
    ensures { HoldsLabels labels.now part.old part.new }
{
    let own = &labels[part.first as usize..part.end as usize];
    part.next.as_mut_slice().copy_from_slice(own);
}

/// Makes the labels the new labels too, as they are between two pulses if lists are to hold.
pub fn hold_labels(labels: &[u32], parts: &mut [FlowPart])
    requires { AreLabelled (length labels.now) 0 parts.old }
    ensures len { length parts.new ≡ length parts.old }
    ensures each { HoldLabels labels.now parts.old parts.new }
{
    for i in 0..parts.len() {
        hold_part(labels, &mut parts[i]);
    }
}
