//! Values of a range of nodes, copied from parts that are cut at other nodes.
ghost use Rattle.std.specs.Prelude.{◌≡◌, ℕ, ◌+◌, ◌-◌, ◌<◌, ◌≤◌, ◌++◌, IfOk, OnOk, drop, length, slice_index, take};
ghost use Rattle.frame_net.specs.FlowNet.{node_count, start};
ghost use Rattle.pulse_parts.specs.Parts.{AreFlowParts, cells_of};

use crate::FlowPart;
use frame_net::Net;
use std::alloc::{AllocError, Global};

/// Appends the values at the places from `from` up to `to` to `all`.
pub(crate) fn add(
    values: &[u32],
    from: usize,
    to: usize,
    all: &mut Vec<u32>,
) -> Result<(), AllocError>
    requires ordered { from ≤ to }
    requires within { to ≤ length values.now }
    ensures { OnOk result (all.new.items
        ≡ all.old.items ++ take (to - from) (drop from values.now)) }
{
    all.extend_from_slice(&values[from..to])
}

/// Returns the residuals of the arcs of the nodes from `first` up to `end`, copied part by part.
pub(crate) fn copied_residuals(
    alloc: Global,
    net: &Net,
    flow: &[FlowPart],
    first: u32,
    end: u32,
) -> Result<Vec<u32>, AllocError>
    requires flow { AreFlowParts net.now 0 flow.now }
    requires ordered { first ≤ end }
    requires within { end ≤ node_count net.now }
    ensures len { IfOk result (λ v. length v.items + start net.now first ≡ start net.now end) }
    ensures each { IfOk result (λ v. (i : ℕ) → i < length v.items
        → slice_index v.items i ≡ slice_index (cells_of flow.now).residuals
        (start net.now first + i)) }
{
    net.known();
    let mut residuals = Vec::with_capacity(alloc, net.start(end) - net.start(first))?;
    for i in 0..flow.len() {
        let part = &flow[i];
        let low = first.max(part.first);
        let high = end.min(part.end);
        if low < high {
            let from = net.start(low) - part.base;
            let to = net.start(high) - part.base;
            add(part.residuals.as_slice(), from, to, &mut residuals)?;
        }
    }
    Ok(residuals)
}

/// Returns the excess of the nodes from `first` up to `end`, copied part by part.
pub(crate) fn copied_excess(
    alloc: Global,
    net: &Net,
    flow: &[FlowPart],
    first: u32,
    end: u32,
) -> Result<Vec<u32>, AllocError>
    requires flow { AreFlowParts net.now 0 flow.now }
    requires ordered { first ≤ end }
    requires within { end ≤ node_count net.now }
    ensures len { IfOk result (λ v. length v.items + first ≡ end) }
    ensures each { IfOk result (λ v. (i : ℕ) → i < length v.items
        → slice_index v.items i ≡ slice_index (cells_of flow.now).excess (first + i)) }
{
    net.known();
    let mut excess = Vec::with_capacity(alloc, (end - first) as usize)?;
    for i in 0..flow.len() {
        let part = &flow[i];
        let low = first.max(part.first);
        let high = end.min(part.end);
        if low < high {
            let from = (low - part.first) as usize;
            let to = (high - part.first) as usize;
            add(part.excess.as_slice(), from, to, &mut excess)?;
        }
    }
    Ok(excess)
}

/// Returns a copy of the labels of the nodes from `first` up to `end`.
pub(crate) fn copied_labels(
    alloc: Global,
    labels: &[u32],
    first: u32,
    end: u32,
) -> Result<Vec<u32>, AllocError>
    requires ordered { first ≤ end }
    requires within { end ≤ length labels.now }
    ensures len { IfOk result (λ v. length v.items + first ≡ end) }
    ensures each { IfOk result (λ v. (w : ℕ) → first ≤ w → w < end
        → slice_index v.items (w - first) ≡ slice_index labels.now w) }
{
    let mut copy = Vec::with_capacity(alloc, (end - first) as usize)?;
    add(labels, first as usize, end as usize, &mut copy)?;
    Ok(copy)
}
