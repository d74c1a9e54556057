//! Parts for the ranges of a crew: worker i of n has the nodes from i*N/n up to (i+1)*N/n.
ghost use Rattle.std.specs.Prelude.{◌≡◌, ◌<◌, ◌≤◌, IfOk, length, replicate, slice_index};
ghost use Rattle.frame_net.specs.FlowNet.{node_count};
ghost use Rattle.pulse_parts.specs.Listing.{ListActive, ListsActive};
ghost use Rattle.pulse_parts.specs.Parts.{AreFlowParts, ArePushParts, PushPartFits, cells_of};
ghost use Rattle.pulse_parts.specs.Start.{AreFlowShares, ArePushShares, border_of, PartHolds, PartsHold};

use crate::carrying::list_of;
use crate::copying::{copied_excess, copied_labels, copied_residuals};
use crate::{FlowPart, NodeList, PushPart};
use frame_net::Net;
use std::alloc::{AllocError, Global};

/// Returns the first node of a worker's range.
pub fn border(nodes: u32, workers: u32, worker: u32) -> u32
    requires some { 0 < workers }
    requires worker { worker ≤ workers }
    ensures value { result ≡ border_of nodes workers worker }
    ensures within { result ≤ nodes }
{
    (u64::from(worker) * u64::from(nodes) / u64::from(workers)) as u32
}

/// Returns the part of the nodes from `first` up to `end`, with the values and the listed nodes of
/// other parts.
fn part_anew(
    alloc: Global,
    net: &Net,
    labels: &[u32],
    flow: &[FlowPart],
    worker: u32,
    first: u32,
    end: u32,
) -> Result<FlowPart, AllocError>
    requires labels { length labels.now ≡ node_count net.now }
    requires flow { AreFlowParts net.now 0 flow.now }
    requires ordered { first ≤ end }
    requires within { end ≤ node_count net.now }
    ensures worker { IfOk result (λ q. q.worker ≡ worker) }
    ensures first { IfOk result (λ q. q.first ≡ first) }
    ensures end { IfOk result (λ q. q.end ≡ end) }
    ensures holds { IfOk result (λ q. PartHolds net.now (slice_index (cells_of flow.now).residuals)
        (slice_index (cells_of flow.now).excess) q) }
    ensures lists { IfOk result (λ q. ListActive (node_count net.now) labels.now flow.now
        → ListsActive (node_count net.now) labels.now q) }
{
    net.known();
    let base = net.start(first);
    let residuals = copied_residuals(alloc, net, flow, first, end)?;
    let excess = copied_excess(alloc, net, flow, first, end)?;
    let next = copied_labels(alloc, labels, first, end)?;
    let active = list_of(alloc, flow, first, end)?;
    let spare = NodeList::with_room(alloc, excess.len())?;
    Ok(FlowPart {
        worker,
        first,
        end,
        base,
        residuals,
        excess,
        next,
        active,
        spare,
    })
}

/// Returns parts for `workers` workers, with the values of other parts. If those list the active
/// nodes, so do these.
pub fn parted_anew(
    alloc: Global,
    net: &Net,
    labels: &[u32],
    flow: &[FlowPart],
    workers: u32,
) -> Result<Vec<FlowPart>, AllocError>
    requires labels { length labels.now ≡ node_count net.now }
    requires flow { AreFlowParts net.now 0 flow.now }
    requires some { 0 < workers }
    ensures len { IfOk result (λ v. length v.items ≡ workers) }
    ensures shares { IfOk result (λ v. AreFlowShares (node_count net.now) workers v.items) }
    ensures holds { IfOk result (λ v. PartsHold net.now (slice_index (cells_of flow.now).residuals)
        (slice_index (cells_of flow.now).excess) (node_count net.now) v.items) }
    ensures lists { IfOk result (λ v. ListActive (node_count net.now) labels.now flow.now
        → ListActive (node_count net.now) labels.now v.items) }
{
    let nodes = net.nodes();
    let mut parts = Vec::with_capacity(alloc, workers as usize)?;
    let mut first = 0;
    for worker in 0..workers {
        let end = border(nodes, workers, worker + 1);
        let part = part_anew(alloc, net, labels, flow, worker, first, end)?;
        parts.push(part)?;
        first = end;
    }
    Ok(parts)
}

/// Returns `entries` zeros.
fn zeros(alloc: Global, entries: usize) -> Result<Vec<u32>, AllocError>
    ensures { IfOk result (λ v. v.items ≡ replicate entries 0) }
{
    vec![in alloc; 0u32; entries]
}

/// Returns the part of pushes of the nodes from `first` up to `end`, all 0: no node is listed as
/// pushing.
fn push_part(
    alloc: Global,
    net: &Net,
    worker: u32,
    first: u32,
    end: u32,
) -> Result<PushPart, AllocError>
    requires ordered { first ≤ end }
    requires within { end ≤ node_count net.now }
    ensures worker { IfOk result (λ p. p.worker ≡ worker) }
    ensures first { IfOk result (λ p. p.first ≡ first) }
    ensures end { IfOk result (λ p. p.end ≡ end) }
    ensures fits { IfOk result (λ p. PushPartFits net.now p) }
{
    net.known();
    let base = net.start(first);
    let size = net.start(end) - base;
    let values = zeros(alloc, size)?;
    let mut pushing = NodeList::with_room(alloc, (end - first) as usize)?;
    pushing.begin();
    Ok(PushPart {
        worker,
        first,
        end,
        base,
        values,
        pushing,
        walked: 0,
    })
}

/// Returns parts of pushes for `workers` workers, all 0.
pub fn push_parts(alloc: Global, net: &Net, workers: u32) -> Result<Vec<PushPart>, AllocError>
    requires { 0 < workers }
    ensures len { IfOk result (λ v. length v.items ≡ workers) }
    ensures shares { IfOk result (λ v. ArePushShares (node_count net.now) workers v.items) }
    ensures parts { IfOk result (λ v. ArePushParts net.now 0 v.items) }
{
    let nodes = net.nodes();
    let mut parts = Vec::with_capacity(alloc, workers as usize)?;
    let mut first = 0;
    for worker in 0..workers {
        let end = border(nodes, workers, worker + 1);
        let part = push_part(alloc, net, worker, first, end)?;
        parts.push(part)?;
        first = end;
    }
    Ok(parts)
}
