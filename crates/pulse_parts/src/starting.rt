//! The flow at the start: the arcs out of the source are full, and all others have flow 0.
ghost use Rattle.std.specs.Prelude.{◌≡◌, ℕ, ◌+◌, ◌<◌, ◌≤◌, IfOk, length, slice_index};
ghost use Rattle.frame_net.specs.FlowNet.{cap_at, node_count};
ghost use Rattle.pulse_parts.specs.Start.{AreFlowShares, start_res, start_excess, PartHolds, PartsHold};

use crate::copying::add;
use crate::parting::border;
use crate::{FlowPart, NodeList};
use frame_net::Net;
use std::alloc::{AllocError, Global};

/// Puts `value` in the place of arc or node `number`, if `values`, which begin with number `base`,
/// have it.
fn put(values: &mut [u32], base: u32, number: u32, value: u32)
    ensures len { length values.new ≡ length values.old }
    ensures there { (i : ℕ) → i < length values.old → base + i ≡ number
        → slice_index values.new i ≡ value }
    ensures others { (i : ℕ) → (base + i ≡ number → ⊥)
        → slice_index values.new i ≡ slice_index values.old i }
{
    if number < base {
        return;
    }
    let place = (number - base) as usize;
    if place < values.len() {
        values[place] = value;
    }
}

/// Replaces the capacities of the arcs from `base` on by the residuals of the start. The source's
/// arcs have none, their mates the sum of both capacities, and all others keep their capacities.
fn replace_caps(net: &Net, base: u32, residuals: &mut [u32])
    requires within { base + length residuals.old ≤ length net.now.heads }
    requires caps { (i : ℕ) → i < length residuals.old
        → slice_index residuals.old i ≡ cap_at net.now (base + i) }
    ensures len { length residuals.new ≡ length residuals.old }
    ensures each { (i : ℕ) → i < length residuals.new
        → slice_index residuals.new i ≡ start_res net.now (base + i) }
{
    net.known();
    net.known_capacities();
    let row = net.row(0);
    for arc in 0..row.end {
        let mate = net.mate(arc);
        put(residuals, base, arc, 0);
        put(residuals, base, mate, net.cap(arc) + net.cap(mate));
    }
}

/// Returns the residuals of `size` arcs from `base` on, at the start: a copy of the capacities, but
/// for the arcs at the source.
fn start_residuals(alloc: Global, net: &Net, base: u32, size: u32) -> Result<Vec<u32>, AllocError>
    requires { base + size ≤ length net.now.heads }
    ensures len { IfOk result (λ v. length v.items ≡ size) }
    ensures each { IfOk result (λ v. (i : ℕ) → i < length v.items
        → slice_index v.items i ≡ start_res net.now (base + i)) }
{
    net.known();
    net.known_capacities();
    let mut residuals = Vec::with_capacity(alloc, size as usize)?;
    let from = base as usize;
    let to = from + size as usize;
    add(net.caps(), from, to, &mut residuals)?;
    replace_caps(net, base, residuals.as_mut_slice());
    Ok(residuals)
}

/// Puts the excess of the start in those nodes from `first` on to which the source's arcs lead.
fn fill_excesses(net: &Net, first: u32, excess: &mut [u32])
    requires within { first + length excess.old ≤ node_count net.now }
    requires none { (i : ℕ) → i < length excess.old → slice_index excess.old i ≡ 0 }
    ensures len { length excess.new ≡ length excess.old }
    ensures each { (i : ℕ) → i < length excess.new
        → slice_index excess.new i ≡ start_excess net.now (first + i) }
{
    net.known();
    net.known_capacities();
    let row = net.row(0);
    for arc in 0..row.end {
        let head = net.head(arc);
        let cap = net.cap(arc);
        put(excess, first, head, cap);
    }
}

/// Returns the excess of `count` nodes from `first` on, at the start.
fn start_excesses(alloc: Global, net: &Net, first: u32, count: u32) -> Result<Vec<u32>, AllocError>
    requires { first + count ≤ node_count net.now }
    ensures len { IfOk result (λ v. length v.items ≡ count) }
    ensures each { IfOk result (λ v. (i : ℕ) → i < length v.items
        → slice_index v.items i ≡ start_excess net.now (first + i)) }
{
    let mut excess = vec![in alloc; 0u32; count as usize]?;
    fill_excesses(net, first, excess.as_mut_slice());
    Ok(excess)
}

/// Returns the part of the nodes from `first` up to `end`, at the start.
fn start_part(
    alloc: Global,
    net: &Net,
    worker: u32,
    first: u32,
    end: u32,
) -> Result<FlowPart, AllocError>
    requires ordered { first ≤ end }
    requires within { end ≤ node_count net.now }
    ensures worker { IfOk result (λ q. q.worker ≡ worker) }
    ensures first { IfOk result (λ q. q.first ≡ first) }
    ensures end { IfOk result (λ q. q.end ≡ end) }
    ensures starts { IfOk result (λ q. PartHolds net.now (start_res net.now)
        (start_excess net.now) q) }
{
    net.known();
    net.known_capacities();
    let base = net.start(first);
    let size = net.start(end) - base;
    let residuals = start_residuals(alloc, net, base as u32, size as u32)?;
    let excess = start_excesses(alloc, net, first, end - first)?;
    let next = vec![in alloc; 0u32; excess.len()]?;
    let active = NodeList::with_room(alloc, excess.len())?;
    let spare = NodeList::with_room(alloc, excess.len())?;
    Ok(FlowPart {
        worker,
        first,
        end,
        base,
        residuals,
        excess,
        next,
        active,
        spare,
    })
}

/// Returns the parts of all nodes, one for each worker, at the start.
pub fn start_parts(alloc: Global, net: &Net, workers: u32) -> Result<Vec<FlowPart>, AllocError>
    requires { 0 < workers }
    ensures len { IfOk result (λ v. length v.items ≡ workers) }
    ensures shares { IfOk result (λ v. AreFlowShares (node_count net.now) workers v.items) }
    ensures starts { IfOk result (λ v. PartsHold net.now (start_res net.now) (start_excess net.now)
        (node_count net.now) v.items) }
{
    let nodes = net.nodes();
    let mut parts = Vec::with_capacity(alloc, workers as usize)?;
    let mut first = 0;
    for worker in 0..workers {
        let end = border(nodes, workers, worker + 1);
        let part = start_part(alloc, net, worker, first, end)?;
        parts.push(part)?;
        first = end;
    }
    Ok(parts)
}
