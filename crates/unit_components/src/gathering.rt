//! Puts the flows of parts in the places of the region's gates, by workers that each have a range
//! of gates.

use crate::cut::Cut;
use crate::ranges::{border, count_before, entries};
use aig_graph::Memory;
use std::sync::atomic::{AtomicU64, Ordering};
use std::thread;
use std::thread::Threads;
use unit_flows::GateFlow;

/// The flow at the gates of a part, in order.
#[derive(Drop)]
pub(crate) struct PartFlow {
    pub part: usize,
    pub flows: Vec<GateFlow>,
}

/// Puts the flow of the gate at each of `places` into `table`, which begins at the place `first`.
/// Gates that the table doesn't have are left out.
fn put_at(table: &mut [GateFlow], first: usize, places: &[u32], flows: &[GateFlow]) {
    for k in 0..places.len() {
        let at = (places[k] as usize).wrapping_sub(first);
        if k < flows.len() && at < table.len() {
            table[at] = flows[k];
        }
    }
}

/// Puts the flow at the gates of a part into `table`, whose first entry is of gate number `first`.
fn put(cut: &Cut, found: &PartFlow, first: usize, table: &mut [GateFlow]) {
    let latches = cut.region.latches.len();
    let places = cut.parts.places(found.part);
    let begin = latches.wrapping_add(first);
    let gates = count_before(places, latches);
    let from = count_before(places, begin);
    let to = count_before(places, begin.wrapping_add(table.len()));
    let flows = entries(
        found.flows.as_slice(),
        from.wrapping_sub(gates),
        to.wrapping_sub(gates),
    );
    put_at(table, begin, entries(places, from, to), flows);
}

/// Returns the flow at each gate of a region, gathered from the parts `found` by `workers` workers.
/// Returns the number of workers that had a range of gates, too. Nothing flows at a gate that is in
/// no part.
pub(crate) fn gathered<R: Threads + Sync>(
    rt: &R,
    memory: &mut Memory,
    cut: &Cut,
    found: &[PartFlow],
    workers: usize,
) -> (Vec<GateFlow>, usize) {
    let gates = cut.region.gates.len();
    let ranges = AtomicU64::new(0);
    let work = |first: usize, range: &mut [GateFlow]| {
        ranges.fetch_add(1, Ordering::SeqCst);
        for k in 0..found.len() {
            put(cut, &found[k], first, range);
        }
    };
    let mut table = memory.table(GateFlow::none(), gates);
    let range = border(1, workers, gates).max(1);
    thread::for_each_chunk_mut(rt, table.as_mut_slice(), range, &work);
    (table, ranges.load(Ordering::SeqCst) as usize)
}
