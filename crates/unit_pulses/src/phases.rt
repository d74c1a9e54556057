//! A synchronous pulse: each active node pushes by the labels of before, the pushes are delivered,
//! and nodes that kept units get new labels.
//!
//! Each worker has a range of places. It is given its part and what it owns by value and returns
//! them, in worker order; all else is lent to all workers. The calling thread makes a pulse of few
//! active nodes, as worker 0, over all places.

use crate::delivering::{Ground, Owned, owned_by_ranges};
use crate::nodes::Nodes;
use crate::parts::{Delivery, Kept, Part};
use crate::search::Search;
use crate::sharing::Parts;
use crate::spots::{FAR, Labels};
use aig_graph::Memory;
use pulse::PhaseGate;
use std::thread::Threads;
use std::{mem, thread};

/// The gate that each worker passes and leaves, and the number of the pulse, from 0.
#[derive(Drop)]
pub(crate) struct Passage<'a, G> {
    pub gate: &'a G,
    pub pulse: u64,
}

/// Reads for all parts in this thread, one part after another.
fn read_all(search: &Search, actives: &Nodes, parts: &mut [Part]) {
    for k in 0..parts.len() {
        search.read(actives, &mut parts[k]);
    }
}

/// Reads for all parts, each by its worker.
fn read_by_crew<R: Threads + Sync, G: PhaseGate>(
    rt: &R,
    memory: &mut Memory,
    search: &Search,
    actives: &Nodes,
    parts: &mut Vec<Part>,
    passage: &Passage<G>,
) {
    let (gate, phase) = (passage.gate, passage.pulse.wrapping_mul(2));
    let work = |part: Part| -> Part {
        let mut part = part;
        gate.pass(phase, part.worker);
        search.read(actives, &mut part);
        gate.leave(phase, part.worker);
        part
    };
    let taken = mem::replace(parts, memory.nothing());
    match thread::map_vec(rt, taken, &work) {
        Ok(made) => drop(mem::replace(parts, made)),
        Err(_) => memory.refuse(),
    }
}

/// Returns all places and gates of a search, and its labels.
fn ground_of<'a>(search: &'a mut Search) -> (Ground<'a>, &'a [Labels]) {
    let all = Ground::all(
        search.latches,
        search.spots.as_mut_slice(),
        search.flows.as_mut_slice(),
    );
    (all, search.labels.as_slice())
}

/// Delivers at all places, as worker 0.
fn deliver_all(search: &mut Search, parts: &[Part], deliveries: &mut [Delivery]) {
    let (mut all, labels) = ground_of(search);
    if !deliveries.is_empty() {
        all.deliver(0, labels, parts, &mut deliveries[0]);
    }
}

/// Delivers at all places, at each by the worker that owns it.
fn deliver_by_crew<R: Threads + Sync, G: PhaseGate>(
    rt: &R,
    memory: &mut Memory,
    search: &mut Search,
    shared: &mut Parts,
    passage: &Passage<G>,
) {
    let gate = passage.gate;
    let phase = passage.pulse.wrapping_mul(2).wrapping_add(1);
    let parts = shared.parts.as_slice();
    let latches = search.latches;
    let (all, labels) = ground_of(search);
    let work = |owned: Owned| -> Delivery {
        let worker = owned.worker;
        gate.pass(phase, worker);
        let delivery = owned.deliver(labels, parts);
        gate.leave(phase, worker);
        delivery
    };
    let taken = shared.deliveries.as_mut_slice();
    let owned = owned_by_ranges(memory, latches, all, parts, taken);
    match thread::map_vec(rt, owned, &work) {
        Ok(made) => drop(mem::replace(&mut shared.deliveries, made)),
        Err(_) => memory.refuse(),
    }
}

/// Gives nodes after places that kept their unit new labels; those below [`FAR`] are active next.
fn turn_after(labels: &mut [Labels], kept: &[Kept], next: &mut Nodes) {
    for k in 0..kept.len() {
        let Kept { place, label, .. } = kept[k];
        let at = place as usize;
        if at < labels.len() {
            labels[at].after = label;
        }
        if label < FAR {
            next.push_after(place);
        }
    }
}

/// Gives nodes before gates that kept units new labels; those below [`FAR`] are active next.
fn turn_before(labels: &mut [Labels], kept: &[Kept], found: &[u32], next: &mut Nodes) {
    for k in 0..kept.len() {
        if k < found.len() {
            let (place, label) = (kept[k].place, found[k]);
            let at = place as usize;
            if at < labels.len() {
                labels[at].before = label;
            }
            if label < FAR {
                next.push_before(place);
            }
        }
    }
}

/// Gives a part's nodes new labels, and appends those that are active next to `actives`.
fn turn(labels: &mut [Labels], part: &Part, delivery: &mut Delivery, actives: &mut Nodes) {
    let Delivery {
        next,
        labels: found,
    } = delivery;
    turn_after(labels, part.kept_after.as_slice(), next);
    turn_before(labels, part.kept_before.as_slice(), found.as_slice(), next);
    next.refused = next.refused | part.refused;
    actives.join(next);
}

/// Ends a pulse, and replaces the active nodes. Returns the number of arcs looked at.
fn end(search: &mut Search, actives: &mut Nodes, shared: &mut Parts) -> usize {
    let labels = search.labels.as_mut_slice();
    let parts = shared.parts.as_slice();
    let deliveries = shared.deliveries.as_mut_slice();
    let mut work = 0usize;
    actives.clear();
    for k in 0..parts.len() {
        if k < deliveries.len() {
            work = work.wrapping_add(parts[k].work);
            turn(labels, &parts[k], &mut deliveries[k], actives);
        }
    }
    work
}

/// Makes a pulse by the calling thread, and ends it. Returns the number of arcs looked at.
pub(crate) fn pulse_alone<G: PhaseGate>(
    search: &mut Search,
    actives: &mut Nodes,
    shared: &mut Parts,
    passage: &Passage<G>,
) -> usize {
    let (gate, reading) = (passage.gate, passage.pulse.wrapping_mul(2));
    let delivery = reading.wrapping_add(1);
    gate.pass(reading, 0);
    read_all(search, actives, shared.parts.as_mut_slice());
    gate.leave(reading, 0);
    gate.pass(delivery, 0);
    deliver_all(
        search,
        shared.parts.as_slice(),
        shared.deliveries.as_mut_slice(),
    );
    gate.leave(delivery, 0);
    end(search, actives, shared)
}

/// Makes a pulse by a worker for each part, and ends it. Returns the number of arcs looked at.
pub(crate) fn pulse_by_crew<R: Threads + Sync, G: PhaseGate>(
    rt: &R,
    memory: &mut Memory,
    search: &mut Search,
    actives: &mut Nodes,
    shared: &mut Parts,
    passage: &Passage<G>,
) -> usize {
    read_by_crew(rt, memory, search, actives, &mut shared.parts, passage);
    deliver_by_crew(rt, memory, search, shared, passage);
    end(search, actives, shared)
}
