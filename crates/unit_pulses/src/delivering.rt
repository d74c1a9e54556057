//! The changes that the pushes of a pulse make at the places that a worker owns.

use crate::nodes::Nodes;
use crate::parts::{Delivery, Kept, Part, Push, Range};
use crate::raising::raised_with_arrivals;
use crate::spots::{Labels, Spot, label_before, spot_at};
use aig_graph::Memory;
use std::mem;
use unit_flows::GateFlow;

/// Takes the units of a worker's own pushes from their tails. `spots` begins at the place `first`.
fn leave_all(spots: &mut [Spot], first: u32, pushes: &[Push]) {
    for k in 0..pushes.len() {
        let Push {
            arc,
            tail,
            units,
            ..
        } = pushes[k];
        let at = tail.wrapping_sub(first) as usize;
        if at < spots.len() {
            if arc.is_from_after() {
                spots[at].waits = false;
            } else {
                spots[at].excess = spots[at].excess.saturating_sub(units);
            }
        }
    }
}

/// Notes a push in the flow of its gate, if `flows`, from the place `first_gate` on, has it.
fn note(flows: &mut [GateFlow], first_gate: u32, push: &Push) {
    let at = push.gate().wrapping_sub(first_gate) as usize;
    if at < flows.len() {
        push.note(&mut flows[at]);
    }
}

/// Adds the units of a push to its head, if `spots` has that place. Lists the head in `next` as it
/// gets its first unit. `spots` begins at the place `first`.
fn come(spots: &mut [Spot], first: u32, push: &Push, next: &mut Nodes) {
    let at = push.head.wrapping_sub(first) as usize;
    if at < spots.len() {
        if push.arc.is_to_after() {
            spots[at].waits = true;
            next.push_after(push.head);
        } else {
            let excess = spots[at].excess;
            spots[at].excess = excess.saturating_add(push.units);
            if excess == 0 {
                next.push_before(push.head);
            }
        }
    }
}

/// Lists the new labels of nodes before gates that kept units. `spots` begins at `first`.
fn find_labels(
    spots: &[Spot],
    first: u32,
    labels: &[Labels],
    kept: &[Kept],
    delivery: &mut Delivery,
) {
    for k in 0..kept.len() {
        let Kept {
            place,
            units,
            label,
        } = kept[k];
        let excess = spot_at(spots, place.wrapping_sub(first)).excess;
        delivery.push_label(if excess > units {
            raised_with_arrivals(label_before(labels, place), label)
        } else {
            label
        });
    }
}

/// A worker's places, from `first` on, and its gates, from the place `first_gate` on.
#[derive(Drop)]
pub(crate) struct Ground<'a> {
    first: u32,
    first_gate: u32,
    spots: &'a mut [Spot],
    flows: &'a mut [GateFlow],
}

/// Returns the number of gates before a place, if the first `latches` places are those of latches.
fn gates_before(place: u32, latches: u32) -> u32 {
    place.max(latches).wrapping_sub(latches)
}

impl<'a> Ground<'a> {
    /// Returns all places and gates, if the first `latches` places are those of latches.
    pub fn all(latches: u32, spots: &'a mut [Spot], flows: &'a mut [GateFlow]) -> Ground<'a> {
        Ground {
            first: 0,
            first_gate: latches,
            spots,
            flows,
        }
    }

    /// Cuts off the places of `range`, with which these begin. Returns them and the others.
    fn cut(self, range: Range, latches: u32) -> (Ground<'a>, Ground<'a>) {
        let Ground { spots, flows, .. } = self;
        let Range { first, end } = range;
        let places = (end.wrapping_sub(first) as usize).min(spots.len());
        let gates = gates_before(end, latches).wrapping_sub(gates_before(first, latches));
        let gates = (gates as usize).min(flows.len());
        let (own_spots, other_spots) = spots.split_at_mut(places);
        let (own_flows, other_flows) = flows.split_at_mut(gates);
        let own = Ground {
            first,
            first_gate: first.max(latches),
            spots: own_spots,
            flows: own_flows,
        };
        let others = Ground {
            first: end,
            first_gate: end.max(latches),
            spots: other_spots,
            flows: other_flows,
        };
        (own, others)
    }

    /// Adds the units of all `pushes` to their heads, and notes the pushes in the flow.
    fn come_all(&mut self, pushes: &[Push], next: &mut Nodes) {
        let (first, first_gate) = (self.first, self.first_gate);
        for k in 0..pushes.len() {
            note(self.flows, first_gate, &pushes[k]);
            come(self.spots, first, &pushes[k], next);
        }
    }

    /// Delivers what all workers read. `parts[worker]` is this worker's own part.
    pub fn deliver(
        &mut self,
        worker: u32,
        labels: &[Labels],
        parts: &[Part],
        delivery: &mut Delivery,
    ) {
        let first = self.first;
        let worker = worker as usize;
        delivery.clear();
        if worker >= parts.len() {
            return;
        }
        leave_all(self.spots, first, parts[worker].pushes.as_slice());
        for k in 0..parts.len() {
            self.come_all(parts[k].pushes.as_slice(), &mut delivery.next);
        }
        let kept = parts[worker].kept_before.as_slice();
        find_labels(self.spots, first, labels, kept, delivery);
    }
}

/// The ground and the delivery that a worker owns in a delivery phase.
#[derive(Drop)]
pub(crate) struct Owned<'a> {
    pub worker: u32,
    ground: Ground<'a>,
    delivery: Delivery,
}

impl<'a> Owned<'a> {
    pub fn deliver(self, labels: &[Labels], parts: &[Part]) -> Delivery {
        let Owned {
            worker,
            ground,
            delivery,
        } = self;
        let (mut ground, mut delivery) = (ground, delivery);
        ground.deliver(worker, labels, parts, &mut delivery);
        delivery
    }
}

/// Returns what each worker owns of `all`, by the ranges of `parts`. Takes its delivery out.
pub(crate) fn owned_by_ranges<'a>(
    memory: &mut Memory,
    latches: u32,
    all: Ground<'a>,
    parts: &[Part],
    deliveries: &mut [Delivery],
) -> Vec<Owned<'a>> {
    let mut owned = memory.nothing();
    let mut others = all;
    for k in 0..parts.len() {
        if k < deliveries.len() {
            let delivery = mem::replace(&mut deliveries[k], Delivery::none(memory));
            let (ground, left) = others.cut(parts[k].range, latches);
            memory.push(
                &mut owned,
                Owned {
                    worker: parts[k].worker,
                    ground,
                    delivery,
                },
            );
            others = left;
        }
    }
    owned
}
