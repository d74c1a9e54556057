//! Labels of all nodes from which units could come to the sink, by sweeps over the gates, down and
//! up. Each label is the length of a way there over residual arcs. The first two sweeps see all
//! gates, so nearly all of these ways are shortest ones. Those that follow see only gates whose
//! nodes have no label yet. Sweeps go through memory in order, while a walk back from the sink
//! jumps.

use crate::fan_ins::FanIns;
use crate::search::Search;
use crate::spots::{FAR, Labels, Spot};
use aig_graph::Gate;
use unit_flows::GateFlow;
use unit_starts::{Region, narrow};

/// The most rounds of two sweeps. Nodes that have no label then are left to the network.
const MOST_ROUNDS: u32 = 65_536;

/// Lowers a node's label to `label`, if that is less. Returns true if the node had none.
fn lower(known: &mut u32, label: u32) -> bool {
    let is_first = *known == FAR;
    *known = (*known).min(label);
    is_first
}

/// Returns the label before a gate, by those of the nodes to which an arc leads from there that has
/// room.
fn found_before(own: Labels, smaller: Labels, larger: Labels, flow: &GateFlow) -> u32 {
    let mut least = FAR;
    if flow.has_room(false) {
        least = smaller.before;
    }
    if flow.has_room(true) {
        least = least.min(larger.before);
    }
    if !flow.through {
        least = least.min(own.after);
    }
    if flow.first_up {
        least = least.min(smaller.after);
    }
    if flow.second_up {
        least = least.min(larger.after);
    }
    own.before.min(least.saturating_add(1))
}

/// Labels the node before a gate, and those from which an arc leads there. Returns none if units
/// couldn't come to the sink from there, else true if one of these nodes had no label. The fan-ins
/// of a passable gate are latches and gates, so all three places are in the table.
fn see(labels: &mut [Labels], place: u32, fan_ins: &FanIns, flow: &GateFlow) -> Option<bool> {
    let own = place as usize;
    let (smaller, larger) = (fan_ins.smaller as usize, fan_ins.larger as usize);
    if own >= labels.len() || smaller >= labels.len() || larger >= labels.len() {
        return None;
    }
    let before = found_before(labels[own], labels[smaller], labels[larger], flow);
    if before == FAR {
        return None;
    }
    let next = before.saturating_add(1);
    let mut is_new = lower(&mut labels[own].before, before);
    is_new |= lower(&mut labels[smaller].after, next);
    is_new |= lower(&mut labels[larger].after, next);
    if flow.through {
        is_new |= lower(&mut labels[own].after, next);
    }
    if flow.first_down > 0 {
        is_new |= lower(&mut labels[smaller].before, next);
    }
    if flow.second_down > 0 {
        is_new |= lower(&mut labels[larger].before, next);
    }
    Some(is_new)
}

/// Sees the gate at a place if its node is open: it has no label yet. If `sees_all`, each gate is
/// seen from which units could come to the sink. Returns true if a node is newly labelled.
#[inline(always)]
fn look(
    labels: &mut [Labels],
    spots: &mut [Spot],
    place: u32,
    gate: &Gate,
    first: u32,
    flow: &GateFlow,
    sees_all: bool,
) -> bool {
    let at = place as usize;
    if at >= spots.len() {
        return false;
    }
    let spot = spots[at];
    if !(spot.is_open | (spot.reaches & sees_all)) {
        return false;
    }
    match see(labels, place, &FanIns::of(gate, first), flow) {
        Some(is_new) => {
            spots[at].is_open = false;
            is_new
        }
        None => false,
    }
}

/// Begins a labelling: nodes with an arc to the sink get label 1, no other node has one. All nodes
/// are open from which units could come to the sink; those that the last labelling left open can't.
fn begin(labels: &mut [Labels], spots: &mut [Spot]) {
    for k in 0..spots.len() {
        let spot = spots[k];
        let reaches = spot.reaches & !spot.is_open;
        spots[k].reaches = reaches;
        spots[k].is_open = reaches;
        if k < labels.len() {
            labels[k] = Labels {
                before: FAR,
                after: if spot.is_observed { 1 } else { FAR },
            };
        }
    }
}

/// Sees the gates from the last to the first. Returns true if a node is newly labelled.
fn sweep_down(
    labels: &mut [Labels],
    spots: &mut [Spot],
    region: &Region,
    flows: &[GateFlow],
    sees_all: bool,
) -> bool {
    let (gates, first) = (region.gates, region.first);
    let mut is_new = false;
    let mut place = narrow(region.places());
    for k in (0..gates.len()).rev() {
        place = place.wrapping_sub(1);
        if k < flows.len() {
            is_new |= look(labels, spots, place, &gates[k], first, &flows[k], sees_all);
        }
    }
    is_new
}

/// Sees the gates from the first to the last. Returns true if a node is newly labelled.
fn sweep_up(
    labels: &mut [Labels],
    spots: &mut [Spot],
    region: &Region,
    flows: &[GateFlow],
    sees_all: bool,
) -> bool {
    let (gates, first) = (region.gates, region.first);
    let mut is_new = false;
    let mut place = narrow(region.latches.len());
    for k in 0..gates.len() {
        if k < flows.len() {
            is_new |= look(labels, spots, place, &gates[k], first, &flows[k], sees_all);
        }
        place = place.wrapping_add(1);
    }
    is_new
}

impl<'a> Search<'a> {
    /// Labels each node from which units could come to the sink with the length of a way there,
    /// nearly always of a shortest one. All other nodes lose their labels.
    pub fn label(&mut self) {
        let (region, flows) = (&self.region, self.flows.as_slice());
        let labels = self.labels.as_mut_slice();
        let spots = self.spots.as_mut_slice();
        begin(labels, spots);
        sweep_down(labels, spots, region, flows, true);
        sweep_up(labels, spots, region, flows, true);
        for _ in 0..MOST_ROUNDS {
            if !sweep_down(labels, spots, region, flows, false)
                || !sweep_up(labels, spots, region, flows, false)
            {
                return;
            }
        }
    }
}
