//! The flows of gates, carried from circuit to circuit with the gates: the next frame's flow starts
//! along them. They are moved within their table, since another one of a large circuit takes many
//! pages.

use crate::gate_flow::GateFlow;
use aig_graph::{Aig, ClosedSet, NoMemory};
use std::alloc::Global;

/// Returns the place of a gate's flow, or the number of flows if it has none.
fn place_of(first: u32, var: u32, flows: usize) -> usize {
    let place = var.saturating_sub(first) as usize;
    if place < flows { place } else { flows }
}

/// Moves the flows from `from` up to `to` down, to the places from `kept` on. Returns the place
/// after them.
fn close_up(flows: &mut [GateFlow], kept: usize, from: usize, to: usize) -> usize {
    let mut kept = kept;
    for k in from..to {
        if k < flows.len() && kept < flows.len() {
            flows[kept] = flows[k];
            kept = kept.wrapping_add(1);
        }
    }
    kept
}

/// Moves the flows of the gates outside the set to the front: those between one member and the next
/// are a run. Returns how many they are.
fn close_outside(flows: &mut [GateFlow], first: u32, set: &ClosedSet) -> usize {
    let vars = set.vars();
    let (mut kept, mut from) = (0usize, 0usize);
    for i in 0..vars.len() {
        let member = place_of(first, vars[i], flows.len());
        kept = close_up(flows, kept, from, member);
        from = member.saturating_add(1);
    }
    close_up(flows, kept, from, flows.len())
}

/// Returns the flows of the gates of the set.
fn flows_of_members(
    alloc: Global,
    first: u32,
    set: &ClosedSet,
    flows: &[GateFlow],
) -> Result<Vec<GateFlow>, NoMemory> {
    let vars = set.vars();
    let mut members = Vec::with_capacity(alloc, vars.len())?;
    let mut is_room = true;
    for i in 0..vars.len() {
        let place = place_of(first, vars[i], flows.len());
        if place < flows.len() {
            is_room &= members.push(flows[place]).is_ok();
        }
    }
    if is_room {
        Ok(members)
    } else {
        drop(members);
        Err(NoMemory)
    }
}

/// Writes the flows of members at the places from `place` on.
fn put_members(flows: &mut [GateFlow], place: usize, members: &[GateFlow]) {
    let mut place = place;
    for k in 0..members.len() {
        if place < flows.len() {
            flows[place] = members[k];
            place = place.wrapping_add(1);
        }
    }
}

/// Returns the flows in the order in which a move over the set leaves their gates: those outside of
/// it, and then those in it. A second table has those of the set alone.
///
/// # Errors
///
/// `NoMemory` if that table is refused.
pub fn after_move(
    alloc: Global,
    aig: &Aig,
    set: &ClosedSet,
    flows: Vec<GateFlow>,
) -> Result<Vec<GateFlow>, NoMemory> {
    let first = aig.first_gate();
    let mut flows = flows;
    match flows_of_members(alloc, first, set, flows.as_slice()) {
        Ok(members) => {
            let outside = close_outside(flows.as_mut_slice(), first, set);
            put_members(flows.as_mut_slice(), outside, members.as_slice());
            drop(members);
            Ok(flows)
        }
        Err(error) => {
            drop(flows);
            Err(error)
        }
    }
}

/// Moves the flows of the gates that stay to the front. Returns how many they are.
fn close_kept(flows: &mut [GateFlow], kept: &[bool]) -> usize {
    let latches = kept.len().saturating_sub(flows.len());
    let mut gates = 0usize;
    for k in 0..flows.len() {
        let place = latches.wrapping_add(k);
        if place < kept.len() && kept[place] && gates < flows.len() {
            flows[gates] = flows[k];
            gates = gates.wrapping_add(1);
        }
    }
    gates
}

/// Returns the flows of the gates that a cleaning keeps. `kept` marks the latches and then the
/// gates that stay.
pub fn after_cleaning(kept: &[bool], flows: Vec<GateFlow>) -> Vec<GateFlow> {
    let mut flows = flows;
    let gates = close_kept(flows.as_mut_slice(), kept);
    flows.truncate(gates);
    flows
}
