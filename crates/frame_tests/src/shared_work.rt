//! Shared work on a frame. Each worker of a crew has a share of each step. Either of two can bring
//! the flow of all parts while the other is held. The answer doesn't depend on the worker, so the
//! shares are looked at by themselves.
use crate::held_gate::HeldGate;
use crate::unit_parts::{BLOCKS, SHARED};
use aig_graph::{Circuit, Keep, NoMemory};
use pulse::{Crew, OpenGate, PhaseGate};
use std::alloc::Global;
use std::test::*;
use std::thread::Threads;
use unit_components::{CutFlow, Shares, Sizes, flow_in_parts};
use unit_flows::Frame;
use unit_pulses::{Range, pulse_ranges};

/// Blocks have six places each, so two of them are a part of eight places or more, and there are
/// half as many parts.
const PARTS: usize = 32;

/// The latches and gates of all blocks.
const PLACES: usize = 384;

/// Returns how the work on a flow was shared, if one was brought.
fn shares_of(brought: Result<Option<CutFlow>, NoMemory>) -> Option<Shares> {
    match brought {
        Ok(Some(CutFlow { gates, shares })) => {
            drop(gates);
            Some(shares)
        }
        Ok(None) | Err(_) => None,
    }
}

/// Returns how a crew shares the work on the blocks of a circuit.
fn shares_on<R: Threads + Sync, G: PhaseGate>(
    rt: &R,
    alloc: Global,
    circuit: &Circuit,
    crew: &Crew<G>,
    sizes: Sizes,
) -> Option<Shares> {
    match Frame::new(alloc, circuit, &Keep::none()) {
        Ok(frame) => {
            let brought = flow_in_parts(rt, alloc, &frame, crew, sizes);
            drop(frame);
            shares_of(brought)
        }
        Err(_) => None,
    }
}

/// Returns true if each worker brought the flow of its number of parts in `drawing`.
fn are_drawn(shares: Option<Shares>, drawing: &[usize]) -> bool {
    match shares {
        Some(shares) => {
            let drawn = shares.drawing.as_slice() == drawing;
            drop(shares);
            drawn
        }
        None => false,
    }
}

/// Returns whether the other worker brings the flow of all parts past the one that is held.
fn draws_past<R: Threads + Sync>(
    rt: &R,
    alloc: Global,
    circuit: &Circuit,
    held: u32,
    drawing: &[usize],
) -> bool {
    match HeldGate::of(alloc, held, 1) {
        Ok(gate) => {
            let crew = Crew::new(2, gate);
            let drawn = are_drawn(shares_on(rt, alloc, circuit, &crew, SHARED), drawing);
            let saw_both = crew.gate().saw_both();
            drop(crew);
            drawn & saw_both
        }
        Err(_) => false,
    }
}

/// Returns whether each of two workers does.
fn either_draws_all<R: Threads + Sync>(rt: &R, alloc: Global) -> bool {
    match BLOCKS.circuit(alloc) {
        Ok(circuit) => {
            let second = draws_past(rt, alloc, &circuit, 0, &[0, PARTS]);
            let either = second & draws_past(rt, alloc, &circuit, 1, &[PARTS, 0]);
            drop(circuit);
            either
        }
        Err(_) => false,
    }
}

#[test]
fn either_worker_brings_all_parts_past_a_held_one(rt: HostRuntime) {
    assert!(rt; either_draws_all(&rt, rt.alloc()));
}

/// Returns how a crew shares the work on the blocks.
fn shares_of_crew<R: Threads + Sync>(
    rt: &R,
    alloc: Global,
    crew: &Crew<OpenGate>,
    sizes: Sizes,
) -> Option<Shares> {
    match BLOCKS.circuit(alloc) {
        Ok(circuit) => {
            let shares = shares_on(rt, alloc, &circuit, crew, sizes);
            drop(circuit);
            shares
        }
        Err(_) => None,
    }
}

/// Returns how seven workers share the work on the blocks.
fn shares_of_seven<R: Threads + Sync>(rt: &R, alloc: Global) -> Option<Shares> {
    shares_of_crew(rt, alloc, &Crew::new(7, OpenGate), SHARED)
}

/// Returns how one worker brings the flow of the blocks, if it cuts circuits of `alone` places.
fn shares_of_one<R: Threads + Sync>(rt: &R, alloc: Global, alone: usize) -> Option<Shares> {
    let sizes = Sizes { alone, ..SHARED };
    shares_of_crew(rt, alloc, &Crew::new(1, OpenGate), sizes)
}

#[test]
fn one_worker_draws_each_part_once(rt: HostRuntime) {
    assert!(rt; are_drawn(shares_of_one(&rt, rt.alloc(), PLACES), &[PARTS]));
}

#[test]
fn one_worker_cuts_no_circuit_with_a_place_less(rt: HostRuntime) {
    assert!(rt; shares_of_one(&rt, rt.alloc(), PLACES + 1).is_none());
}

/// Returns how many of them look for components, draw parts, and gather flows.
fn workers_of(shares: Option<Shares>) -> [usize; 3] {
    match shares {
        Some(shares) => {
            let workers = [shares.joining, shares.drawing.len(), shares.gathering];
            drop(shares);
            workers
        }
        None => [0; 3],
    }
}

#[test]
fn each_of_seven_workers_looks_for_components(rt: HostRuntime) {
    let [joining, _, _] = workers_of(shares_of_seven(&rt, rt.alloc()));
    assert!(rt; joining == 7);
}

#[test]
fn each_of_seven_workers_draws_parts(rt: HostRuntime) {
    let [_, drawing, _] = workers_of(shares_of_seven(&rt, rt.alloc()));
    assert!(rt; drawing == 7);
}

#[test]
fn each_of_seven_workers_gathers_flows(rt: HostRuntime) {
    let [_, _, gathering] = workers_of(shares_of_seven(&rt, rt.alloc()));
    assert!(rt; gathering == 7);
}

/// Returns true if ranges follow one another from the first place to the last, and each has `least`
/// places or one more.
fn are_even(ranges: &[Range], places: u32, least: u32) -> bool {
    let mut even = true;
    let mut first: u32 = 0;
    for k in 0..ranges.len() {
        let Range { first: begin, end } = ranges[k];
        let size = end.saturating_sub(begin);
        even = even & (begin == first) & (size >= least) & (size <= least.saturating_add(1));
        first = end;
    }
    even & (first == places)
}

/// Returns true if `workers` workers share a pulse over `places` places evenly.
fn share_evenly(alloc: Global, workers: u32, places: u32, least: u32) -> bool {
    match pulse_ranges(alloc, workers, places as usize) {
        Ok(ranges) => {
            let even = (ranges.len() == workers as usize)
                & are_even(ranges.as_slice(), places, least);
            drop(ranges);
            even
        }
        Err(_) => false,
    }
}

#[test]
fn workers_own_as_many_places_of_a_shared_pulse_or_one_more(rt: HostRuntime) {
    let alloc = rt.alloc();
    let few = share_evenly(alloc, 2, 16, 8) & share_evenly(alloc, 5, 12, 2);
    let many = share_evenly(alloc, 64, 100_000, 1562) & share_evenly(alloc, 7, 3, 0);
    assert!(rt; few & many & share_evenly(alloc, 1, 9, 9));
}
