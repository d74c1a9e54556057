//! The frames of two chains of latches. The set of a frame doesn't depend on what is known of the
//! last flow.
use crate::circuits::{CHAINS, is_set, options};
use crate::meeting_gates::MeetingGate;
use aag_text::read_aag;
use aig_graph::{Choice, Circuit, Keep};
use chosen_cuts::{Records, chosen_least_along};
use frames::{FrameReport, Rounds, retime};
use pulse::{Crew, OpenGate};
use std::alloc::Global;
use std::mem;
use std::test::*;
use std::thread::Threads;
use unit_flows::GateFlow;

/// Returns the report of a frame over one gate.
fn over_one_gate(before: u32) -> FrameReport {
    FrameReport {
        before,
        after: before.saturating_sub(1),
        moved: 1,
    }
}

/// Returns true if two latches are left, after two frames. `tests/cases/frames` has the text.
fn has_two_latches(retimed: &Rounds) -> bool {
    (retimed.frames.as_slice() == [over_one_gate(4), over_one_gate(3)].as_slice())
        & (retimed.circuit.aig().latches().len() == 2)
        & (retimed.read_latches == 4)
        & retimed.kept_free.is_empty()
}

/// Returns true if two frames are taken, and none after that would help. Two workers take them,
/// which are at work at once in each phase of the first pulse.
fn takes_two_frames<R: Threads + Sync>(rt: &R, alloc: Global, circuit: &Circuit) -> bool {
    let options = options(alloc, 1 << 28);
    let crew = Crew::new(2, MeetingGate::new());
    let retimed = retime(rt, alloc, circuit, &options, &crew);
    drop(options);
    let right = match &retimed {
        Ok(retimed) => has_two_latches(retimed),
        Err(_) => false,
    };
    drop(retimed);
    right & crew.gate().saw_both(0) & crew.gate().saw_both(1)
}

/// Returns the flow of a gate that a number spells, bit by bit.
fn flow_of(number: u8) -> GateFlow {
    GateFlow {
        first_up: number % 2 == 1,
        second_up: number / 2 % 2 == 1,
        through: number / 4 % 2 == 1,
        first_down: number / 8 % 4,
        second_down: number / 32,
    }
}

/// Returns the flow with all that a gate's flow can have.
fn fullest_flow() -> GateFlow {
    GateFlow {
        first_up: true,
        second_up: true,
        through: true,
        first_down: u8::MAX,
        second_down: u8::MAX,
    }
}

/// Returns true if the gate is the greatest least set, with these known flows.
fn finds_gate<R: Threads + Sync>(
    rt: &R,
    alloc: Global,
    circuit: &Circuit,
    flows: Vec<GateFlow>,
) -> bool {
    let mut records = Records::new(alloc, false);
    drop(mem::replace(&mut records.flows, flows));
    let crew = Crew::new(1, OpenGate);
    let keep = Keep::none();
    let greatest = Choice::Greatest;
    let set = chosen_least_along(rt, alloc, circuit, &keep, greatest, &crew, &mut records);
    drop(records);
    is_set(set, &[7])
}

/// Returns true if it is with `count` known flows, each of them `flow`.
fn finds_gate_along<R: Threads + Sync>(
    rt: &R,
    alloc: Global,
    circuit: &Circuit,
    flow: GateFlow,
    count: usize,
) -> bool {
    match vec![in alloc; flow; count] {
        Ok(flows) => finds_gate(rt, alloc, circuit, flows),
        Err(_) => false,
    }
}

/// Returns true if it is for many flows, of too few gates, of the one gate, and of too many.
fn finds_gate_whatever_is_known<R: Threads + Sync>(
    rt: &R,
    alloc: Global,
    circuit: &Circuit,
) -> bool {
    let mut finds = finds_gate_along(rt, alloc, circuit, fullest_flow(), 1);
    for number in 0..128u8 {
        let count = number as usize % 3;
        finds = finds & finds_gate_along(rt, alloc, circuit, flow_of(number), count);
    }
    finds
}

/// Returns true if both are so of the chains.
fn chains_are_as_worked<R: Threads + Sync>(rt: &R, alloc: Global) -> bool {
    match read_aag(alloc, CHAINS) {
        Ok(circuit) => {
            let holds = takes_two_frames(rt, alloc, &circuit)
                & finds_gate_whatever_is_known(rt, alloc, &circuit);
            drop(circuit);
            holds
        }
        Err(_) => false,
    }
}

#[test]
fn chains_take_two_frames_by_two_workers_and_the_same_set_whatever_is_known(rt: HostRuntime) {
    assert!(rt; chains_are_as_worked(&rt, rt.alloc()));
}
