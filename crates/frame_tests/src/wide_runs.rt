//! Two workers own the components of a frame that is large enough to be cut, both at once.
use crate::circuits::options;
use crate::meeting_gates::MeetingGate;
use crate::wide_circuits::{PAIR, Units};
use aig_graph::Circuit;
use frames::retime;
use pulse::Crew;
use std::alloc::Global;
use std::test::*;
use std::thread::Threads;

/// The least number of pairs of latches that is cut: with their gates they are 2^19 + 1 places.
const PAIRS: usize = 174_763;

const ALL_PAIRS: Units = Units {
    count: PAIRS as u64,
    latches: 2,
    kinds: PAIR,
    outputs: 1,
    joined: None,
};

/// Returns true if two workers are at work at once, and leave a latch of each pair.
fn own_at_once<R: Threads + Sync>(rt: &R, alloc: Global, circuit: &Circuit) -> bool {
    let options = options(alloc, 1);
    let crew = Crew::new(2, MeetingGate::new());
    let retimed = retime(rt, alloc, circuit, &options, &crew);
    drop(options);
    let left = match &retimed {
        Ok(retimed) => retimed.circuit.aig().latches().len(),
        Err(_) => 0,
    };
    drop(retimed);
    (left == PAIRS) & crew.gate().saw_both(0)
}

/// Returns true if they are on the circuit of the pairs.
fn own_pairs_at_once<R: Threads + Sync>(rt: &R, alloc: Global) -> bool {
    match ALL_PAIRS.circuit(alloc) {
        Ok(circuit) => {
            let own = own_at_once(rt, alloc, &circuit);
            drop(circuit);
            own
        }
        Err(_) => false,
    }
}

#[test]
fn two_workers_own_the_components_of_a_large_frame(rt: HostRuntime) {
    assert!(rt; own_pairs_at_once(&rt, rt.alloc()));
}
