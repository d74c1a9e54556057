//! Two workers are at work in a phase of `retime` at once. One is held as the phase begins for it,
//! until the other has left it. The calling thread passes and leaves each phase of a pulse that it
//! makes alone.
use crate::circuits::{TWO_LATCHES, options};
use crate::held_gate::HeldGate;
use aag_text::read_aag;
use aig_graph::Circuit;
use frames::retime;
use pulse::Crew;
use std::alloc::Global;
use std::test::*;
use std::thread::Threads;

/// Returns true if two workers pass and leave the first two phases of a frame, with this one held.
fn holds<R: Threads + Sync>(rt: &R, alloc: Global, circuit: &Circuit, held: u32) -> bool {
    match HeldGate::of(alloc, held, 2) {
        Ok(gate) => {
            let crew = Crew::new(2, gate);
            let done = retimes(rt, alloc, circuit, &crew);
            let saw_both = crew.gate().saw_both();
            drop(crew);
            done & saw_both
        }
        Err(_) => false,
    }
}

/// Returns whether a crew takes one frame, which leaves one latch.
fn retimes<R: Threads + Sync>(
    rt: &R,
    alloc: Global,
    circuit: &Circuit,
    crew: &Crew<HeldGate>,
) -> bool {
    let options = options(alloc, 1);
    let retimed = retime(rt, alloc, circuit, &options, crew);
    drop(options);
    let left = match &retimed {
        Ok(retimed) => retimed.circuit.aig().latches().len(),
        Err(_) => 0,
    };
    drop(retimed);
    left == 1
}

/// Returns whether either worker can be held on the circuit of two latches.
fn holds_either<R: Threads + Sync>(rt: &R, alloc: Global) -> bool {
    match read_aag(alloc, TWO_LATCHES) {
        Ok(circuit) => {
            let first = holds(rt, alloc, &circuit, 0);
            let both = first & holds(rt, alloc, &circuit, 1);
            drop(circuit);
            both
        }
        Err(_) => false,
    }
}

#[test]
fn holds_either_worker(rt: HostRuntime) {
    assert!(rt; holds_either(&rt, rt.alloc()));
}
