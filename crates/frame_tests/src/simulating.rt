//! Stimuli that are read, traces of a circuit of two latches, and the first difference of two
//! circuits.
use crate::circuits::TWO_LATCHES;
use aag_text::{ReadError, read_aag};
use aig_graph::Circuit;
use lane_sim::{
    Place, SimError, StimError, Stimulus, Trace, first_difference, read_stimulus, simulate,
};
use std::alloc::Global;
use std::test::*;
use std::thread::Threads;

/// A sequence of three steps for two inputs, and one of one step.
const STIMULUS: &[u8] = b"=\n:11\n:01\n:11\n=\n:11\n";

/// Two latches as in the other circuit, and the gate of their negations.
const NEGATED_LATCHES: &[u8] = b"aag 5 2 2 1 1\n2\n4\n6 2\n8 4\n10\n10 9 7\n";

/// The other circuit with a gate of one latch alone.
const ONE_READ: &[u8] = b"aag 5 2 2 1 1\n2\n4\n6 2\n8 4\n10\n10 8 8\n";

/// One input, and no latch.
const ONE_INPUT: &[u8] = b"aag 1 1 0 1 0\n2\n2\n";

/// Returns whether there are two sequences, of three steps and of one.
fn has_sequences(stimulus: &Stimulus) -> bool {
    (stimulus.sequences() == 2)
        & (stimulus.steps(0) == Some(3))
        & (stimulus.steps(1) == Some(1))
        & (stimulus.steps(2) == None)
}

/// Returns true if the gate is 1 in the second step alone, after both inputs were, and the trace
/// ends as the sequences do.
fn is_as_worked(trace: &Trace) -> bool {
    (trace.get(0, 0, 0) == Some(false))
        & (trace.get(0, 1, 0) == Some(true))
        & (trace.get(0, 2, 0) == Some(false))
        & (trace.get(0, 3, 0) == None)
        & (trace.get(1, 0, 0) == Some(false))
        & (trace.get(1, 1, 0) == None)
        & (trace.get(2, 0, 0) == None)
        & (trace.get(0, 0, 1) == None)
}

/// Returns whether the circuit of two latches has that trace.
fn traces<R: Threads + Sync>(
    rt: &R,
    alloc: Global,
    circuit: &Circuit,
    stimulus: &Stimulus,
) -> bool {
    match simulate(rt, alloc, circuit, stimulus) {
        Ok(trace) => {
            let worked = is_as_worked(&trace);
            drop(trace);
            worked
        }
        Err(_) => false,
    }
}

/// Returns the first place at which the circuit of a text differs from another.
fn differs<R: Threads + Sync>(
    rt: &R,
    alloc: Global,
    circuit: &Circuit,
    text: &[u8],
    stimulus: &Stimulus,
) -> Result<Result<Option<Place>, SimError>, ReadError> {
    match read_aag(alloc, text) {
        Ok(other) => {
            let found = first_difference(rt, alloc, circuit, &other, stimulus);
            drop(other);
            Ok(found)
        }
        Err(error) => Err(error),
    }
}

/// Returns whether two circuits differ first at a step of the first sequence.
fn is_at_step(found: Result<Result<Option<Place>, SimError>, ReadError>, at: usize) -> bool {
    match found {
        Ok(Ok(Some(place))) => (place.sequence == 0) & (place.step == at) & (place.place == 0),
        _ => false,
    }
}

/// Returns true if the circuit differs from itself nowhere, and from that of the negations at once.
/// From that of one latch it differs after the step in which one input is 1. From one with another
/// number of inputs it differs in shape.
fn differ_as_worked<R: Threads + Sync>(
    rt: &R,
    alloc: Global,
    circuit: &Circuit,
    stimulus: &Stimulus,
) -> bool {
    let itself = matches!(
        differs(rt, alloc, circuit, TWO_LATCHES, stimulus),
        Ok(Ok(None))
    );
    let shape = differs(rt, alloc, circuit, ONE_INPUT, stimulus);
    itself
        & is_at_step(differs(rt, alloc, circuit, NEGATED_LATCHES, stimulus), 0)
        & is_at_step(differs(rt, alloc, circuit, ONE_READ, stimulus), 2)
        & matches!(shape, Ok(Err(SimError::Shape)))
}

/// Returns whether all of it is so on the stimulus.
fn are_as_worked<R: Threads + Sync>(rt: &R, alloc: Global, stimulus: &Stimulus) -> bool {
    match read_aag(alloc, TWO_LATCHES) {
        Ok(circuit) => {
            let worked = has_sequences(stimulus)
                & traces(rt, alloc, &circuit, stimulus)
                & differ_as_worked(rt, alloc, &circuit, stimulus);
            drop(circuit);
            worked
        }
        Err(_) => false,
    }
}

/// Returns whether it is on the stimulus that is read.
fn simulates<R: Threads + Sync>(rt: &R, alloc: Global) -> bool {
    match read_stimulus(alloc, STIMULUS, 2, 0) {
        Ok(stimulus) => {
            let worked = are_as_worked(rt, alloc, &stimulus);
            drop(stimulus);
            worked
        }
        Err(_) => false,
    }
}

/// Returns true if a line of one input is refused for a circuit of two.
fn refuses_width(alloc: Global) -> bool {
    match read_stimulus(alloc, b"=\n:1\n", 2, 0) {
        Ok(stimulus) => {
            drop(stimulus);
            false
        }
        Err(error) => matches!(error, StimError::Width(2)),
    }
}

#[test]
fn simulates_and_compares_circuits_on_a_stimulus(rt: HostRuntime) {
    assert!(rt; simulates(&rt, rt.alloc()) & refuses_width(rt.alloc()));
}
