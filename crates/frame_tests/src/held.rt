//! Latches that are held by their names and by their positions, and their positions after a run.
//! `tests/cases/keep` has what the program makes of them.
use crate::circuits::options;
use aag_text::read_aag;
use aig_graph::{Circuit, HoldError, hold, keep_of};
use frames::{GivenCircuit, NoWatcher, Options, RetimeError, run_watched};
use pulse::{Crew, OpenGate};
use std::alloc::Global;
use std::test::*;
use std::thread::Threads;
use std::{mem, slice};

/// An input, and three latches, of which the last two have names.
const NAMED: &[u8] = b"aag 4 1 3 1 0\n2\n4 2\n6 2\n8 8\n6\nl1 twin\nl2 stuck\n";

/// Returns true if no latch is held when none is asked for, and a position past the last latch is
/// refused.
fn holds_no_other(alloc: Global, circuit: &Circuit) -> bool {
    let past = hold(alloc, circuit, &[], &[0, 3]).err() == Some(HoldError::NoSuchLatch(1));
    match keep_of(alloc, circuit, &[]) {
        Ok(keep) => past & keep.positions().is_empty(),
        Err(_) => false,
    }
}

/// Returns true if the latch of a name, the second, and one at a position are held.
fn holds_both(alloc: Global, circuit: &Circuit, twin: &[Vec<u8>]) -> bool {
    match hold(alloc, circuit, twin, &[2]) {
        Ok(keep) => keep.positions() == [1, 2].as_slice(),
        Err(_) => false,
    }
}

/// Returns true if both are held in the circuit of the text.
fn holds_each(alloc: Global, twin: &[Vec<u8>]) -> bool {
    match read_aag(alloc, NAMED) {
        Ok(circuit) => {
            let holds = holds_no_other(alloc, &circuit) & holds_both(alloc, &circuit, twin);
            drop(circuit);
            holds
        }
        Err(_) => false,
    }
}

/// Returns true if they are with this name.
fn holds_twin(alloc: Global) -> bool {
    match Vec::from_slice(alloc, b"twin") {
        Ok(twin) => holds_each(alloc, slice::from_ref(&twin)),
        Err(_) => false,
    }
}

#[test]
fn holds_latches_by_name_and_by_position(rt: HostRuntime) {
    assert!(rt; holds_twin(rt.alloc()));
}

/// An input and two latches, of which the output reads the second alone.
const SECOND_READ: &[u8] = b"aag 3 1 2 1 0\n2\n4 2\n6 3\n6\n";

/// Returns the position of the held latch at the end of a run by these options, or why the run was
/// refused. There is no position 9.
fn ends_at<R: Threads + Sync>(
    rt: &R,
    alloc: Global,
    circuit: &Circuit,
    options: &Options,
) -> Result<u32, RetimeError> {
    let crew = Crew::new(1, OpenGate);
    let lent = GivenCircuit::Lent(circuit);
    match run_watched(rt, alloc, lent, options, &crew, &mut NoWatcher) {
        Ok(run) => {
            let place = run.keep.positions().first().copied().unwrap_or(9);
            drop(run);
            Ok(place)
        }
        Err(error) => Err(error),
    }
}

/// Returns [`ends_at`] with the latch at this position held.
fn stands_at<R: Threads + Sync>(
    rt: &R,
    alloc: Global,
    circuit: &Circuit,
    position: u32,
) -> Result<u32, RetimeError> {
    let mut options = options(alloc, 1);
    let Ok(held) = Vec::from_array(alloc, [position]) else {
        drop(options);
        return Err(RetimeError::NoMemory);
    };
    drop(mem::replace(&mut options.keep_latches, held));
    let stands = ends_at(rt, alloc, circuit, &options);
    drop(options);
    stands
}

/// Returns true if held latches end as they were worked by hand. The first latch stays at its
/// position. The second one becomes the first, since nothing holds the first. A third one doesn't
/// exist.
fn stand_as_worked<R: Threads + Sync>(rt: &R, alloc: Global) -> bool {
    match read_aag(alloc, SECOND_READ) {
        Ok(circuit) => {
            let stand = (stands_at(rt, alloc, &circuit, 0) == Ok(0))
                & (stands_at(rt, alloc, &circuit, 1) == Ok(0))
                & (stands_at(rt, alloc, &circuit, 2) == Err(RetimeError::NoSuchLatch(0)));
            drop(circuit);
            stand
        }
        Err(_) => false,
    }
}

#[test]
fn a_run_says_where_held_latches_stand(rt: HostRuntime) {
    assert!(rt; stand_as_worked(&rt, rt.alloc()));
}
