//! The pulses of a flow that are shared. Two workers make the first one of a circuit of 16 latches
//! and gates. No second worker has a part in those of a circuit of 17. The calling thread passes
//! and leaves each phase of a pulse that it makes alone.
use crate::counting_gate::CountingGate;
use crate::wide_circuits::{BLOCK, FanIn, Units};
use aig_graph::{Choice, Circuit, Keep};
use chosen_cuts::{Records, chosen_least_along};
use pulse::Crew;
use std::alloc::Global;
use std::test::*;
use std::thread::Threads;

/// A gate of the first two latches, which is the output, one of it and the next latch, and so on to
/// the eighth. A last one reads the last of these and the eighth again. All gates are in the
/// greatest least set, since nothing else reads what they read.
const CHAIN: &[[FanIn; 2]] = &[
    [FanIn::Latch(1), FanIn::Latch(0)],
    [FanIn::Kind(0), FanIn::Latch(2)],
    [FanIn::Kind(1), FanIn::Latch(3)],
    [FanIn::Kind(2), FanIn::Latch(4)],
    [FanIn::Kind(3), FanIn::Latch(5)],
    [FanIn::Kind(4), FanIn::Latch(6)],
    [FanIn::Kind(5), FanIn::Latch(7)],
    [FanIn::Kind(6), FanIn::Latch(7)],
];

/// Eight gates and eight latches, which are 16 places.
const SIXTEEN: Units = Units {
    count: 1,
    latches: 8,
    kinds: CHAIN,
    outputs: 1,
    joined: None,
};

/// That circuit with a latch that nothing reads.
const SEVENTEEN: Units = Units {
    count: 1,
    latches: 9,
    kinds: CHAIN,
    outputs: 1,
    joined: None,
};

/// A block leaves units to bring after a start.
const FOUR_BLOCKS: Units = Units {
    count: 4,
    latches: 3,
    kinds: BLOCK,
    outputs: 3,
    joined: None,
};

/// Returns how many gates the greatest least set has that a crew finds, or none.
fn gates_by<R: Threads + Sync>(
    rt: &R,
    alloc: Global,
    circuit: &Circuit,
    crew: &Crew<CountingGate>,
) -> Option<usize> {
    let keep = Keep::none();
    let mut records = Records::new(alloc, false);
    let greatest = Choice::Greatest;
    let set = chosen_least_along(rt, alloc, circuit, &keep, greatest, crew, &mut records);
    drop(records);
    match set {
        Ok(set) => Some(set.vars().len()),
        Err(_) => None,
    }
}

/// Returns true if `workers` workers find a set of `gates` gates, and the last worker takes part as
/// `is_shared` says. It takes part if it passes and leaves both phases of a pulse.
fn shares<R: Threads + Sync>(
    rt: &R,
    alloc: Global,
    circuit: &Circuit,
    workers: u32,
    gates: usize,
    is_shared: bool,
) -> bool {
    match CountingGate::from(alloc, workers, 0) {
        Ok(gate) => {
            let crew = Crew::new(workers.clamp(1, 64), gate);
            let found = gates_by(rt, alloc, circuit, &crew);
            let last = u64::from(workers).saturating_sub(1);
            let saw = crew.gate().saw(2, last);
            drop(crew);
            (found == Some(gates)) & (saw == is_shared)
        }
        Err(_) => false,
    }
}

/// Returns whether it is so on the circuit of units.
fn shares_on<R: Threads + Sync>(
    rt: &R,
    alloc: Global,
    units: &Units,
    workers: u32,
    gates: usize,
    is_shared: bool,
) -> bool {
    match units.circuit(alloc) {
        Ok(circuit) => {
            let shared = shares(rt, alloc, &circuit, workers, gates, is_shared);
            drop(circuit);
            shared
        }
        Err(_) => false,
    }
}

#[test]
fn two_workers_share_the_first_pulse_of_16_places_and_none_of_17(rt: HostRuntime) {
    let alloc = rt.alloc();
    let sixteen = shares_on(&rt, alloc, &SIXTEEN, 2, 8, true);
    assert!(rt; sixteen & shares_on(&rt, alloc, &SEVENTEEN, 2, 8, false));
}

#[test]
fn one_worker_passes_and_leaves_both_phases_of_its_pulses(rt: HostRuntime) {
    assert!(rt; shares_on(&rt, rt.alloc(), &FOUR_BLOCKS, 1, 12, true));
}
