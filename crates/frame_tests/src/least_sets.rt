//! The greatest and the smallest least set of a circuit that has two, by crews of several sizes,
//! without a certificate and with one.
use crate::circuits::is_set;
use crate::cuts::TWO_LEAST_SETS;
use aag_text::read_aag;
use aig_graph::{Choice, Circuit, Keep};
use chosen_cuts::{Records, chosen_least_along};
use pulse::{Crew, OpenGate};
use std::alloc::Global;
use std::test::*;
use std::thread::Threads;

/// Returns whether a crew finds these gates by a flow of units, and makes a certificate if one is
/// wanted.
fn finds<R: Threads + Sync>(
    rt: &R,
    alloc: Global,
    circuit: &Circuit,
    choice: Choice,
    certify: bool,
    crew: &Crew<OpenGate>,
    gates: &[u32],
) -> bool {
    let keep = Keep::none();
    let mut records = Records::new(alloc, certify);
    let set = chosen_least_along(rt, alloc, circuit, &keep, choice, crew, &mut records);
    let certificates = records.certificates.as_slice().len();
    let networks = records.networks;
    drop(records);
    is_set(set, gates) & (certificates == usize::from(certify)) & (networks == 0)
}

/// Returns whether it finds both gates as the greatest set, and the first alone as the smallest.
fn finds_both<R: Threads + Sync>(
    rt: &R,
    alloc: Global,
    circuit: &Circuit,
    crew: &Crew<OpenGate>,
    certify: bool,
) -> bool {
    let greatest = finds(rt, alloc, circuit, Choice::Greatest, certify, crew, &[7, 8]);
    greatest & finds(rt, alloc, circuit, Choice::Smallest, certify, crew, &[7])
}

/// Returns whether one, two, seven and sixty-four workers do.
fn each_crew_finds_both<R: Threads + Sync>(rt: &R, alloc: Global, circuit: &Circuit) -> bool {
    let mut all = true;
    for workers in [1u32, 2, 7, 64] {
        let crew = Crew::new(workers.clamp(1, 64), OpenGate);
        all = all
            & finds_both(rt, alloc, circuit, &crew, false)
            & finds_both(rt, alloc, circuit, &crew, true);
    }
    all
}

/// Returns whether they do on the circuit's text.
fn each_crew_finds_both_of_text<R: Threads + Sync>(rt: &R, alloc: Global) -> bool {
    match read_aag(alloc, TWO_LEAST_SETS) {
        Ok(circuit) => {
            let both = each_crew_finds_both(rt, alloc, &circuit);
            drop(circuit);
            both
        }
        Err(_) => false,
    }
}

#[test]
fn each_crew_finds_the_greatest_and_the_smallest_set(rt: HostRuntime) {
    assert!(rt; each_crew_finds_both_of_text(&rt, rt.alloc()));
}
