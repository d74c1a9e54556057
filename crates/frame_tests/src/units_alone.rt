//! A flow of units shows the chosen least set by itself, with a certificate and without. A gate
//! counts that no phase of a maximum flow is made.
use crate::circuits::is_set;
use crate::counting_gate::CountingGate;
use aag_text::read_aag;
use aig_graph::{Choice, Circuit, Keep};
use chosen_cuts::{Records, chosen_least_along};
use pulse::Crew;
use std::alloc::Global;
use std::test::*;
use std::thread::Threads;

/// Two inputs, a latch at each, and the gate of the latches, which is variable 5 and the output. A
/// gate of that and of the second latch is read by nothing.
const READ_AGAIN: &[u8] = b"aag 6 2 2 1 2\n2\n4\n6 2\n8 4\n10\n10 8 6\n12 10 8\n";

/// Returns true if the chosen least set has both gates.
fn is_of_both<R: Threads + Sync>(
    rt: &R,
    alloc: Global,
    circuit: &Circuit,
    choice: Choice,
    certify: bool,
    crew: &Crew<CountingGate>,
) -> bool {
    let keep = Keep::none();
    let mut records = Records::new(alloc, certify);
    let set = chosen_least_along(rt, alloc, circuit, &keep, choice, crew, &mut records);
    let certificates = records.certificates.as_slice().len();
    drop(records);
    is_set(set, &[5, 6]) & (certificates == usize::from(certify))
}

/// Returns true if it has for both choices, with a certificate and without, and no phase is made
/// for any. One latch is left after a move over both gates. If the second doesn't move, the second
/// latch stays for it, so this is the one least set.
///
/// A start brings the unit of the second latch through the first gate, after which it leaves,
/// though the second gate reads on. No more go through, so that of the first latch can't leave, and
/// no pulse is made. A maximum flow of the network begins with both units at the latches, and makes
/// a pulse at least.
fn are_shown_by_starts<R: Threads + Sync>(rt: &R, alloc: Global, circuit: &Circuit) -> bool {
    match CountingGate::from(alloc, 1, 0) {
        Ok(gate) => {
            let crew = Crew::new(1, gate);
            let shown = is_of_both(rt, alloc, circuit, Choice::Greatest, false, &crew)
                & is_of_both(rt, alloc, circuit, Choice::Smallest, false, &crew)
                & is_of_both(rt, alloc, circuit, Choice::Greatest, true, &crew)
                & is_of_both(rt, alloc, circuit, Choice::Smallest, true, &crew);
            let none_passed = crew.gate().saw_all(0);
            drop(crew);
            shown & none_passed
        }
        Err(_) => false,
    }
}

/// Returns true if they are for the circuit of the text.
fn are_shown<R: Threads + Sync>(rt: &R, alloc: Global) -> bool {
    match read_aag(alloc, READ_AGAIN) {
        Ok(circuit) => {
            let shown = are_shown_by_starts(rt, alloc, &circuit);
            drop(circuit);
            shown
        }
        Err(_) => false,
    }
}

#[test]
fn no_phase_is_made_where_a_start_shows_the_set(rt: HostRuntime) {
    assert!(rt; are_shown(&rt, rt.alloc()));
}
