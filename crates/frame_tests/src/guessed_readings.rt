//! What latches are guessed to read as: how many read as another, in circuits worked out by hand.
use aag_text::read_aag;
use aig_graph::{Aig, Circuit, Keep, Lit};
use latch_classes::{Budget, guess};
use latch_readings::guessed_reading;
use reading_splits::{hashed, reads_another};
use std::alloc::Global;
use std::test::*;

/// Two latches get the conjunction of two inputs, one of them in other gates.
const OTHER_GATES: &[u8] = b"aag 7 2 2 2 3\n2\n4\n6 12\n8 14\n6\n8\n10 5 2\n12 11 2\n14 4 2\n";

/// Two latches get the parity of two inputs, in two forms. Probing alone shows it.
const TWO_PARITIES: &[u8] =
    b"aag 10 2 2 2 6\n2\n4\n6 15\n8 20\n6\n8\n10 5 2\n12 4 3\n14 13 11\n16 4 2\n18 5 3\n20 19 17\n";

/// Two delay lines of seven latches over one input, and a latch that stays 0.
const TWO_LINES: &[u8] =
    b"aag 17 1 15 1 1\n2\n4 2\n6 4\n8 6\n10 8\n12 10\n14 12\n16 14\n18 2\n20 18\n22 20\n24 22\n26 24\n28 26\n30 28\n32 34\n16\n34 32 2\n";

/// How the latches of a circuit are read.
#[derive(Clone, Copy)]
enum Way {
    Guessed,
    Hashed,
}

fn others(aig: &Aig, reads: &[Lit]) -> usize {
    let mut others = 0usize;
    for place in 0..reads.len() {
        if reads_another(aig, place, reads[place]) {
            others = others.wrapping_add(1);
        }
    }
    others
}

/// Hashes from the reading in which all latches stay 0.
fn has_hashed(alloc: Global, aig: &Aig, wanted: usize) -> bool {
    let Ok(widest) = vec![in alloc; Lit::FALSE; aig.latches().len()] else {
        return false;
    };
    match hashed(alloc, aig, widest) {
        Ok(reads) => others(aig, reads.as_slice()) == wanted,
        Err(_) => false,
    }
}

fn has_guessed(alloc: Global, circuit: &Circuit, wanted: usize) -> bool {
    match guessed_reading(alloc, circuit, &Keep::none()) {
        Ok(reads) => others(circuit.aig(), reads.as_slice()) == wanted,
        Err(_) => false,
    }
}

/// Returns true if `wanted` latches of a circuit read as another.
fn merges(alloc: Global, text: &[u8], way: Way, wanted: usize) -> bool {
    match read_aag(alloc, text) {
        Ok(circuit) => match way {
            Way::Guessed => has_guessed(alloc, &circuit, wanted),
            Way::Hashed => has_hashed(alloc, circuit.aig(), wanted),
        },
        Err(_) => false,
    }
}

#[test]
fn other_gates_are_shown_to_be_equal(rt: HostRuntime) {
    assert!(rt; merges(rt.alloc(), OTHER_GATES, Way::Guessed, 1));
}

#[test]
fn two_parities_are_shown_to_be_equal(rt: HostRuntime) {
    assert!(rt; merges(rt.alloc(), TWO_PARITIES, Way::Guessed, 1));
}

#[test]
fn hashing_parts_other_gates(rt: HostRuntime) {
    assert!(rt; merges(rt.alloc(), OTHER_GATES, Way::Hashed, 0));
}

#[test]
fn two_lines_are_one(rt: HostRuntime) {
    assert!(rt; merges(rt.alloc(), TWO_LINES, Way::Guessed, 8));
}

#[test]
fn hashing_finds_that_two_lines_are_one(rt: HostRuntime) {
    assert!(rt; merges(rt.alloc(), TWO_LINES, Way::Hashed, 8));
}

/// Returns true if a guess without a budget says that it isn't settled.
fn is_unsettled(alloc: Global, text: &[u8]) -> bool {
    let Ok(circuit) = read_aag(alloc, text) else {
        return false;
    };
    let aig = circuit.aig();
    let Ok(widest) = vec![in alloc; Lit::FALSE; aig.latches().len()] else {
        return false;
    };
    match guess(alloc, aig, widest, Budget::of(0, 0, 0)) {
        Ok(guess) => !guess.is_settled,
        Err(_) => false,
    }
}

#[test]
fn a_guess_without_a_budget_is_unsettled(rt: HostRuntime) {
    assert!(rt; is_unsettled(rt.alloc(), OTHER_GATES));
}
