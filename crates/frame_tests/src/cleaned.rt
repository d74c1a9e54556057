//! A circuit that is cleaned, no latch held, and the passable gates of one.
use crate::circuits::{TWO_LATCHES, is_text};
use aag_text::read_aag;
use aig_graph::{Circuit, Keep};
use clean::clean;
use frame_net::passable;
use std::alloc::Global;
use std::test::*;

/// An input, and three free latches: the first two read it, the third reads the first and is the
/// output.
const FREE_LATCHES: &[u8] = b"aag 4 1 3 1 0\n2\n4 2 4\n6 2 6\n8 4 8\n8\n";

/// The first and the third are left.
const FIRST_AND_THIRD: &[u8] = b"aag 3 1 2 1 0\n2\n4 2 4\n6 4 6\n6\n";

/// Returns true if cleaning leaves these two of the circuit.
fn cleans_to_two(alloc: Global, circuit: &Circuit) -> bool {
    match clean(alloc, circuit, &Keep::none()) {
        Ok(cleaned) => {
            let are_left = is_text(alloc, &cleaned.circuit, FIRST_AND_THIRD);
            let places = cleaned.kept_free.as_slice() == [0, 2].as_slice();
            drop(cleaned);
            are_left & places
        }
        Err(_) => false,
    }
}

/// Returns true if it leaves them of the circuit's text.
fn cleans_text_to_two(alloc: Global) -> bool {
    match read_aag(alloc, FREE_LATCHES) {
        Ok(circuit) => {
            let cleans = cleans_to_two(alloc, &circuit);
            drop(circuit);
            cleans
        }
        Err(_) => false,
    }
}

#[test]
fn tells_which_free_latches_stay(rt: HostRuntime) {
    assert!(rt; cleans_text_to_two(rt.alloc()));
}

/// Returns true if the gate alone is passable.
fn passes_gate(alloc: Global, circuit: &Circuit) -> bool {
    match passable(alloc, circuit.aig(), &Keep::none()) {
        Ok(pass) => {
            let passes = pass.has(5) & !pass.has(4) & (pass.count() == 1);
            drop(pass);
            passes
        }
        Err(_) => false,
    }
}

/// Returns true if it is in the circuit of the text.
fn passes_gate_of_text(alloc: Global) -> bool {
    match read_aag(alloc, TWO_LATCHES) {
        Ok(circuit) => {
            let passes = passes_gate(alloc, &circuit);
            drop(circuit);
            passes
        }
        Err(_) => false,
    }
}

#[test]
fn tells_passable_gates(rt: HostRuntime) {
    assert!(rt; passes_gate_of_text(rt.alloc()));
}
