//! Held latches in cleaning, passable gates, resets and moves. A held latch is merged with no other
//! and dropped by none, and no gate that reads it moves.
use crate::circuits::{TWO_LATCHES, is_text, set_of};
use crate::moves::moved_over;
use aag_text::read_aag;
use aig_graph::{Circuit, ClosedSet, Keep, Reset, hold, is_closed};
use clean::clean;
use frame_net::passable;
use rebuild::resets;
use std::alloc::Global;
use std::test::*;

/// An input, two latches that read it, and one that reads itself; the second is the output, and it
/// and the third have names.
const TWIN_AND_STUCK: &[u8] = b"aag 4 1 3 1 0\n2\n4 2\n6 2\n8 8\n6\nl1 twin\nl2 stuck\n";

/// What is left if the last two are held.
const BOTH_LEFT: &[u8] = b"aag 3 1 2 1 0\n2\n4 2\n6 6\n4\nl0 twin\nl1 stuck\n";

/// What is left if none is held: one of the twins, which has its own name.
const ONE_LEFT: &[u8] = b"aag 2 1 1 1 0\n2\n4 2\n4\n";

/// Returns whether a circuit is cleaned to this one, whose held latches stand at these positions.
fn cleans_to(alloc: Global, circuit: &Circuit, held: &[u32], text: &[u8], stand: &[u32]) -> bool {
    match hold(alloc, circuit, &[], held) {
        Ok(keep) => match clean(alloc, circuit, &keep) {
            Ok(cleaned) => {
                let is_left = is_text(alloc, &cleaned.circuit, text);
                let stands = cleaned.keep.positions() == stand;
                drop(cleaned);
                is_left & stands
            }
            Err(_) => false,
        },
        Err(_) => false,
    }
}

/// Returns whether both latches stay if they are held, and one of the three if none is.
fn keeps_twin_and_stuck(alloc: Global) -> bool {
    match read_aag(alloc, TWIN_AND_STUCK) {
        Ok(circuit) => {
            let held = cleans_to(alloc, &circuit, &[1, 2], BOTH_LEFT, &[0, 1]);
            let free = cleans_to(alloc, &circuit, &[], ONE_LEFT, &[]);
            drop(circuit);
            held & free
        }
        Err(_) => false,
    }
}

#[test]
fn cleans_neither_a_held_twin_nor_a_held_stuck_latch(rt: HostRuntime) {
    assert!(rt; keeps_twin_and_stuck(rt.alloc()));
}

/// Returns whether the gate that reads a held latch isn't passable.
fn is_barred(alloc: Global, circuit: &Circuit, keep: &Keep) -> bool {
    match passable(alloc, circuit.aig(), keep) {
        Ok(pass) => {
            let none = !pass.has(5) & (pass.count() == 0);
            drop(pass);
            none
        }
        Err(_) => false,
    }
}

/// Returns whether it has no reset, and it alone is no closed set.
fn is_without_reset(alloc: Global, circuit: &Circuit, keep: &Keep) -> bool {
    let closed = match set_of(alloc, 5) {
        Some(set) => is_closed(circuit.aig(), &set, keep),
        None => true,
    };
    match resets(alloc, circuit.aig(), keep) {
        Ok(resets) => !closed & (resets.as_slice() == [Reset::Free].as_slice()),
        Err(_) => false,
    }
}

/// Returns whether both are so if the first of two latches is held.
fn bars_gate(alloc: Global, circuit: &Circuit) -> bool {
    match hold(alloc, circuit, &[], &[0]) {
        Ok(keep) => { is_barred(alloc, circuit, &keep) & is_without_reset(alloc, circuit, &keep) }
        Err(_) => false,
    }
}

/// Returns whether they are so of the circuit's text.
fn bars_gate_of_text(alloc: Global) -> bool {
    match read_aag(alloc, TWO_LATCHES) {
        Ok(circuit) => {
            let bars = bars_gate(alloc, &circuit);
            drop(circuit);
            bars
        }
        Err(_) => false,
    }
}

#[test]
fn passes_no_gate_on_a_held_latch_and_gives_it_no_reset(rt: HostRuntime) {
    assert!(rt; bars_gate_of_text(rt.alloc()));
}

/// Three latches, of which a gate reads the first two, and nothing reads the third.
const IDLE: &[u8] = b"aag 6 2 3 1 1\n2\n4\n6 2\n8 4\n10 2\n12\n12 8 6\nl2 idle\n";

/// It with latches moved over the gate: the idle latch stays if it is held, before the new one, and
/// else goes.
const IDLE_STAYS: &[u8] = b"aag 5 2 2 1 1\n2\n4\n6 2\n8 10\n8\n10 4 2\nl0 idle\n";

const IDLE_GOES: &[u8] = b"aag 4 2 1 1 1\n2\n4\n6 8\n6\n8 4 2\n";

/// Returns true if a circuit becomes that of the text, with `border` latches in the border, if
/// latches move over the set. These latches are held.
fn moves_to(
    alloc: Global,
    circuit: &Circuit,
    set: &ClosedSet,
    held: &[u32],
    border: u32,
    text: &[u8],
) -> bool {
    match hold(alloc, circuit, &[], held) {
        Ok(keep) => moved_over(alloc, circuit, set, &keep, border, text),
        Err(_) => false,
    }
}

/// Returns whether it is so of the gate.
fn moves_past(alloc: Global, circuit: &Circuit) -> bool {
    match set_of(alloc, 6) {
        Some(set) => {
            moves_to(alloc, circuit, &set, &[2], 2, IDLE_STAYS)
                & moves_to(alloc, circuit, &set, &[], 1, IDLE_GOES)
        }
        None => false,
    }
}

/// Returns whether it is of the circuit's text.
fn moves_past_idle(alloc: Global) -> bool {
    match read_aag(alloc, IDLE) {
        Ok(circuit) => {
            let moves = moves_past(alloc, &circuit);
            drop(circuit);
            moves
        }
        Err(_) => false,
    }
}

#[test]
fn moves_past_a_held_latch_that_nothing_reads(rt: HostRuntime) {
    assert!(rt; moves_past_idle(rt.alloc()));
}
