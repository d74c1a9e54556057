//! The gate of two latches' negations: its border, its reset, and the circuit moved over it.
ghost use Rattle.std.specs.Prelude.{◌+◌, ◌≤◌, IsTrue, length};
ghost use Rattle.aig_graph.specs.declared.literal.TheConstants.{MAX_VARIABLES};
ghost use Rattle.aig_graph.specs.Graph.{first_latch, free_latches};

use crate::circuits::{is_text, set_of};
use aag_text::read_aag;
use aig_graph::{Aig, Circuit, ClosedSet, Keep, MAX_VARIABLES, Reset, count, is_closed};
use rebuild::{moved, resets};
use std::alloc::Global;
use std::test::*;

/// Two inputs, a latch at each, and the gate of the latches' negations.
const NEGATED_LATCHES: &[u8] = b"aag 5 2 2 1 1\n2\n4\n6 2\n8 4\n10\n10 9 7\n";

/// Returns true if there is room for the free latches and `others` others beside the gates.
fn has_room(aig: &Aig, others: u32) -> bool
    ensures { IsTrue result → first_latch aig.now + free_latches aig.now + others + length
        aig.now.gates ≤ MAX_VARIABLES }
{
    aig.first_latch() as usize + aig.free_latches() as usize + others as usize + aig.gates().len()
        <= MAX_VARIABLES
}

/// The one latch starts at 1 and reads the gate's copy, which reads the inputs; and the output
/// reads the latch.
const MOVED: &[u8] = b"aag 4 2 1 1 1\n2\n4\n6 8 1\n6\n8 5 3\n";

/// Returns true if the set is closed with these latches held, its border has this size, and the
/// circuit moved over it has this text.
pub(crate) fn moved_over(
    alloc: Global,
    circuit: &Circuit,
    set: &ClosedSet,
    keep: &Keep,
    size: u32,
    text: &[u8],
) -> bool {
    if !is_closed(circuit.aig(), set, keep) {
        return false;
    }
    let Ok(border) = count(alloc, circuit, set, keep) else {
        return false;
    };
    if !has_room(circuit.aig(), border) {
        return false;
    }
    match moved(alloc, circuit, set, keep) {
        Ok(moved) => {
            let is_moved = is_text(alloc, &moved, text);
            drop(moved);
            is_moved & (border == size)
        }
        Err(_) => false,
    }
}

/// Returns true if the gate alone is such a set, no latch held.
fn moves_to_one_latch(alloc: Global, circuit: &Circuit) -> bool {
    match set_of(alloc, 5) {
        Some(set) => moved_over(alloc, circuit, &set, &Keep::none(), 1, MOVED),
        None => false,
    }
}

/// Returns true if the one gate has this reset, no latch held.
fn starts_at(alloc: Global, aig: &Aig, reset: Reset) -> bool {
    match resets(alloc, aig, &Keep::none()) {
        Ok(resets) => resets.as_slice() == [reset].as_slice(),
        Err(_) => false,
    }
}

/// Returns true if both are so for the circuit of the text.
fn starts_at_1_and_moves(alloc: Global) -> bool {
    match read_aag(alloc, NEGATED_LATCHES) {
        Ok(circuit) => {
            let holds = starts_at(alloc, circuit.aig(), Reset::One)
                & moves_to_one_latch(alloc, &circuit);
            drop(circuit);
            holds
        }
        Err(_) => false,
    }
}

#[test]
fn moves_over_a_gate_that_starts_at_1(rt: HostRuntime) {
    assert!(rt; starts_at_1_and_moves(rt.alloc()));
}
