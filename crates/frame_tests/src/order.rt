//! The order that gates take in a circuit.
ghost use Rattle.std.specs.Prelude.{◌<◌};

use ascii_file::{Reads, are_in_file, gate_order};
use std::alloc::Global;
use std::test::*;

/// Each gate's place among those that it reads first and second, in a file that isn't in order.
const GATES: [Reads; 4] = [
    Reads {
        first: Some(2),
        second: None,
    },
    Reads {
        first: None,
        second: None,
    },
    Reads {
        first: Some(1),
        second: Some(1),
    },
    Reads {
        first: Some(0),
        second: Some(2),
    },
];

/// Returns true if the gates take this order.
fn are_ordered_as(alloc: Global, gates: &[Reads], wanted: &[u32]) -> bool {
    if gates.len() >= 1 << 20 || !are_in_file(gates) {
        return false;
    }
    match gate_order(alloc, gates) {
        Ok(Some(order)) => order.as_slice() == wanted,
        Ok(None) | Err(_) => false,
    }
}

#[test]
fn puts_gates_after_those_they_read(rt: HostRuntime) {
    assert!(rt; are_ordered_as(rt.alloc(), &GATES, &[1, 2, 0, 3]));
}
