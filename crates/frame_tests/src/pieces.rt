//! Files of one spelling, in pieces, and a whole one.
use aag_text::{AagReader, ReadError};
use aig_binary::{AigReader, read_aig};
use aig_graph::{Circuit, Gate, Lit};
use std::alloc::Global;
use std::test::*;

/// Returns true if a circuit was read that has just one gate, which reads its two latches.
fn is_of_latches(read: Result<Circuit, ReadError>) -> bool {
    let gate = Gate {
        rhs0: Lit::new(4, false),
        rhs1: Lit::new(3, false),
    };
    let is = match &read {
        Ok(circuit) => circuit.aig().gates() == [gate].as_slice(),
        Err(_) => false,
    };
    drop(read);
    is
}

/// Returns true if that is so of an ASCII file in two pieces.
fn reads_ascii(alloc: Global, first: &[u8], second: &[u8]) -> bool {
    let mut reader = AagReader::new(alloc);
    let first_taken = reader.feed(first).is_ok();
    let second_taken = reader.feed(second).is_ok();
    let read = reader.finish();
    drop(reader);
    first_taken & second_taken & is_of_latches(read)
}

/// Returns true if that is so of a binary file in two pieces.
fn reads_binary(alloc: Global, first: &[u8], second: &[u8]) -> bool {
    let mut reader = AigReader::new(alloc);
    let first_taken = reader.feed(first).is_ok();
    let second_taken = reader.feed(second).is_ok();
    let read = reader.finish();
    drop(reader);
    first_taken & second_taken & is_of_latches(read)
}

#[test]
fn goes_on_with_a_number_and_a_delta_in_the_next_piece(rt: HostRuntime) {
    let alloc = rt.alloc();
    let ascii = reads_ascii(alloc, b"aag 5 2 2 1 1\n2\n4\n6 2\n8 4\n1", b"0\n10 6 8\n");
    let binary = reads_binary(alloc, b"aig 5 2 2 1 1\n2\n4\n10\n\x82", b"\x00\x02");
    let whole = is_of_latches(read_aig(alloc, b"aig 5 2 2 1 1\n2\n4\n10\n\x02\x02l0 a\nc\n"));
    assert!(rt; ascii & binary & whole);
}
