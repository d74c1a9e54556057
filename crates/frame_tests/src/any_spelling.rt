//! Files of either spelling, in pieces and from devices that fail.
use aag_text::{Counted, CountedRead, FailAfter, Failure, OneByte, ReadError};
use aig_binary::{AnyReader, Spelling, read_circuit, write};
use aig_graph::Circuit;
use std::alloc::Global;
use std::test::*;

/// Two inputs, a latch after each, and a gate that reads both latches. The second input has a name.
const TWO_LATCHES: &[u8] = b"aag 5 2 2 1 1\n2\n4\n6 2\n8 4\n10\n10 6 8\ni1 no ne\n";

/// That circuit as a binary file.
const BINARY: &[u8] = b"aig 5 2 2 1 1\n2\n4\n10\n\x02\x02i1 no ne\n";

/// It with a first delta of two bytes.
const LONG_DELTA: &[u8] = b"aig 5 2 2 1 1\n2\n4\n10\n\x82\x00\x02i1 no ne\n";

/// Returns true if it is the circuit of two latches.
fn is_two_latches(alloc: Global, circuit: &Circuit) -> bool {
    let mut out = Counted::new(Vec::new(alloc));
    let written = write(circuit, Spelling::Binary, &mut out);
    let text = out.into_inner();
    written.is_ok() & (text.as_slice() == BINARY)
}

/// Returns true if a reader names the spelling of a whole file, and gives the circuit of two
/// latches.
fn reads_whole(alloc: Global, bytes: &[u8], form: Spelling) -> bool {
    let mut reader = AnyReader::new(alloc);
    let taken = reader.feed(bytes).is_ok();
    let named = reader.spelling() == Some(form);
    let read = reader.finish();
    drop(reader);
    let whole = match &read {
        Ok(circuit) => is_two_latches(alloc, circuit),
        Err(_) => false,
    };
    drop(read);
    taken & named & whole
}

/// Returns whether a reader gives the circuit of two latches, and the fault if there is one.
fn read_from<R: CountedRead>(alloc: Global, reader: &mut R) -> (bool, Option<ReadError>) {
    let mut circuits = AnyReader::new(alloc);
    let spelt = read_circuit(reader, &mut circuits);
    drop(circuits);
    let whole = match &spelt {
        Ok(spelt) => is_two_latches(alloc, &spelt.circuit),
        Err(_) => false,
    };
    (whole, spelt.err())
}

/// Reads from a device that gives one byte a read and fails from read `reads` on. Returns what
/// [`read_from`] does, and the number of reads that failed.
fn read_failing(alloc: Global, bytes: &[u8], reads: usize) -> (bool, Option<ReadError>, u64) {
    let device = FailAfter::new(OneByte::new(bytes), reads as u64, Failure::Error);
    let mut reader = Counted::new(device);
    let (whole, fault) = read_from(alloc, &mut reader);
    (whole, fault, CountedRead::failures(&reader))
}

/// Returns true if the reading ends at each first read that fails, and answers that failure, and
/// otherwise reads to the end.
fn ends_where_it_should(alloc: Global, bytes: &[u8]) -> bool {
    let mut ends = read_failing(alloc, bytes, bytes.len() + 1) == (true, None, 0);
    for reads in 0..=bytes.len() {
        let failed = (false, Some(ReadError::Device), 1);
        ends = ends & (read_failing(alloc, bytes, reads) == failed);
    }
    ends
}

#[test]
fn reads_whole_files_and_to_the_end_or_to_a_failed_read(rt: HostRuntime) {
    let alloc = rt.alloc();
    let whole = reads_whole(alloc, BINARY, Spelling::Binary);
    let ascii = ends_where_it_should(alloc, TWO_LATCHES);
    let binary = ends_where_it_should(alloc, LONG_DELTA);
    assert!(rt; whole & ascii & binary);
}
