//! Files of certificates of each version, one that shows its set, and a number of their faults and
//! of objections to certificates. Contracts say all numbers.
use crate::circuits::TWO_LATCHES;
use aag_text::{Counted, read_aag};
use aig_graph::{Circuit, Keep};
use cut_cert::{CertError, CertFile, CertPart, Objection, Verdict, check, read_cert, write_cert};
use std::alloc::Global;
use std::test::*;

const FIRST_VERSION: &[u8] =
    b"fretime-cert 1\nframe 3 1 3\ng 7\nr 3+\nr 5+\nr 4+ 7- 7+\nframe 2 0 1\nr 03+";

const SECOND_VERSION: &[u8] =
    b"fretime-cert 2\nchoice greatest\nframe 3 1 3\ng 7\nr 3+\nr 5+\nr 4+ 7- 7+\nframe 2 0 1\nr 3+\n";

const THIRD_VERSION: &[u8] =
    b"fretime-cert 3\nchoice greatest\nmerged 2\nm 5 0\nm 7 11\nframe 2 0 1\nr 3+\n";

const NO_FRAME: &[u8] = b"fretime-cert 2\nchoice smallest\n";

/// Returns true if this is the text that is written.
fn is_written_as(alloc: Global, file: &CertFile, text: &[u8]) -> bool {
    let mut out = Counted::new(Vec::new(alloc));
    let written = write_cert(file, &mut out).is_ok();
    let bytes = out.into_inner();
    written & (bytes.as_slice() == text)
}

/// Returns true if the file is read, and written as this text.
fn is_read(alloc: Global, bytes: &[u8], text: &[u8]) -> bool {
    match read_cert(alloc, bytes) {
        Ok(file) => {
            let same = is_written_as(alloc, &file, text);
            drop(file);
            same
        }
        Err(_) => false,
    }
}

#[test]
fn reads_and_writes_each_version_and_numbers_faults_and_objections(rt: HostRuntime) {
    let alloc = rt.alloc();
    let first = is_read(alloc, FIRST_VERSION, SECOND_VERSION);
    let second = is_read(alloc, SECOND_VERSION, SECOND_VERSION);
    let third = is_read(alloc, THIRD_VERSION, THIRD_VERSION);
    let no_frame = is_read(alloc, NO_FRAME, NO_FRAME);
    let numbers = (Objection::CountDiffers.code() == 4) & (CertError::NoMemory.code() == 5);
    assert!(rt; first & second & third & no_frame & numbers);
}

/// The set of the gate of two latches, along the first.
const ONE_GATE: &[u8] = b"fretime-cert 1\nframe 1 1 1\ng 5\nr 3+ 5- 5+\n";

/// Returns true if the first certificate of the part passes all tests, no latch held.
fn first_passes(alloc: Global, circuit: &Circuit, part: &CertPart) -> bool {
    let blocks = part.blocks.as_slice();
    !blocks.is_empty() && check(alloc, circuit, &blocks[0], &Keep::none()) == Ok(Verdict::Yes)
}

/// Returns true if that of the file's first part does.
fn passes(alloc: Global, circuit: &Circuit, file: &CertFile) -> bool {
    let parts = file.parts.as_slice();
    !parts.is_empty() && first_passes(alloc, circuit, &parts[0])
}

/// Returns true if it does as it is read.
fn passes_as_read(alloc: Global, circuit: &Circuit) -> bool {
    match read_cert(alloc, ONE_GATE) {
        Ok(file) => {
            let passes = passes(alloc, circuit, &file);
            drop(file);
            passes
        }
        Err(_) => false,
    }
}

/// Returns true if it does for the circuit of the text.
fn passes_of_text(alloc: Global) -> bool {
    match read_aag(alloc, TWO_LATCHES) {
        Ok(circuit) => {
            let passes = passes_as_read(alloc, &circuit);
            drop(circuit);
            passes
        }
        Err(_) => false,
    }
}

#[test]
fn a_certificate_of_one_gate_passes(rt: HostRuntime) {
    assert!(rt; passes_of_text(rt.alloc()));
}
