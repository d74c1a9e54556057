//! A circuit as it is written in both spellings, whole and to devices that fail.
use aag_text::{Counted, CountedWrite, FailAfter, Failure, OneByte, write_aag};
use aig_binary::{Spelling, read_any, spelling, write, write_aig};
use aig_graph::Circuit;
use std::alloc::Global;
use std::test::*;

/// Two inputs, a latch that reads the gate of the inputs, and that gate, in ASCII and in binary.
const ONE_LATCH: &[u8] = b"aag 4 2 1 1 1\n2\n4\n6 8\n6\n8 4 2\n";

const ONE_LATCH_BINARY: &[u8] = b"aig 4 2 1 1 1\n8\n6\n\x04\x02";

/// Returns true if this is the circuit's text in a spelling, and names its spelling.
fn is_spelt(alloc: Global, circuit: &Circuit, form: Spelling, text: &[u8]) -> bool {
    let mut out = Counted::new(Vec::new(alloc));
    let written = write(circuit, form, &mut out).is_ok();
    let bytes = out.into_inner();
    written & (bytes.as_slice() == text) & (spelling(bytes.as_slice()) == Some(form))
}

/// Returns true if a writer refuses a circuit.
fn is_refused<W: CountedWrite>(circuit: &Circuit, form: Spelling, out: &mut W) -> bool {
    match form {
        Spelling::Ascii => write_aag(circuit, out).is_err(),
        Spelling::Binary => write_aig(circuit, out).is_err(),
    }
}

/// Returns true if a device that takes one byte a call, and fails from call `calls` on, stops the
/// writing of the text there.
fn is_stopped(
    alloc: Global,
    circuit: &Circuit,
    form: Spelling,
    text: &[u8],
    calls: usize,
    failure: Failure,
) -> bool {
    let mut taken = Vec::new(alloc);
    let device = FailAfter::new(OneByte::new(&mut taken), calls as u64, failure);
    let mut out = Counted::new(device);
    let refused = is_refused(circuit, form, &mut out);
    let failures = CountedWrite::failures(&out);
    refused & (failures == 1) & (taken.len() == calls) & text.starts_with(taken.as_slice())
}

/// Returns true if the text is written whole, and up to each call that fails.
fn is_written(alloc: Global, circuit: &Circuit, form: Spelling, text: &[u8]) -> bool {
    let mut written = is_spelt(alloc, circuit, form, text);
    for calls in 0..text.len() {
        written = written
            & is_stopped(alloc, circuit, form, text, calls, Failure::Error)
            & is_stopped(alloc, circuit, form, text, calls, Failure::Nothing);
    }
    written
}

#[test]
fn writes_both_spellings_up_to_each_failed_write(rt: HostRuntime) {
    let circuit = read_any(rt.alloc(), ONE_LATCH_BINARY);
    let written = match &circuit {
        Ok(circuit) => {
            let ascii = is_written(rt.alloc(), circuit, Spelling::Ascii, ONE_LATCH);
            ascii & is_written(rt.alloc(), circuit, Spelling::Binary, ONE_LATCH_BINARY)
        }
        Err(_) => false,
    };
    drop(circuit);
    assert!(rt; written);
}
