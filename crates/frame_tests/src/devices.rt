//! Buffered writing and reading to the end, with devices that take or give a part, or fail to take
//! one.
use counted_io::{
    Buffered, Counted, CountedRead, CountedWrite, FailAfter, Failure, OneByte, WriteError,
    read_all, write_all,
};
use std::alloc::Global;
use std::fmt::Write;
use std::test::*;

/// Puts two lines, a text, a byte and a number.
fn put_some<W: CountedWrite>(writer: &mut W) -> Result<(), WriteError> {
    let mut out = Buffered::new(writer);
    out.put_line(&[6, 0, 18446744073709551615]);
    out.put_line(&[]);
    let _ = out.write_str("to ");
    out.put_byte(b'c');
    out.put_number(10);
    out.flush()
}

const SOME: &[u8] = b"6 0 18446744073709551615\n\nto c10";

/// Writes to a device that takes one byte a call, and fails from call `calls` on. Returns true if
/// it was given this text, `failures` calls failed, and the writing ended well if none did.
fn is_given(alloc: Global, calls: u64, failure: Failure, text: &[u8], failures: u64) -> bool {
    let mut taken = Vec::new(alloc);
    let mut out = Counted::new(FailAfter::new(OneByte::new(&mut taken), calls, failure));
    let failed = put_some(&mut out).is_err();
    let counted = CountedWrite::failures(&out);
    (failed == (failures > 0)) & (counted == failures) & (taken.as_slice() == text)
}

/// Returns true if a vector is given the whole text at once.
fn writes_all(alloc: Global, text: &[u8]) -> bool {
    let mut out = Counted::new(Vec::new(alloc));
    let written = write_all(&mut &mut out, text).is_ok();
    let bytes = out.into_inner();
    written & (bytes.as_slice() == text)
}

/// Returns true if a device that gives one byte a call is read to its end, and is left empty.
fn reads_all(alloc: Global, text: &[u8]) -> bool {
    let device = FailAfter::new(OneByte::new(text), 1000, Failure::Error);
    let mut reader = Counted::new(device);
    let read = read_all(alloc, &mut &mut reader);
    let same = match &read {
        Ok(bytes) => bytes.as_slice() == text,
        Err(_) => false,
    };
    drop(read);
    let failures = CountedRead::failures(&reader);
    let left = reader.into_inner().into_inner().into_inner();
    same & (failures == 0) & left.is_empty()
}

#[test]
fn goes_on_after_a_part_and_stops_at_a_failure(rt: HostRuntime) {
    let alloc = rt.alloc();
    let goes_on = is_given(alloc, 1000, Failure::Error, SOME, 0);
    let stops = is_given(alloc, 3, Failure::Error, b"6 0", 1);
    let stops_at_nothing = is_given(alloc, 3, Failure::Nothing, b"6 0", 1);
    let wholly = writes_all(alloc, b"aag 0") & reads_all(alloc, b"aag 0");
    assert!(rt; goes_on & stops & stops_at_nothing & wholly);
}
