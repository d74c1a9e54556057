//! Retiming from a device that fails at each of its reads, and to one that fails at each of its
//! writes.
use crate::circuits::{CHAINS, options};
use aag_text::{
    Counted, CountedRead, CountedWrite, FailAfter, Failure, OneByte, ReadError, WriteError,
};
use frames::{BytesError, Options, retime_bytes};
use pulse::{Crew, OpenGate};
use std::alloc::Global;
use std::test::*;
use std::thread::Threads;

/// The chains after their two frames.
const TEXT: &[u8] = b"aag 5 2 2 1 1\n2\n4\n6 8\n8 10\n6\n10 4 2\n";

/// Returns why there is no answer, if there is none.
fn fault<R: Threads + Sync, I: CountedRead, O: CountedWrite>(
    rt: &R,
    alloc: Global,
    reader: &mut I,
    writer: &mut O,
    options: &Options,
) -> Option<BytesError> {
    let crew = Crew::new(1, OpenGate);
    retime_bytes(rt, alloc, reader, writer, options, &crew).err()
}

/// Returns true if a device that gives one byte a call, and fails from call `calls` on, ends the
/// retiming before anything is written.
fn is_unread<R: Threads + Sync>(rt: &R, alloc: Global, options: &Options, calls: usize) -> bool {
    let device = FailAfter::new(OneByte::new(CHAINS), calls as u64, Failure::Error);
    let mut reader = Counted::new(device);
    let mut writer = Counted::new(Vec::new(alloc));
    let fault = fault(rt, alloc, &mut reader, &mut writer, options);
    let is_empty = writer.into_inner().is_empty();
    (fault == Some(BytesError::Read(ReadError::Device))) & is_empty
}

fn is_unread_by_each<R: Threads + Sync>(rt: &R, alloc: Global, options: &Options) -> bool {
    let mut unread = true;
    for calls in 0..=CHAINS.len() {
        unread = unread & is_unread(rt, alloc, options, calls);
    }
    unread
}

/// Retimes to a device that takes one byte a call, and fails from call `calls` on. Returns how that
/// ends, and what the device took.
fn written<R: Threads + Sync>(
    rt: &R,
    alloc: Global,
    options: &Options,
    calls: usize,
    failure: Failure,
) -> (Option<BytesError>, Vec<u8>) {
    let mut taken = Vec::new(alloc);
    let mut writer = Counted::new(FailAfter::new(OneByte::new(&mut taken), calls as u64, failure));
    let ended = fault(rt, alloc, &mut Counted::new(CHAINS), &mut writer, options);
    (ended, taken)
}

/// Returns true if the text was written up to the call that failed, a byte a call.
fn is_beginning<R: Threads + Sync>(
    rt: &R,
    alloc: Global,
    options: &Options,
    calls: usize,
    failure: Failure,
) -> bool {
    let (ended, taken) = written(rt, alloc, options, calls, failure);
    let right = (ended == Some(BytesError::Write(WriteError::Device)))
        & (taken.len() == calls)
        & TEXT.starts_with(taken.as_slice());
    drop(taken);
    right
}

/// Returns true if that is so of each call.
fn is_written_up_to_each<R: Threads + Sync>(rt: &R, alloc: Global, options: &Options) -> bool {
    let mut written = true;
    for calls in 0..TEXT.len() {
        written = written
            & is_beginning(rt, alloc, options, calls, Failure::Error)
            & is_beginning(rt, alloc, options, calls, Failure::Nothing);
    }
    written
}

/// Returns true if the whole text is written if no call fails.
fn is_written<R: Threads + Sync>(rt: &R, alloc: Global, options: &Options) -> bool {
    let (ended, taken) = written(rt, alloc, options, TEXT.len(), Failure::Error);
    let whole = ended.is_none() & (taken.as_slice() == TEXT);
    drop(taken);
    whole
}

fn stops_at_each<R: Threads + Sync>(rt: &R, alloc: Global) -> bool {
    let options = options(alloc, 1 << 28);
    let stops = is_unread_by_each(rt, alloc, &options)
        & is_written_up_to_each(rt, alloc, &options)
        & is_written(rt, alloc, &options);
    drop(options);
    stops
}

#[test]
fn writes_nothing_after_a_failed_read_and_stops_at_a_failed_write(rt: HostRuntime) {
    assert!(rt; stops_at_each(&rt, rt.alloc()));
}
