//! The texts of errors. Contracts say their numbers.
use aag_text::{ReadError, WriteError};
use aig_graph::{BuildError, HoldError, KeepError, NoMemory};
use batch_pool::BatchError;
use circuit_files::ListError;
use frames::{BytesError, RetimeError};
use lane_sim::{SimError, StimError};
use pulse::PulseError;
use std::alloc::Global;
use std::fmt::Display;
use std::test::*;

/// Returns true if an error has this text.
fn is_spelt<E: Display>(alloc: Global, error: &E, text: &str) -> bool {
    match format!(in alloc; "{error}") {
        Ok(found) => found.as_str() == text,
        Err(_) => false,
    }
}

fn are_without_memory(alloc: Global) -> bool {
    is_spelt(alloc, &NoMemory, "out of memory")
        & is_spelt(alloc, &BuildError::NoMemory, "out of memory")
        & is_spelt(alloc, &KeepError::NoMemory, "out of memory")
        & is_spelt(alloc, &HoldError::NoMemory, "out of memory")
        & is_spelt(alloc, &StimError::NoMemory, "out of memory")
        & is_spelt(alloc, &SimError::NoMemory, "out of memory")
        & is_spelt(alloc, &PulseError::NoMemory, "out of memory")
        & is_spelt(alloc, &RetimeError::NoMemory, "out of memory")
        & is_spelt(alloc, &ListError::NoMemory, "out of memory")
        & is_spelt(alloc, &BatchError::NoMemory, "out of memory")
}

fn are_of_circuits(alloc: Global) -> bool {
    is_spelt(alloc, &BuildError::TooLarge, "too many variables")
        & is_spelt(alloc, &KeepError::NoSuchName(2), "no latch has name 2")
        & is_spelt(
            alloc,
            &HoldError::NoSuchLatch(1),
            "position 1 is that of no latch",
        )
        & is_spelt(alloc, &HoldError::NoSuchName(2), "no latch has name 2")
        & is_spelt(alloc, &RetimeError::NoSuchName(0), "no latch has name 0")
        & is_spelt(
            alloc,
            &RetimeError::NoSuchLatch(2),
            "position 2 is that of no latch",
        )
        & is_spelt(alloc, &RetimeError::Misread(4), "latch 4 is misread")
        & is_spelt(
            alloc,
            &RetimeError::NotShown(6),
            "latch 6 is not shown to agree",
        )
        & is_spelt(alloc, &SimError::Shape, "shapes differ")
}

fn are_of_files(alloc: Global) -> bool {
    let greatest: u64 = 1 << 32;
    let read = BytesError::Read(ReadError::BadLine(18));
    let retimed = BytesError::Retime(RetimeError::NoSuchName(1));
    is_spelt(alloc, &StimError::BadLine(0), "BadLine at 0")
        & is_spelt(alloc, &StimError::Width(3), "Width at 3")
        & is_spelt(
            alloc,
            &StimError::TooMany(greatest),
            "TooMany at 4294967296",
        )
        & is_spelt(alloc, &ListError::BadLine(0), "BadLine at 0")
        & is_spelt(
            alloc,
            &ListError::TooLarge(greatest),
            "TooLarge at 4294967296",
        )
        & is_spelt(alloc, &read, "BadLine at 18")
        & is_spelt(alloc, &retimed, "no latch has name 1")
        & is_spelt(alloc, &BytesError::Write(WriteError::Device), "device")
}

#[test]
fn spells_errors(rt: HostRuntime) {
    let alloc = rt.alloc();
    assert!(rt; are_without_memory(alloc) & are_of_circuits(alloc) & are_of_files(alloc));
}
