//! Some faults of files and of devices, and the names of the latter. Contracts say all numbers.
use aag_text::{ReadError, WriteError};
use counted_io::ReadAllError;
use std::alloc::Global;
use std::fmt::Display;
use std::test::*;

/// Returns true if an error has this text.
fn is_named<E: Display>(alloc: Global, error: &E, name: &str) -> bool {
    match format!(in alloc; "{error}") {
        Ok(text) => text.as_str() == name,
        Err(_) => false,
    }
}

#[test]
fn numbers_and_names_its_faults(rt: HostRuntime) {
    let writing = is_named(rt.alloc(), &WriteError::Device, "device");
    let reading = is_named(rt.alloc(), &ReadAllError::NoMemory, "no memory");
    let numbers = (ReadError::Device.code() == 15)
        & (ReadAllError::Device.code() == 2)
        & (WriteError::Device.code() == 1);
    assert!(rt; writing & reading & numbers);
}
