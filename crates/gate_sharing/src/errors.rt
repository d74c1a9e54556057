//! Why gates aren't shared.
use std::alloc::{AllocError, AllocFailed};

/// Why gates aren't shared.
#[derive(Clone, Copy, Debug, PartialEq, Eq)]
pub enum SharingError {
    /// Memory was refused.
    NoMemory,
    /// There would be more gates than a graph may have.
    TooLarge,
}

impl From<AllocError> for SharingError {
    fn from(_error: AllocError) -> SharingError {
        SharingError::NoMemory
    }
}

impl From<aig_graph::NoMemory> for SharingError {
    fn from(_error: aig_graph::NoMemory) -> SharingError {
        SharingError::NoMemory
    }
}

impl<T: Drop> From<AllocFailed<T>> for SharingError {
    fn from(_error: AllocFailed<T>) -> SharingError {
        SharingError::NoMemory
    }
}
