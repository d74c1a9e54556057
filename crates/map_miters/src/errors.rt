use aig_graph::BuildError;
use std::alloc::{AllocError, AllocFailed};
use thiserror::Error;

/// Why a miter isn't made.
#[derive(Clone, Copy, Debug, Error)]
pub enum MiterError {
    /// Memory was refused.
    #[error("out of memory")]
    NoMemory,
    /// The miter would have more variables than a graph may have.
    #[error("too many variables")]
    TooLarge,
}

impl From<BuildError> for MiterError {
    fn from(error: BuildError) -> MiterError {
        match error {
            BuildError::NoMemory => MiterError::NoMemory,
            BuildError::TooLarge => MiterError::TooLarge,
        }
    }
}

impl From<aig_graph::NoMemory> for MiterError {
    fn from(_error: aig_graph::NoMemory) -> MiterError {
        MiterError::NoMemory
    }
}

impl From<AllocError> for MiterError {
    fn from(_error: AllocError) -> MiterError {
        MiterError::NoMemory
    }
}

impl<T: Drop> From<AllocFailed<T>> for MiterError {
    fn from(_error: AllocFailed<T>) -> MiterError {
        MiterError::NoMemory
    }
}
