use aig_graph::BuildError;
use std::alloc::{AllocError, AllocFailed};
use thiserror::Error;

/// Why a witness circuit isn't lifted.
#[derive(Clone, Copy, Debug, Error)]
pub enum LiftError {
    /// Memory was refused.
    #[error("out of memory")]
    NoMemory,
    /// The witness circuit would have more variables than a graph may have.
    #[error("too many variables")]
    TooLarge,
}

impl From<BuildError> for LiftError {
    fn from(error: BuildError) -> LiftError {
        match error {
            BuildError::NoMemory => LiftError::NoMemory,
            BuildError::TooLarge => LiftError::TooLarge,
        }
    }
}

impl From<aig_graph::NoMemory> for LiftError {
    fn from(_error: aig_graph::NoMemory) -> LiftError {
        LiftError::NoMemory
    }
}

impl From<AllocError> for LiftError {
    fn from(_error: AllocError) -> LiftError {
        LiftError::NoMemory
    }
}

impl<T: Drop> From<AllocFailed<T>> for LiftError {
    fn from(_error: AllocFailed<T>) -> LiftError {
        LiftError::NoMemory
    }
}
