use aig_graph::BuildError;
use std::alloc::{AllocError, AllocFailed};
use thiserror::Error;

/// Why there is no map.
#[derive(Clone, Copy, Debug, Error)]
pub enum MapError {
    /// Memory was refused.
    #[error("out of memory")]
    NoMemory,
    /// The map would have more variables than a graph may have.
    #[error("too many variables")]
    TooLarge,
}

impl From<BuildError> for MapError {
    fn from(error: BuildError) -> MapError {
        match error {
            BuildError::NoMemory => MapError::NoMemory,
            BuildError::TooLarge => MapError::TooLarge,
        }
    }
}

impl From<AllocError> for MapError {
    fn from(_error: AllocError) -> MapError {
        MapError::NoMemory
    }
}

impl From<aig_graph::NoMemory> for MapError {
    fn from(_error: aig_graph::NoMemory) -> MapError {
        MapError::NoMemory
    }
}

impl<T: Drop> From<AllocFailed<T>> for MapError {
    fn from(_error: AllocFailed<T>) -> MapError {
        MapError::NoMemory
    }
}
