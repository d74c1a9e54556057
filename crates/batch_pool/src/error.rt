ghost use Rattle.std.specs.Prelude.{◌≡◌};

use aig_graph::NoMemory;
use thiserror::Error;

/// Why a batch has no outcomes.
#[derive(Clone, Copy, Debug, Error)]
pub enum BatchError {
    /// Memory for the list of outcomes was refused.
    #[error("out of memory")]
    NoMemory,
}

impl BatchError {
    /// Returns the number of the error.
    pub fn code(self) -> u8
        ensures { result ≡ 1 }
    {
        match self {
            BatchError::NoMemory => 1,
        }
    }
}

impl From<NoMemory> for BatchError {
    fn from(_error: NoMemory) -> BatchError {
        BatchError::NoMemory
    }
}
