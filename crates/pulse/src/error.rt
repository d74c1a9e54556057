ghost use Rattle.std.specs.Prelude.{◌≡◌};
ghost use Rattle.pulse.specs.declared.error.PulseError.TheVariants.{NoMemory};

use std::alloc::AllocError;
use thiserror::Error;

/// Why a phase or a run was refused.
#[derive(Clone, Copy, Debug, PartialEq, Eq, Error)]
pub enum PulseError {
    /// Memory was refused, in this phase or in an earlier one that spent the flow or the pushes.
    #[error("out of memory")]
    NoMemory,
}

impl PulseError {
    /// Returns the number of the fault.
    pub fn code(self) -> u8
        ensures { result ≡ 1 }
    {
        match self {
            PulseError::NoMemory => 1,
        }
    }
}

impl From<AllocError> for PulseError {
    ghost from_gives = { λ _ e. e ≡ NoMemory };

    fn from(_error: AllocError) -> PulseError {
        PulseError::NoMemory
    }
}

impl From<aig_graph::NoMemory> for PulseError {
    ghost from_gives = { λ _ e. e ≡ NoMemory };

    fn from(_error: aig_graph::NoMemory) -> PulseError {
        PulseError::NoMemory
    }
}
