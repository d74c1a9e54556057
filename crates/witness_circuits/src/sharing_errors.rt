use std::alloc::{AllocError, AllocFailed};
use thiserror::Error;

/// Why it isn't known what a witness circuit shares with the model.
#[derive(Clone, Copy, Debug, Error)]
pub enum SharingError {
    /// Memory was refused.
    #[error("out of memory")]
    NoMemory,
    /// A name says what is no literal of an input, or of a latch, of the model, or one that an
    /// earlier name says.
    #[error("a name says a literal that the model hasn't, or one twice")]
    NoSuchLiteral,
}

impl From<AllocError> for SharingError {
    ghost use Rattle.std.specs.Prelude.{◌≡◌};
    ghost use Rattle.witness_circuits.specs.declared.sharing_errors.SharingError.TheVariants.{NoMemory};

    ghost from_gives = { λ _ e. e ≡ NoMemory };

    fn from(_error: AllocError) -> SharingError {
        SharingError::NoMemory
    }
}

impl<T: Drop> From<AllocFailed<T>> for SharingError {
    ghost use Rattle.std.specs.Prelude.{◌≡◌};
    ghost use Rattle.witness_circuits.specs.declared.sharing_errors.SharingError.TheVariants.{NoMemory};

    ghost from_gives = { λ _ e. e ≡ NoMemory };

    fn from(_error: AllocFailed<T>) -> SharingError {
        SharingError::NoMemory
    }
}
