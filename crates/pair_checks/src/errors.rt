//! Why two circuits aren't checked.
ghost use Rattle.std.specs.Prelude.{◌≡◌};

use gate_sharing::SharingError;

/// Why two circuits aren't checked.
#[derive(Clone, Copy, Debug, PartialEq, Eq)]
pub enum PairError {
    /// Memory was refused.
    NoMemory,
    /// Together the circuits have more gates than a graph may have.
    TooLarge,
    /// The circuits differ in their inputs or properties.
    ShapesDiffer,
}

impl From<SharingError> for PairError {
    ghost use Rattle.pair_checks.specs.Answers.{pair_error};

    ghost from_gives = { λ error given. given ≡ pair_error error };

    fn from(error: SharingError) -> PairError {
        match error {
            SharingError::NoMemory => PairError::NoMemory,
            SharingError::TooLarge => PairError::TooLarge,
        }
    }
}
