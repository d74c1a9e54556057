ghost use Rattle.std.specs.Prelude.{◌≡◌};

use gate_sharing::SharingError;
use std::error::Error;
use std::fmt;
use std::fmt::{Display, Formatter};

/// Why a map isn't checked.
#[derive(Clone, Copy, Debug, PartialEq, Eq)]
pub enum CheckError {
    /// Memory was refused.
    NoMemory,
    /// Together the circuits have more gates than a graph may have.
    TooLarge,
    /// The map has a latch, a bad state, a justice property or a fairness constraint.
    NotAMap,
    /// The circuits differ in their inputs or properties.
    ShapesDiffer,
    /// The map differs in its inputs or outputs from the latches of the circuits.
    DoesNotFit,
}

impl CheckError {
    fn text(self) -> &'static str {
        match self {
            CheckError::NoMemory => "out of memory",
            CheckError::TooLarge => "too many variables",
            CheckError::NotAMap => "not a map",
            CheckError::ShapesDiffer => "shapes differ",
            CheckError::DoesNotFit => "map does not fit",
        }
    }
}

// written out: derived, each variant's message has an arm with steps of its own
impl Display for CheckError {
    fn fmt<W: fmt::Write>(&self, f: &mut Formatter<W>) -> fmt::Result {
        f.write_str(self.text())
    }
}

impl Error for CheckError {}

impl From<SharingError> for CheckError {
    ghost use Rattle.map_checks.specs.Answers.{check_error};

    ghost from_gives = { λ error given. given ≡ check_error error };

    fn from(error: SharingError) -> CheckError {
        match error {
            SharingError::NoMemory => CheckError::NoMemory,
            SharingError::TooLarge => CheckError::TooLarge,
        }
    }
}
