//! Numbers of a draft that may be out of range.
ghost use Rattle.std.specs.Prelude.{◌≤◌, ◌<◌, IfOk};
ghost use Rattle.aig_graph.specs.declared.literal.TheConstants.{MAX_VARIABLES};
ghost use Rattle.aig_graph.specs.Graph.{variable};

use aig_graph::{BuildError, Lit, NoMemory};
use backward_sets::Literal;
use std::alloc::{AllocError, AllocFailed};

/// Why nothing is made of a draft.
#[derive(Clone, Copy, Debug)]
pub enum SealError {
    NoMemory,
    /// A number isn't that of something that is there.
    OutOfRange,
}

impl From<NoMemory> for SealError {
    fn from(_error: NoMemory) -> SealError {
        SealError::NoMemory
    }
}

impl From<AllocError> for SealError {
    fn from(_error: AllocError) -> SealError {
        SealError::NoMemory
    }
}

impl<T: Drop> From<AllocFailed<T>> for SealError {
    fn from(_error: AllocFailed<T>) -> SealError {
        SealError::NoMemory
    }
}

impl From<BuildError> for SealError {
    fn from(error: BuildError) -> SealError {
        match error {
            BuildError::NoMemory => SealError::NoMemory,
            BuildError::TooLarge => SealError::OutOfRange,
        }
    }
}

/// Returns the literal, if its variable is before an end.
pub(crate) fn literal_below(literal: Literal, end: usize) -> Result<Lit, SealError>
    requires { end ≤ MAX_VARIABLES }
    ensures { IfOk result (λ lit. variable lit < end) }
{
    let var = literal.var();
    if var as usize >= end {
        return Err(SealError::OutOfRange);
    }
    Ok(Lit::new(var, literal.is_negated()))
}
