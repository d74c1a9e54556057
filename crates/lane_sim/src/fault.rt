//! Faults of a stimulus, and of circuits that can't be compared. A report's words for a fault, its
//! name and offset, stand here.
ghost use Rattle.std.specs.Prelude.{◌≡◌};

use aig_graph::NoMemory;
use std::alloc::{AllocError, AllocFailed};
use std::fmt::{Debug, Display, Formatter};
use std::{error, fmt};
use thiserror::Error;

/// Why bytes were not read as a stimulus. The number is the offset of the first byte of the line at
/// fault.
#[derive(Clone, Copy)]
pub enum StimError {
    /// A line is not a mark and digits, or it is a step before the first sequence.
    BadLine(u64),
    /// A line has another number of digits than there are free latches or inputs.
    Width(u64),
    /// There are more than 2^20 sequences.
    TooMany(u64),
    /// Memory was refused.
    NoMemory,
}

impl StimError {
    ghost use Rattle.lane_sim.specs.Codes.{stim_error_code, name_of, offset_of};

    /// Returns the number of the kind of fault.
    pub fn code(self) -> u8
        ensures { result ≡ stim_error_code self }
    {
        match self {
            StimError::BadLine(_) => 1,
            StimError::Width(_) => 2,
            StimError::TooMany(_) => 3,
            StimError::NoMemory => 4,
        }
    }

    /// Returns the name that messages and reports have for it.
    pub fn name(self) -> &'static str
        ensures { result.now ≡ name_of self }
    {
        match self {
            StimError::BadLine(_) => "BadLine",
            StimError::Width(_) => "Width",
            StimError::TooMany(_) => "TooMany",
            StimError::NoMemory => "NoMemory",
        }
    }

    /// Returns the offset of the first byte of the line at fault, if it has one.
    pub fn offset(self) -> Option<u64>
        ensures { result ≡ offset_of self }
    {
        match self {
            StimError::BadLine(at) | StimError::Width(at) | StimError::TooMany(at) => Some(at),
            StimError::NoMemory => None,
        }
    }
}

// written out: derived, each variant has an arm with steps of its own
impl Debug for StimError {
    fn fmt<W: fmt::Write>(&self, f: &mut Formatter<W>) -> fmt::Result {
        match self.offset() {
            Some(at) => write!(f, "{}({at})", self.name()),
            None => f.write_str(self.name()),
        }
    }
}

impl Display for StimError {
    fn fmt<W: fmt::Write>(&self, f: &mut Formatter<W>) -> fmt::Result {
        match self.offset() {
            Some(at) => write!(f, "{} at {at}", self.name()),
            None => f.write_str("out of memory"),
        }
    }
}

impl error::Error for StimError {}

impl From<AllocError> for StimError {
    ghost use Rattle.std.specs.Prelude.{◌≡◌};
    ghost use Rattle.lane_sim.specs.declared.fault.StimError.TheVariants.{NoMemory};

    ghost from_gives = { λ _ e. e ≡ NoMemory };

    fn from(_error: AllocError) -> StimError {
        StimError::NoMemory
    }
}

impl<T: Drop> From<AllocFailed<T>> for StimError {
    ghost use Rattle.std.specs.Prelude.{◌≡◌};
    ghost use Rattle.lane_sim.specs.declared.fault.StimError.TheVariants.{NoMemory};

    ghost from_gives = { λ _ e. e ≡ NoMemory };

    fn from(_error: AllocFailed<T>) -> StimError {
        StimError::NoMemory
    }
}

/// Why two circuits were not compared.
#[derive(Clone, Copy, Debug, Error)]
pub enum SimError {
    /// The circuits differ in the number of inputs, free latches or properties of a kind, or in the
    /// size of a justice property.
    #[error("shapes differ")]
    Shape,
    /// Memory was refused.
    #[error("out of memory")]
    NoMemory,
}

impl SimError {
    ghost use Rattle.lane_sim.specs.Codes.{sim_error_code};

    /// Returns the number of the kind of fault.
    pub fn code(self) -> u8
        ensures { result ≡ sim_error_code self }
    {
        match self {
            SimError::Shape => 1,
            SimError::NoMemory => 2,
        }
    }
}

impl From<NoMemory> for SimError {
    ghost use Rattle.std.specs.Prelude.{◌≡◌};
    ghost use Rattle.lane_sim.specs.declared.fault.SimError.TheVariants as sim;

    ghost from_gives = { λ _ e. e ≡ sim.NoMemory };

    fn from(_error: NoMemory) -> SimError {
        SimError::NoMemory
    }
}
