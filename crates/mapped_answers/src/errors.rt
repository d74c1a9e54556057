//! The errors of an answer with a map.
ghost use Rattle.std.specs.Prelude.{◌≡◌};

use aig_graph::NoMemory;
use frame_runs::{BytesError, RetimeError};
use retiming_maps::MapError;
use thiserror::Error;

/// Why a circuit that was read wasn't retimed and written, or has no map.
#[derive(Clone, Copy, Debug, PartialEq, Eq, Error)]
pub enum AnswerError {
    /// The circuit wasn't retimed or written, or there was no memory for a map.
    #[error("{0}")]
    Bytes(BytesError),
    /// The map would have more variables than a circuit may have.
    #[error("the map has too many variables")]
    MapTooLarge,
}

impl From<RetimeError> for AnswerError {
    ghost use Rattle.frame_runs.specs.declared.errors.BytesError.TheVariants.{Retime};
    ghost use Rattle.mapped_answers.specs.declared.errors.AnswerError.TheVariants.{Bytes};

    ghost from_gives = { λ error e. e ≡ Bytes (Retime error) };

    fn from(error: RetimeError) -> AnswerError {
        AnswerError::Bytes(BytesError::Retime(error))
    }
}

/// Why a map doesn't follow a run any further.
#[derive(Clone, Copy)]
pub(crate) enum FollowError {
    /// There is no memory for it, or it would be too large.
    Map(MapError),
    /// As `frame_runs::RetimeError::Misread`.
    Misread(u32),
    /// As `frame_runs::RetimeError::NotShown`.
    NotShown(u32),
}

impl From<MapError> for FollowError {
    ghost use Rattle.mapped_answers.specs.declared.errors.FollowError.TheVariants.{Map};

    ghost from_gives = { λ error e. e ≡ Map error };

    fn from(error: MapError) -> FollowError {
        FollowError::Map(error)
    }
}

impl From<NoMemory> for FollowError {
    fn from(_error: NoMemory) -> FollowError {
        FollowError::Map(MapError::NoMemory)
    }
}

impl From<FollowError> for AnswerError {
    ghost use Rattle.mapped_answers.specs.Mapping.{of_follow_error};

    ghost from_gives = { λ error e. e ≡ of_follow_error error };

    fn from(error: FollowError) -> AnswerError {
        match error {
            FollowError::Map(MapError::NoMemory) => {
                AnswerError::Bytes(BytesError::Retime(RetimeError::NoMemory))
            }
            FollowError::Map(MapError::TooLarge) => AnswerError::MapTooLarge,
            FollowError::Misread(latch) => {
                AnswerError::Bytes(BytesError::Retime(RetimeError::Misread(latch)))
            }
            FollowError::NotShown(latch) => {
                AnswerError::Bytes(BytesError::Retime(RetimeError::NotShown(latch)))
            }
        }
    }
}
