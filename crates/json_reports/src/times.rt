//! How long the parts of a run took.
ghost use Rattle.std.specs.Prelude.{◌≡◌, IfOk, option_map};
ghost use Rattle.serde_json.specs.View.{view};
ghost use Rattle.json_reports.specs.Members.{array_of, or_null};
ghost use Rattle.json_reports.specs.Timings.{frame_times_data, times_data};

use crate::members::{Scalar, object_with, scalars_object};
use aig_graph::Sequence;
use serde_json::Value;
use std::alloc::{AllocError, Global};

/// How long the parts of a frame took, in microseconds.
#[derive(Clone, Copy)]
pub struct FrameTimes {
    /// Looking for the set: the network, its flow, the cut.
    pub looking: u64,
    /// Moving latches over it, and cleaning; 0 if no frame was taken.
    pub moving: u64,
}

/// What was measured of a run: how long its parts took, in microseconds, and what found its sets.
#[derive(Drop)]
pub struct Times {
    /// Reading the file, to a circuit.
    pub reading: u64,
    /// Cleaning before the first frame of each round, and merging there, over all rounds. A round
    /// that found no latch to merge counts too.
    pub cleaning: u64,
    /// Those of each circuit of which a set was looked for, in all rounds. They are of the frames,
    /// and of the last circuit of each round unless the limit of frames ended it.
    pub frames: Sequence<FrameTimes>,
    /// Writing the circuit.
    pub writing: u64,
    /// How many sets a maximum flow of a network found in all rounds, since no flow of units showed
    /// them.
    pub networks: u32,
}

fn frame_object(alloc: Global, times: FrameTimes) -> Result<Value, AllocError>
    ensures { IfOk result (λ v. view v ≡ frame_times_data times) }
{
    scalars_object(
        alloc,
        &[
            ("looking", Scalar::Count(times.looking)),
            ("moving", Scalar::Count(times.moving)),
        ],
    )
}

fn frames_array(alloc: Global, frames: &[FrameTimes]) -> Result<Value, AllocError>
    ensures { IfOk result (λ v. view v ≡ array_of frame_times_data frames.now) }
{
    let mut list = Vec::new(alloc);
    for frame in frames {
        let object = frame_object(alloc, *frame)?;
        serde_json::push(&mut list, object)?;
    }
    Ok(Value::Array(list))
}

fn times_object(alloc: Global, times: &Times) -> Result<Value, AllocError>
    ensures { IfOk result (λ v. view v ≡ times_data times.now) }
{
    let frames = frames_array(alloc, times.frames.as_slice())?;
    object_with(
        alloc,
        "frames",
        frames,
        &[
            ("cleaning", Scalar::Count(times.cleaning)),
            ("reading", Scalar::Count(times.reading)),
            ("writing", Scalar::Count(times.writing)),
        ],
    )
}

/// Returns the times, or null if none were taken.
pub(crate) fn times_value(alloc: Global, times: Option<&Times>) -> Result<Value, AllocError>
    ensures { IfOk result (λ v. view v
        ≡ or_null times_data (option_map (λ t. t.now) times.entry)) }
{
    match times {
        Some(times) => times_object(alloc, times),
        None => Ok(Value::Null),
    }
}
