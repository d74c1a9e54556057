//! The parts of a run that have ended, with the time that each took, and what a report says of
//! them.
ghost use Rattle.std.specs.Prelude.{◌≡◌, ◌++◌, IfOk, OnOk};
ghost use Rattle.std.specs.Option.{option_to_list};
ghost use Rattle.command_endings.specs.progress.Laps as wanted;

use aig_graph::Sequence;
use frame_runs::Stage;
use json_reports::{FrameTimes, Times};
use std::alloc::{AllocError, Global};

/// What a run does.
#[derive(Clone, Copy)]
pub(crate) enum Part {
    Reading,
    Cleaning,
    Looking,
    Moving,
    Writing,
}

impl Part {
    /// Returns the part that begins with the stage.
    pub(crate) fn of(stage: Stage<'_>) -> Part
        ensures { result ≡ wanted.part_of stage.entry }
    {
        match stage {
            Stage::Cleaning => Part::Cleaning,
            Stage::Looking { .. } => Part::Looking,
            Stage::Moving => Part::Moving,
            Stage::Writing => Part::Writing,
        }
    }

    /// Returns its place among the parts.
    fn place(self) -> u8
        ensures { result ≡ wanted.place_of self }
    {
        match self {
            Part::Reading => 0,
            Part::Cleaning => 1,
            Part::Looking => 2,
            Part::Moving => 3,
            Part::Writing => 4,
        }
    }

    fn is_same(self, other: Part) -> bool
        ensures { result ≡ wanted.is_part self other }
    {
        self.place() == other.place()
    }
}

/// A part that has ended.
#[derive(Clone, Copy)]
pub(crate) struct Lap {
    pub part: Part,
    pub microseconds: u64,
}

/// Returns the time that a part of this kind took, or 0 if it is of another kind.
fn time_of(part: Part, lap: &Lap) -> u64
    ensures { result ≡ wanted.time_of part lap.now }
{
    if lap.part.is_same(part) {
        lap.microseconds
    } else {
        0
    }
}

/// Returns the time that all parts of this kind took, `u64::MAX` at most.
fn time_in(part: Part, laps: &[Lap]) -> u64
    ensures { result ≡ wanted.time_in part laps.now }
{
    let mut total = 0u64;
    for lap in laps {
        total = total.saturating_add(time_of(part, lap));
    }
    total
}

/// Returns the time that latches moved, if they did next.
fn moving_first(laps: &[Lap]) -> u64
    ensures { result ≡ wanted.moving_first laps.now }
{
    match laps.first() {
        Some(lap) => time_of(Part::Moving, lap),
        None => 0,
    }
}

/// Returns the times of a circuit of which a set was looked for in this part, before these.
fn look_of(lap: &Lap, rest: &[Lap]) -> Option<FrameTimes>
    ensures { result ≡ wanted.look_of lap.now rest.now }
{
    if lap.part.is_same(Part::Looking) {
        Some(FrameTimes {
            looking: lap.microseconds,
            moving: moving_first(rest),
        })
    } else {
        None
    }
}

fn add(frames: &mut Vec<FrameTimes>, times: Option<FrameTimes>) -> Result<(), AllocError>
    ensures { OnOk result (frames.new.items ≡ frames.old.items ++ option_to_list times) }
{
    if let Some(times) = times {
        frames.push(times)?;
    }
    Ok(())
}

/// Returns the times of each circuit of which a set was looked for.
fn frames_in(alloc: Global, laps: &[Lap]) -> Result<Vec<FrameTimes>, AllocError>
    ensures { IfOk result (λ frames. frames.items ≡ wanted.frames_in laps.now) }
{
    let mut frames = Vec::new(alloc);
    for (k, lap) in laps.iter().enumerate() {
        add(&mut frames, look_of(lap, &laps[k + 1..]))?;
    }
    Ok(frames)
}

/// Returns what was measured of a run of these parts, in which networks found `networks` sets.
pub(crate) fn times_of(alloc: Global, laps: &[Lap], networks: u32) -> Result<Times, AllocError>
    ensures { IfOk result (λ times. times ≡ wanted.times_of networks laps.now) }
{
    let frames = frames_in(alloc, laps)?;
    Ok(Times {
        reading: time_in(Part::Reading, laps),
        cleaning: time_in(Part::Cleaning, laps),
        frames: Sequence::from_vec(frames),
        writing: time_in(Part::Writing, laps),
        networks,
    })
}
