//! The options of a run, by those that a task has.
ghost use Rattle.std.specs.Prelude.{IfOk};
ghost use Rattle.command_endings.specs.RunOptions.{AreOptionsOf};

use crate::names::bytes_of_names;
use command_line::RetimingOptions;
use frame_runs::Options;
use std::alloc::{AllocError, Global};

/// Returns the options of a run of at most `max_frames` frames, which makes certificates or none.
pub fn run_options(
    alloc: Global,
    asked: &RetimingOptions<'_>,
    max_frames: u32,
    certify: bool,
) -> Result<Options, AllocError>
    ensures { IfOk result (AreOptionsOf asked.now max_frames certify) }
{
    let keep_latches = Vec::from_slice(alloc, asked.keep_latches.as_slice())?;
    let keep = bytes_of_names(alloc, asked.keep.as_slice())?;
    Ok(Options {
        spelling: asked.spelling,
        max_frames,
        choice: asked.choice,
        certify,
        keep,
        keep_latches,
        merge: asked.merge,
        classes: None,
        bound: asked.bound,
    })
}
