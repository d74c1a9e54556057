//! The options of a retiming, whatever command has them.
ghost use Rattle.std.specs.Prelude.{IfOk};
ghost use Rattle.command_line.specs.Asking.{AreOptions};

use crate::values::{bound, choice, frames, keep, keep_latches, merge, sources, spelling};
use aig_graph::Choice;
use clap::ArgMatches;
use counted_io::Source;
use file_words::Spelling;
use frame_runs::PathBound;
use std::alloc::{AllocError, Global};

/// How latches are moved. An option that a command doesn't have is as if it weren't given.
#[derive(Drop)]
pub struct RetimingOptions<'a> {
    /// The format of the written files; `None` is that of the read one.
    pub spelling: Option<Spelling>,
    /// The most frames that are taken.
    pub frames: u32,
    /// Which of the least sets a frame takes.
    pub choice: Choice,
    /// How long moves may make paths.
    pub bound: PathBound,
    /// Whether latches that always agree are merged before the first frame.
    pub merge: bool,
    /// The names of the latches that are held in their places.
    pub keep: Vec<&'a str>,
    /// The files of more such names, a name a line.
    pub keep_from: Vec<Source<'a>>,
    /// The positions of the latches that are held in their places.
    pub keep_latches: Vec<u32>,
}

/// Returns the options of a retiming that are given.
pub(crate) fn options<'a>(
    alloc: Global,
    matches: &ArgMatches<'a>,
) -> Result<RetimingOptions<'a>, AllocError>
    ensures { IfOk result (AreOptions matches.now) }
{
    Ok(RetimingOptions {
        spelling: spelling(matches),
        frames: frames(matches),
        choice: choice(matches),
        bound: bound(matches),
        merge: merge(matches),
        keep: keep(alloc, matches)?,
        keep_from: sources(alloc, matches, "keep-from")?,
        keep_latches: keep_latches(alloc, matches)?,
    })
}
