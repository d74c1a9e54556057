ghost use Rattle.frame_runs.specs.Defaults.{AreDefaults};

use crate::bound::PathBound;
use aig_graph::{Choice, Sequence};
use certificates::MergedLatch;
use file_words::Spelling;
use std::alloc::Global;

/// The options of a retiming.
#[derive(Drop)]
pub struct Options {
    /// The spelling of the written text. `None` takes that of the bytes that were read.
    pub spelling: Option<Spelling>,
    /// The most frames that are taken. With 0 the circuit is only cleaned.
    pub max_frames: u32,
    /// Which of the least sets latches move over.
    pub choice: Choice,
    /// Makes a certificate of each circuit that is looked at. The rest of the answer doesn't
    /// change.
    pub certify: bool,
    /// Holds the latches whose symbol has one of these names: they stay, with their resets and
    /// names.
    pub keep: Vec<Vec<u8>>,
    /// Holds the latches at these positions too, from 0, in the circuit that is read. They stand in
    /// any order, and one may stand there more than once.
    pub keep_latches: Vec<u32>,
    /// Merges latches that always agree before the first frame. The circuit is cleaned, merged, and
    /// then retimed as any circuit is.
    pub merge: bool,
    /// The latches of the cleaned circuit that are merged then, in order, and what each reads as.
    /// No others are. They are judged, whoever found them. `None` has them guessed; without `merge`
    /// they aren't looked at.
    pub classes: Option<Sequence<MergedLatch>>,
    /// The bound on path length. A frame whose set would make a longer path takes a set of gates
    /// that keep the bound, or none.
    pub bound: PathBound,
}

impl Options {
    /// Returns the options of a caller that asks for nothing, so that callers name only what they
    /// ask for. Takes no memory.
    ///
    /// The limit of frames is past every circuit's, since each frame leaves fewer latches.
    pub fn defaults(alloc: Global) -> Options
        ensures { AreDefaults result }
    {
        Options {
            spelling: None,
            max_frames: 1 << 28,
            choice: Choice::Greatest,
            certify: false,
            keep: Vec::new(alloc),
            keep_latches: Vec::new(alloc),
            merge: false,
            classes: None,
            bound: PathBound::None,
        }
    }
}
