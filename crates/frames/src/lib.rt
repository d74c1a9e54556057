//! Circuits retimed in rounds, from the bytes of a reader to those of a writer.
#![tactic(auto)]

mod bytes;
mod laws;
mod runs;

pub use bytes::{retime_bytes, run_spelt};
pub use frame_runs::{
    BytesError, Choice, FrameReport, FrameWatcher, GivenCircuit, NoFollower, NoWatcher, Options,
    PathBound, RetimeError, Run, Stage,
};
pub use laws::answer_law;
pub use merging_rounds::Rounds;
pub use runs::{retime, run_watched};
