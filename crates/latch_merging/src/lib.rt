//! Merging of latches that always agree: those that an inductive partition holds together read as
//! the first of their class.
//!
//! The partition is guessed, or lines of a file say it. Either way it is judged. Frames start from
//! a circuit that is cleaned and merged once, if that is asked for.
#![tactic(auto)]

mod given;
mod merging;
mod start;

pub use given::{GivenMerging, GivenStart, merge_by, start_by};
pub use merging::{MergedCircuit, merge_latches};
pub use start::{MergedStart, merged_start};
