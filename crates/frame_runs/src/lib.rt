//! Minimum-register forward retiming, frame after frame (Hurst, Mishchenko and Brayton, 2007).
//!
//! In each frame latches move over the chosen least set of a cleaned circuit, the greatest or the
//! smallest, and it is cleaned again. The run ends if no closed set needs fewer latches. A bound
//! may limit how long paths get.
#![tactic(auto)]

mod beginning;
mod bound;
mod bounding;
mod errors;
mod follower;
mod frame;
mod given;
mod helping;
mod history;
mod holding;
mod next;
mod options;
mod retiming;
mod run;
mod settling;
mod watcher;

pub use aig_graph::Choice;
pub use beginning::begin;
pub use bound::PathBound;
pub use certificates::{Certificate, MergedLatch};
pub use errors::{BytesError, RetimeError, RunError};
pub use follower::{NoFollower, RunFollower};
pub use given::GivenCircuit;
pub use holding::hold_by;
pub use next::next_set;
pub use options::Options;
pub use retimed_circuits::{FrameReport, Retimed};
pub use retiming::finish;
pub use run::Run;
pub use watcher::{FrameWatcher, NoWatcher, Stage};
