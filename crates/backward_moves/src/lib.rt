//! Moves latches backward, frame after frame: drafts a circuit, and a map of its states to those of
//! the circuit before.
//!
//! The drafts that are made here are hints. No clause speaks of a draft; its judge stands in the
//! crate above.
#![tactic(auto)]

mod again;
mod composing;
mod copies;
mod following;
mod frame;
mod latching;
mod moving;
mod reading;
mod rebuilding;
mod shared;
mod staying;
mod sweeping;
mod watching;

pub use frame::FrameCounts;
pub use moving::{Drafted, MoveOptions, Moves, draft_moves};
pub use staying::Staying;
pub use watching::{MoveStage, MoveWatcher};
