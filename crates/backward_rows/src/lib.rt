//! Leaves the middles of long rows of latches out of a draft, and gives them back. In a frame that
//! moves latches backward they stay as they are, so a frame looks at what can move alone.
//!
//! What is made here are hints. No clause speaks of a draft; what judges it stands in a crate
//! above.
#![tactic(auto)]

mod links;
mod relaying;
mod rows;

pub use rows::Rows;
