//! Moving latches forward over a closed set of gates, and the resets that the latches get there.
//! The move is that of Hurst, Mishchenko and Brayton, 'Fast minimum-register retiming via binary
//! maximum-flow' (2007).
#![tactic(auto)]

mod graph;
mod marking;
mod marks;
mod moving;
mod names;
mod numbers;
mod plan;
mod properties;
mod ranks;
mod starting;
mod tables;
mod values;

pub use marking::MoveMarks;
pub use moving::{moved, moved_by, moved_in};
pub use starting::resets;
pub use tables::MoveTables;
