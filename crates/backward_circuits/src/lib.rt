//! Circuits whose latches were moved backward. Such a circuit has the streams of the circuit
//! before, and a map gives that one's states by its own. It has no more latches, and held ones have
//! stayed. All of that is looked at once the circuit and the map exist, by checks that are proved.
//! Nothing here moves latches.
#![tactic(auto)]

mod bounds;
mod held;
mod judging;
mod names;
mod wiring;

pub use bounds::is_within;
pub use held::{held_place, is_named_at, starts_alike};
pub use judging::is_moved_back;
pub use names::{name_at, names_of_map};
pub use wiring::wires;
