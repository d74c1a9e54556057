//! State maps as circuits: gates over the latches of a circuit give the values of another one's
//! latches, step for step.
//!
//! A step of a state map that merges latches adds constraints: each latch is equal to its reading.
//! The functions of the latches stay, or become those of their readings.
//!
//! A circuit may be a part of a larger one: its gates once more, over literals that stand for its
//! inputs and latches.
#![tactic(auto)]

mod adding;
mod conjunctions;
mod constraining;
mod errors;
mod free;
mod functions;
mod gates;
mod gathering;
mod instances;
mod latch_functions;
mod laws;
mod map_gates;
mod moving;
mod packing;
mod standing;

pub use adding::add_readings;
pub use conjunctions::add_conjunction_of;
pub use constraining::add_constraints;
pub use errors::MapError;
pub use free::free_stay;
pub use functions::read_functions;
pub use gates::{add_conjunction, add_equality};
pub use instances::{Instance, add_instance};
pub use latch_functions::LatchFunctions;
pub use laws::{merged_step_law, merging_step_law};
pub use map_gates::MapGates;
