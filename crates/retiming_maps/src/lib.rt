//! The state map of a retiming, as a circuit. It gives the value of each latch of the written
//! circuit, as a function of the latches of the circuit that was read.
#![tactic(auto)]

mod maps;
mod merging;
mod moves;
mod packed_maps;
mod parts;
mod passes;
mod start;

pub use map_circuits::MapError;
pub use maps::state_map;
pub use merging::{start_along, start_along_by};
pub use moves::follow_move;
pub use packed_maps::StateMap;
pub use parts::MapParts;
pub use passes::cleaned_along;
pub use start::identity;
