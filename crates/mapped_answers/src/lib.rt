//! Retiming with a map of states beside the answer, from a circuit that was read to a writer's
//! bytes. The circuit is retimed as `frames` does it, and the map is written too.
#![tactic(auto)]

mod bytes;
mod errors;
mod following;
mod making;
mod map_text;

pub use bytes::retime_spelt_mapped;
pub use errors::AnswerError;
pub use making::{Made, made_of};
pub use map_text::write_state_map;
pub use retiming_maps::StateMap;
