//! Retiming in rounds. Moves make further latches agree, so latches are merged again where the
//! frames end, and frames are taken from there. That goes on while a latch is merged.
//!
//! A round is a run of frames, which begins with the circuit that the round before left. The first
//! merges latches if the options ask for it. Without merging there is one round.
#![tactic(auto)]

mod asking;
mod joining;
mod laws;
mod rounds;
mod running;

pub use laws::{round_answer_law, round_levels_law, round_limits_law};
pub use rounds::Rounds;
pub use running::finish_rounds;
