//! Moves registers with an enable or a reset, forward or backward. Nobody has to believe how that
//! was found: a circuit and a map are drafted, and judged once they are there. If the judge refuses
//! them, drafts of half the frames are judged, as long as frames are left. Backward there have to
//! be more than those of plain registers. Else the circuit itself is the answer, or what plain
//! moves give.
#![tactic(auto)]

mod drafting;
mod retiming;
mod returning;
mod trying;

pub use backward_moves::{MoveOptions, MoveStage, MoveWatcher};
pub use retiming::{MovedOn, move_on};
pub use returning::move_back_on;
