//! What a circuit is retimed to, frame after frame. There is one retimed circuit, held latches stay
//! with their names and resets, and its levels are bounded.
#![tactic(auto)]

mod cleaning_levels;
mod laws;
mod moving_levels;
mod report;
mod retiming_levels;

pub use cleaning_levels::cleaning_levels_law;
pub use laws::{held_laws, retiming_law};
pub use moving_levels::moving_levels_law;
pub use report::{FrameReport, Retimed};
pub use retiming_levels::retiming_levels_law;
