//! What the program prints on standard output for people: frames, batches, audits, counts, traces,
//! differences and waves. Each text goes through a buffer, line by line, and takes no memory.
#![tactic(auto)]

mod agreement;
mod audit;
mod batch;
mod counts;
mod difference;
mod held_back;
mod judgement;
mod remaining;
mod remaining_counts;
mod retiming;
mod simulating;
mod statistics;
mod trace;
mod waves;

pub use agreement::{Agreement, compare};
pub use audit::{last_end, print_audit};
pub use batch::{JobReport, print_job};
pub use counts::print_counts;
pub use difference::{print_difference, print_shapes_differ};
pub use held_back::HeldBack;
pub use judgement::Judgement;
pub use remaining::print_remaining;
pub use remaining_counts::Remaining;
pub use retiming::print_retiming;
pub use simulating::{Room, print_simulated};
pub use statistics::{Counts, Statistics};
pub use trace::print_trace;
pub use waves::{WaveRoom, probed, wave_names, write_waves};
