//! What latches read as: readings that are found or given, the circuits in which latches read so,
//! and the judge of readings.
//!
//! A reading is guessed by steps from random states, and judged by unit propagation. The judge
//! believes nobody: it says yes only if latches of a class are told the same in each state in which
//! all classes agree.
#![tactic(auto)]

mod guessing;
mod judging;
mod lines;
mod reading;
mod substitutes;

pub use guessing::guessed_reading;
pub use judging::{Judgement, judge};
pub use lines::{LineReading, merged_lines, own_reading, reading_of};
pub use reading_splits::hashed;
pub use substitutes::circuit_by;
