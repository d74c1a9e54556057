//! The commands `backward` and `enables`: they move latches, and write what the judge takes and a
//! map for it.
#![tactic(auto)]

mod answering;
mod engines;
mod lines;
mod moving;
mod object;
mod printing;
mod staying;

pub use moving::print_moves;
