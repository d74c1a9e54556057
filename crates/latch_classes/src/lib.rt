//! Guesses which latches always agree. No simulated step from a state in which those of a class
//! agree has parted it, and propagation shows that they go on to agree. A guess is a hint, and no
//! clause says that it is right: who uses one has it judged. It is a function of the circuit, of
//! what the latches read as at first, and of the budget.
#![tactic(auto)]

mod asking;
mod budget;
mod cone;
mod guessing;
mod questions;
mod random;
mod steps;
mod words;

pub use budget::Budget;
pub use guessing::{GuessedReads, guess};
