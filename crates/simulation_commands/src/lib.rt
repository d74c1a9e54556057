//! The commands that simulate. `sim` prints the properties of a circuit, step by step, and writes
//! its waves if they are asked for. `same` prints the first difference of two circuits.
//!
//! A seed fixes the digits of random stimuli, so whoever is told the seed has them.
//!
//! Each sequence has a seed of its own, and so has each step of a sequence. So a stimulus with more
//! sequences, or with longer ones, begins with the shorter one. Inputs don't depend on the free
//! latches of a circuit.
//!
//! The command `witness` carries a witness of a retimed circuit back to the one that it was made
//! of, and tells what becomes of it.
#![tactic(auto)]

mod comparison;
mod dumping;
mod generating;
mod kept;
mod reading;
mod room;
mod simulation;
mod stimuli;
mod witness;

pub use comparison::print_comparison;
pub use generating::random_stimulus;
pub use kept::{Shared, shared_by};
pub use reading::{Pair, pair_at};
pub use room::is_too_long;
pub use simulation::print_simulation;
pub use witness::print_witness_back;
