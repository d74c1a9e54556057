//! Simulating a circuit under many input sequences at once, 256 of them in each step.
#![tactic(auto)]

mod block;
mod difference;
mod fault;
mod kept;
mod kernel;
mod lanes;
mod read;
mod run;
mod shape;
mod steps;
mod stimulus;
mod table;
mod trace;

pub use difference::{Place, first_difference, first_difference_kept};
pub use fault::{SimError, StimError};
pub use kept::read_kept;
pub use kernel::and_lanes;
pub use read::read_stimulus;
pub use steps::{State, Values};
pub use stimulus::{InputSequence, Stimulus};
pub use trace::{Trace, simulate};
