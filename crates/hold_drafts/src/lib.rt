//! Opens a circuit: finds what each latch keeps its value by, and gives the latch the rest to read.
//!
//! A latch whose next value is `hold ? own : load` gets `load` as its next literal, and the hold
//! stands beside it. Latches with one hold are of one class, over whose gates they move as plain
//! latches do.
//!
//! An opened circuit is a hint. No clause speaks of it; a crate above judges the circuit that is
//! made of it as a whole.
#![tactic(auto)]

mod assumptions;
mod candidates;
mod choices;
mod classes;
mod contexts;
mod folds;
mod literals;
mod nearness;
mod opening;
mod opens;
mod outers;
mod settling;
mod sharing;
mod sweeps;
mod walks;
mod ways;

pub use candidates::{Candidates, candidates_of};
pub use classes::classes_of;
pub use literals::{TRUE, opposite};
pub use opening::{NOWHERE, OpenLatch, Opening, PLAIN, STAYS};
pub use opens::opened;
pub use sharing::Sharing;
pub use sweeps::Swept;
pub use ways::{Way, opens_otherwise};
