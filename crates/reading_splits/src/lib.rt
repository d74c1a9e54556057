//! Parts the classes of a reading, until those of a class are told one literal. Gates are equal
//! here if their fan-ins are, and nothing is asked of what they compute.
//!
//! A reading is a hint, and no clause says that it is right: who uses one has it judged. Latches of
//! which hashing shows that they always agree stay together, if they were together before.
#![tactic(auto)]

mod classes;
mod groups;
mod marks;
mod merging;
mod naming;
mod pairs;
mod parting;
mod readers;
mod rounds;
mod splitting;

pub use merging::{merged, sides};
pub use parting::{Leaving, part, reads_another};
pub use rounds::hashed;
