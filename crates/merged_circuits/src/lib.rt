//! Circuits in which latches that always agree were merged. A partition is of the constant and the
//! latches of known reset. Steps preserve it if the latches of a class are told the same in each
//! state in which all classes agree. By induction over steps they then have one value, or opposite
//! ones if their resets differ. How that was found is no part of it.
//!
//! Signatures that are always equal in the merged graph show it. A partition is said by a line for
//! each latch that reads as another literal, as in a file of certificates.
#![tactic(auto)]

mod counts;
mod laws;

pub use counts::{MergeCounts, counts_of};
pub use laws::merging_laws;
