//! What structural cleaning of a circuit is, and that it keeps the streams. It takes away constant
//! and duplicate latches, redundant gates, and what no property depends on.
#![tactic(auto)]

mod laws;

pub use laws::cleaning_laws;
