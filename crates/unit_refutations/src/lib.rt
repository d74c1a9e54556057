//! What gates refute by unit propagation: literals that can't all be 1. Only what follows gate by
//! gate is looked for. So a refutation is right, and without one the literals may be 1 or not.
//! Which gates are visited, and in which order, is no part of what is proved.
#![tactic(auto)]

mod assigned;
mod gates;
mod judging;
mod probing;
mod propagating;
mod readers;

pub use judging::first_open;
pub use probing::equal_by_probing;
pub use propagating::Propagation;
