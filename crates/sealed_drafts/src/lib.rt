//! Circuits that are made of drafts: numbers that may be out of range are looked at, and a circuit
//! is made of those that aren't. What such a circuit is worth is for its judge to say.
#![tactic(auto)]

mod drawing;
mod names;
mod props;
mod sealing;
mod seals;

pub use drawing::{drawn_circuit, drawn_map, drawn_outputs};
pub use seals::SealError;
