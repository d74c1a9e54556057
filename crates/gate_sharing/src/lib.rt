//! Gates of one or more circuits, of which those with the same fan-ins are one, and literals that
//! are known to be equal. What is copied has the values of what it is a copy of.
#![tactic(auto)]

mod circuits;
mod copied;
mod equalities;
mod errors;
mod shared;

pub use circuits::SharedCircuits;
pub use copied::{Copied, copy, leaves_below};
pub use equalities::Equalities;
pub use errors::SharingError;
pub use shared::SharedGates;
