//! Witness circuits: what a model checker hands in to show that no bad state of a model is reached,
//! and what that shows. They are the certificates of the hardware model checking competition: five
//! checks of one or two steps each, which any SAT solver answers.
//!
//! Lifted proofs: let a map lead from the states of a circuit to those of another one. A witness
//! circuit of the other one, read through the map, is a witness circuit of the first.
//!
//! Sharing: a witness circuit shares inputs and latches with the model. The names of its inputs and
//! latches tell which, as `= 12` names the literal 12 of the model. If no name does, the first ones
//! of the witness are the model's, in order.
#![tactic(auto)]

mod building;
mod errors;
mod latches;
mod laws;
mod lift_laws;
mod lifting;
mod literals;
mod names;
mod naming;
mod parts;
mod placing;
mod properties;
mod shared_names;
mod sharing;
mod sharing_errors;

pub use errors::LiftError;
pub use latches::{push_nexts, push_resets, set_nexts};
pub use laws::witness_law;
pub use lift_laws::lift_law;
pub use lifting::{lifted_witness, witness_lifted_over};
pub use literals::{leaves, numbered, push_substitutes};
pub use placing::first_places;
pub use properties::safety_props;
pub use shared_names::sharing_of;
pub use sharing::Sharing;
pub use sharing_errors::SharingError;
