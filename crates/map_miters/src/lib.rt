//! Miters of state maps: the conditions on a map, as circuits that any solver or model checker
//! reads.
//!
//! Product machines: two circuits side by side over shared inputs, as a model. Its bad state says
//! that a property of the one differs from that of the other. By a state map it is also a witness
//! circuit for that model.
//!
//! Lifted proofs, against the direction of a map. A move of latches backward gives the states of a
//! circuit from those of its result. A witness circuit of the result then becomes one of the
//! circuit.
#![tactic(auto)]

mod assembling;
mod back_lift;
mod begun;
mod beside;
mod circuits;
mod comparing;
mod errors;
mod goals;
mod images;
mod laws;
mod leaves;
mod lifting;
mod products;
mod questions;
mod resets;
mod sides;
mod steps;
mod ties;
mod turned;

pub use assembling::miter;
pub use back_lift::back_lift_law;
pub use comparing::{add_each_equal, add_failure};
pub use errors::MiterError;
pub use goals::{Goal, add_given};
pub use images::{Image, add_image};
pub use laws::{agreement_law, answers_law};
pub use lifting::witness_lifted_back;
pub use products::product_machine;
pub use steps::{Step, add_step};
