//! Checks that a map of states shows a circuit to be a retiming of another one. It shares gates,
//! propagates over them, and makes cases of inputs and latches.
#![tactic(auto)]

mod answer;
mod cases;
mod checking;
mod choosing;
mod comparing;
mod errors;
mod facts;
mod kept;
mod learning;
mod leaves;
mod openings;
mod pairs;
mod refuting;
mod settling;
mod shapes;
mod sides;
mod starting;
mod trees;

pub use answer::{Answer, Obligation};
pub use checking::check_map;
pub use errors::CheckError;
pub use shapes::{are_fitting, is_map};
pub use starting::free_places;
