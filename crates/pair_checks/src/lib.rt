//! Checks that a circuit has the properties of another one, without a map of their states. Both
//! stand side by side over the same inputs, it is guessed which of their latches agree, and proved
//! code judges the guess. By induction over steps the latches then agree in all states that are
//! reached. So do the properties that are equal if the latches agree.
#![tactic(auto)]

mod answer;
mod checking;
mod comparing;
mod errors;
mod judging;
mod openings;
mod pairs;
mod readings;

pub use answer::PairAnswer;
pub use checking::check_pair;
pub use errors::PairError;
