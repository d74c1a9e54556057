//! Counts the registers of a circuit that hold, and prints how many do, in how many classes.
//!
//! A register holds if its next literal is a choice between its own value and another, as an enable
//! makes it. It holds too if that is a gate over such a choice, as a reset makes it. A choice is
//! three gates, and no exclusive or. What selects the own value is the hold, and registers with one
//! hold are a class.
#![tactic(auto)]

mod choices;
mod counting;
mod printing;

pub use counting::Holding;
pub use printing::print_holding;
