//! The commands that read a map of states: `check` judges a circuit by it or without one, `miter`
//! writes what it has to meet, and `lift` reads a witness circuit through it.
#![tactic(auto)]

mod back_lift;
mod check;
mod fitting;
mod given;
mod lift;
mod made;
mod mitering;
mod obligations;
mod pair_check;
mod products;

pub use check::print_check;
pub use lift::write_lifted;
pub use mitering::write_miter;
