//! The number of gates on the paths of a circuit, and a bound on it. Has levels, arrivals, and
//! circuits whose gates past a bound are no longer passable.
#![tactic(auto)]

mod arriving;
mod barring;
mod bounding;
mod entries;
mod laws;
mod leveling;

pub use bounding::{bounded, bounded_if_barred};
pub use laws::bounded_law;
pub use leveling::levels;
