//! Circuits whose latches have classes. A class is what makes a latch keep its value, or gives it
//! its reset: a hold and masks, which are taken off. Then the latches of a class move as plain
//! latches do. At the end each gets back what its class has.
//!
//! What is made here are hints. No clause speaks of them; a crate above judges the circuit that is
//! made as a whole.
#![tactic(auto)]

mod closing;
mod maps;
mod masks;
mod nets;
mod opening;
mod plans;
mod scenes;

pub use closing::{Closure, draft_latch};
pub use maps::{GrowingMap, NumberMap, literal_of, number_map};
pub use nets::{Class, ClassLatch, Net, literal_at, set_literal};
pub use plans::{PLANS, Plan, plan_of};
pub use scenes::{Scene, held_positions, needed, sealed};
