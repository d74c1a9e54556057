//! Drafts a circuit in which latches with an enable or a reset moved backward: from behind gates to
//! before them.
//!
//! First plain latches move, unless fewer are left without that. Then a circuit is opened, and the
//! latches of one class move, while all others are held; so it goes on class by class. At the end
//! each latch gets back what its class has.
//!
//! A draft is a hint. No clause speaks of it; its judge stands in a crate above.
#![tactic(auto)]

mod attempts;
mod drafting;
mod moving;

pub use drafting::{ReturnedDraft, draft_returned};
