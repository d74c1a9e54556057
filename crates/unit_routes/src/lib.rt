//! The certificate of a closed set by the routes of the units of a flow.
//!
//! Each unit is followed from its latch to where it leaves. The check of `certificates` says
//! whether these are routes, apart from one another, and as many as the set's border has variables.
//! No certificate is returned that fails it.
#![tactic(auto)]

mod claiming;
mod following;

pub use claiming::certificate_by_units;
