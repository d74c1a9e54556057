//! Starts: flows of units that a few passes over the gates make, along the last frame's flow or
//! along nothing. A start brings all units to the sink for most frames, or all but a few.
//!
//! They go over a region: a whole frame, or some components of its network with tables of their
//! own.
//!
//! The flows that are made here are hints. No clause speaks of a flow's values; the judge of
//! `unit_flows` says if one shows the chosen least set.
#![tactic(auto)]

mod along;
mod first_start;
mod least_set;
mod left_units;
mod region;
mod start;

pub use least_set::{Started, start_along, start_in};
pub use region::{Region, narrow};
