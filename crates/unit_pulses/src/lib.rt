//! Brings the units that a start leaves to the sink, by push-relabel in synchronous pulses over the
//! gates of a circuit. No network is made: arcs are computed from fan-ins and from lists of
//! readers, which are made only if units are left.
//!
//! Workers of a crew share a pulse of many active nodes. Each owns a range of places, so a pulse's
//! result is equal for every number of workers.
//!
//! The flows that are made here are hints. No clause speaks of a flow's values; the judge of
//! `unit_flows` says if one shows the chosen least set.
#![tactic(auto)]

mod active;
mod bringing;
mod delivering;
mod extending;
mod fan_ins;
mod labels;
mod least_set;
mod marked_flow;
mod nodes;
mod parts;
mod phases;
mod pushes;
mod raising;
mod readers;
mod search;
mod sharing;
mod spots;

pub use least_set::{chosen_least_brought, first_flow};
pub use parts::Range;
pub use sharing::pulse_ranges;
