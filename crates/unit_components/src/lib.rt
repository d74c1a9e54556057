//! A flow of units over a large frame, by workers that each own whole components of its network.
//!
//! Gates and latches end if no passable gate reads on, so the network of a wide circuit falls into
//! components, which share no arc. What a flow does in one of them says nothing of another. So each
//! is worked on as a circuit of its own, in tables that fit in a processor's cache. Nothing is
//! exchanged until all are done. The parts depend on the circuit alone, so the flow is equal for
//! every number of workers that cut it. One worker cuts a frame from eight times as many places on
//! as several do, to need less memory. Only the first frame of a run is cut, of which no flow is
//! known. Along a last frame's flow few units are left, and cutting costs more than they do.
//!
//! The flows that are made here are hints. No clause speaks of a flow's values; the judge of
//! `unit_flows` says if the gathered flow shows the chosen least set.
#![tactic(auto)]

mod bringing;
mod cut;
mod gathering;
mod joining;
mod least_set;
mod part_flows;
mod parts;
mod ranges;
mod shares;
mod sizes;

pub use least_set::{chosen_by_sizes, flow_in_parts};
pub use shares::{CutFlow, Shares};
pub use sizes::Sizes;
