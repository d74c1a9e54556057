//! A maximum flow by synchronous pulses of the push-relabel method (Goldberg and Tarjan, 1988), by
//! one worker or by many.
//!
//! A pulse has two phases. In the read phase each node writes its row of pushes by the flow and the
//! labels of the pulse's start. In the delivery phase each node writes its row of flow, its excess
//! and its new label from all pushes. Then the new labels become the labels. Each worker has a
//! range of nodes and owns their rows. So the state after a phase depends on no order of events and
//! on no number of workers. A run ends if no node is active. Then its preflow can't be improved,
//! and the nodes that can't reach the sink are the greatest of the least cuts.
//!
//! Contracts speak of the state on pairs of nodes (`frame_net`).
#![tactic(auto)]

mod active;
mod crew;
mod error;
mod fast_run;
mod flow;
mod gate;
mod marks;
mod max_preflow;
mod phases;
mod pushes;
mod ranges;
mod relabel;
mod run;
mod sharing;
mod workers;

pub use crew::Crew;
pub use error::PulseError;
pub use fast_run::run_with_global_relabeling;
pub use flow::Flow;
pub use gate::{OpenGate, PhaseGate};
pub use max_preflow::MaxPreflow;
pub use phases::{deliver_phase, read_phase};
pub use pushes::Pushes;
pub use ranges::{deliver_range, read_range};
pub use run::run_to_end;
