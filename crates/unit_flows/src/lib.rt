//! Judges flows of units over the gates of a circuit, without a network.
//!
//! One unit comes after each known latch, and at most one goes through a gate. If no node gives
//! more than it gets, no closed set has a smaller border than the number of units that come to the
//! sink. So a cut is least if the units that cross it fill its room. If moreover all that is marked
//! reaches the sink over residual arcs, each least set lies off the marks (Hurst, Mishchenko and
//! Brayton, 2007).
#![tactic(auto)]

ghost use Rattle.unit_flows.specs.Laws.{BorderLaw, ShownLaw, ShownSmallestLaw};

mod balance;
mod carrying;
mod cut;
mod frame;
mod gate_flow;
mod judging;
mod least_set;
mod marks;
mod nearest;
mod onward;
mod onward_sweeps;
mod passes;
mod sweeps;
mod tallies;
mod unit_flow;

pub use carrying::{after_cleaning, after_move};
pub use frame::Frame;
pub use gate_flow::GateFlow;
pub use judging::shown_by_marks;
pub use least_set::shown_chosen;
pub use sweeps::{NodeMarks, mark};
pub use unit_flow::{SpareTables, UnitFlow, filled};

/// The border of each closed set has at least as many variables as units come to the sink.
pub fn border_law()
    ensures { BorderLaw }
{}

/// The passable gates off the marks of a full cut are the greatest least set, if all of its marks
/// reach the sink.
pub fn shown_law()
    ensures { ShownLaw }
{}

/// The passable gates off the marks of a full cut are the smallest least set. For that all of them
/// have to be reached from units that are left.
pub fn shown_smallest_law()
    ensures { ShownSmallestLaw }
{}
