//! The flow network of a frame, and the gates over which latches may move. Each set of nodes that
//! no arc of unbounded capacity leaves is a closed set. The arcs that leave it are at least as many
//! as the latches that there are after the move (Hurst, Mishchenko and Brayton, 2007).
//!
//! Cuts of a frame's network are closed sets. The flow that leaves a cut is at least the border of
//! its gates, with equality for some cut of each closed set. So a greatest least cut gives the
//! greatest least set.
//!
//! The flow by pulses is stated on pairs of nodes, by which a network's arcs, rows and parts are
//! all measured. A state has a residual for each ordered pair of nodes, and an excess and a label
//! for each node. A pulse is one step of the push-relabel method of Goldberg and Tarjan (1988) in
//! which all active nodes act at once. Each pushes its excess over its admissible arcs in rising
//! order of heads, by the labels of the pulse's start. Then all pushes are delivered, and a node
//! that keeps some of its excess is relabelled by its residuals after delivery. So the state after
//! a pulse depends on no order of nodes and on no number of workers.
//!
//! Residuals are natural numbers and a pair's flow is its capacity less its residual. Each law is
//! the contract of a function without a body, for the crates that compute the flow to cite.
//!
//! Only rows speak of arcs and memory. A node's row holds its arcs by rising head. So a walk over
//! the row in order is a walk over all nodes, in which those without an arc count for nothing. Thus
//! the pushes of a row written in arc order are the pushes of the definition, and so are sums and
//! least labels.
#![tactic(auto)]

ghost use Rattle.frame_net.specs.Events.{AnyOrderIsPulse};
ghost use Rattle.frame_net.specs.Laws.{ExactLabelsServe, PulseKeepsPreflow, PulseLowersPotential, PulseRaisesLabels, SourceSideIsGreatest, StartIsSound, TotalIsKept};

mod build;
mod capacities;
mod counting;
mod cut_laws;
mod edges;
mod joining;
mod layout;
mod links;
mod net;
mod pass_set;
mod row_laws;
mod rows;

pub use capacities::Capacities;
pub use cut_laws::{closed_sets_are_cuts, cuts_are_closed, greatest_cut_is_greatest_set};
pub use layout::leaving_marks;
pub use net::{Net, Point};
pub use pass_set::{PassSet, passable};
pub use row_laws::row_law;
pub use rows::{relabel, subtract_pushes, write_pushes};

/// The state with the source's arcs full and all other flow 0 is a preflow with valid labels.
pub fn start_is_sound()
    ensures { StartIsSound }
{}

/// After a pulse the flow is a preflow and the labels are valid, if they were so before it.
pub fn pulse_keeps_preflow()
    ensures { PulseKeepsPreflow }
{}

/// A pulse lowers no label, and raises the label of each active node that keeps some of its excess.
pub fn pulse_raises_labels()
    ensures { PulseRaisesLabels }
{}

/// Each pulse after which a node is active lowers the potential
/// `2 * (n * n - sum of labels) + greatest active label`. So a run takes at most `2 * n * n`
/// pulses.
pub fn pulse_lowers_potential()
    ensures { PulseLowersPotential }
{}

/// A pulse moves excess between nodes: their sum stays, and nothing goes back into the source.
pub fn total_is_kept()
    ensures { TotalIsKept }
{}

/// Every list of a pulse's events, in any order and by any workers, leaves the state after the
/// pulse.
pub fn any_order_is_pulse()
    ensures { AnyOrderIsPulse }
{}

/// Labels may be replaced by the exact residual distances to the sink: they are valid, none falls,
/// and the potential doesn't rise.
pub fn exact_labels_serve()
    ensures { ExactLabelsServe }
{}

/// If no node is active, the nodes that can't reach the sink over residual arcs are the greatest of
/// the least cuts.
pub fn source_side_is_greatest()
    ensures { SourceSideIsGreatest }
{}
