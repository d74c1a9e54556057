//! The chosen least set of a circuit by a maximum flow of its network, with routes that show it to
//! be least.
//!
//! This engine finds and proves a set for every circuit (Hurst, Mishchenko and Brayton, 2007).
//! `unit_flows` judges the faster search, which finds one of nearly all.
//!
//! The greatest set has the gates whose node before can't reach the sink over arcs with a residual.
//! All preflows with valid labels and no active node agree on these nodes. So it doesn't matter
//! which run found the preflow, and excess left at nodes needn't be sent back.
//!
//! The smallest set is the near side, with one unit of flow along each route: the gates to which
//! residual arcs lead from the source.
//!
//! Routes lead from known latches to what reads from outside, and no two of them pass after one
//! variable. The number of them is that of the variables of a least set's border. With a least set
//! they are a certificate that anybody can check (`certificates`).
//!
//! The flow is walked back from the sink, one unit at a time; each walk takes its unit from the
//! flow. Excess that can't reach the sink is never walked.
#![tactic(auto)]

mod carried;
mod certifying;
mod chosen;
mod gathering;
mod greatest;
mod lookup;
mod nearest;
mod preflow;
mod reached;
mod sink_side;
mod source_side;
mod trail;
mod used_arcs;
mod walk;

ghost use Rattle.cut_cert.specs.Cuts.{NearSideIsSmallest, SmallestCutIsSmallestSet};

pub use aig_graph::Choice;
pub use certificate_files::{CertError, CertFile, CertPart, read_cert, write_cert};
pub use certificates::{Certificate, MergedLatch, Objection, Routes, Verdict, check};
pub use certifying::certificate_of;
pub use chosen::{chosen_of_network, shown_by_network};
pub use gathering::routes;
pub use greatest::greatest_cut;
pub use nearest::near_cut;
pub use preflow::{maximum_preflow, network};

/// States that the near side of a flow is the smallest of the least cuts, if no residual arcs lead
/// to the sink.
///
/// The flow has no excess at inner nodes. The near side has the nodes to which residual arcs lead
/// from the source.
pub fn near_side_is_smallest()
    ensures { NearSideIsSmallest }
{}

/// States that the gates of the least cut that lies in every least cut are the least set that lies
/// in every least set.
pub fn smallest_cut_is_smallest_set()
    ensures { SmallestCutIsSmallestSet }
{}
