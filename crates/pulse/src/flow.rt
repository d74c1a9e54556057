//! The flow of a network, with its labels.
//!
//!     between two pulses ──deliver_phase──► between two pulses
//!     between two pulses ──deliver_range──► delivered in part
//!     delivered in part ──deliver_range, up to all nodes──► ──turn──► between two pulses
//!     any ──deliver_phase, refused──► spent, and stays so
ghost use Rattle.std.specs.Prelude.{◌≡◌, ◌<◌, IfOk, length, pos, slice_index, ◌-ℤ◌};
ghost use Rattle.frame_net.specs.FlowNet.{node_count};
ghost use Rattle.pulse.specs.Conditions.{IsStart, IsTurnable, is_marked};
ghost use Rattle.pulse.specs.Phases.{Turns};
ghost use Rattle.pulse.specs.Values.{AreFlowRangesOf};

use crate::marks::{no_marks, unmark};
use aig_graph::NoMemory;
use frame_net::{Capacities, Net};
use pulse_parts::{FlowPart, excess_at, residual_at, start_labels, start_parts, turn};
use std::alloc::Global;
use std::marker::Model;

/// The flow of a network. The residuals of its arcs and the excess of its nodes are in parts, one
/// for each worker of the last delivery phase. The labels are lent to all workers. The capacities
/// are the network's own table, which the flow shares.
///
/// A delivery phase that is refused memory leaves the flow spent: its parts are gone, and each
/// later phase is refused. If `listed` is false, the parts' lists of active nodes aren't those of
/// this flow.
pub struct Flow {
    pub(crate) labels: Vec<u32>,
    pub(crate) delivered: Vec<bool>,
    pub(crate) caps: Capacities,
    pub(crate) parts: Vec<FlowPart>,
    pub(crate) phase: u32,
    pub(crate) spent: bool,
    pub(crate) listed: bool,
}

impl Drop for Flow {
    // written out: docs/PROOFS.md, Drops and exits
    fn drop(self) {
        let Flow {
            labels: _labels,
            delivered: _delivered,
            caps: _caps,
            parts: _parts,
            phase: _phase,
            spent: _spent,
            listed: _listed,
        } = self;
    }
}

impl Model for Flow {
    ghost use Rattle.pulse.specs.Values.{FlowKept, FlowState, flow_state};

    ghost Value = { FlowState };

    ghost view = { λ f. flow_state f.parts.items f.labels.items f.delivered.items f.caps f.spent };

    ghost invariant = { λ f. FlowKept f.listed f.spent f.labels.items f.parts.items };
}

impl Flow {
    /// Returns the flow at the start: each arc out of the source is full, the flow over all others
    /// is 0. The source has label N, all other nodes 0.
    pub fn start(alloc: Global, net: &Net) -> Result<Flow, NoMemory>
        ensures { IfOk result (λ f. IsStart net.now f) }
    {
        Flow::start_for(alloc, net, 1)
    }

    /// Returns the flow at the start, in parts for `workers` workers.
    pub(crate) fn start_for(alloc: Global, net: &Net, workers: u32) -> Result<Flow, NoMemory>
        requires { 0 < workers }
        ensures start { IfOk result (λ f. IsStart net.now f) }
        ensures shares { IfOk result (λ f. AreFlowRangesOf (node_count net.now) workers f.ranges) }
    {
        net.known();
        let nodes = net.nodes();
        net.known_capacities();
        let labels = start_labels(alloc, net)?;
        let caps = net.capacities().share()?;
        let delivered = no_marks(alloc, nodes)?;
        let parts = start_parts(alloc, net, workers)?;
        Ok(Flow {
            labels,
            delivered,
            caps,
            parts,
            phase: 0,
            spent: false,
            listed: false,
        })
    }

    /// Returns the label of node `v`, as of the last turn.
    pub fn label(&self, v: u32) -> u32
        requires { v < length self.now.labels }
        ensures { result ≡ slice_index self.now.labels v }
    {
        self.labels[v as usize]
    }

    /// Returns the excess of node `v`, which isn't the source.
    pub fn excess(&self, v: u32) -> u32
        requires { v < length self.now.cells.excess }
        ensures { result ≡ slice_index self.now.cells.excess v }
    {
        excess_at(self.parts.as_slice(), v as usize)
    }

    /// Returns the flow over an arc: its capacity less its residual.
    pub fn flow(&self, arc: u32) -> i64
        requires arc { arc < length self.now.cells.residuals }
        requires cap { arc < length self.now.caps }
        ensures { result ≡ pos (slice_index self.now.caps arc) -ℤ pos
            (slice_index self.now.cells.residuals arc) }
    {
        let residual = residual_at(self.parts.as_slice(), arc as usize);
        i64::from(self.caps.at(arc)) - i64::from(residual)
    }

    /// Returns true if node `v` was delivered since the last turn.
    pub fn is_delivered(&self, v: u32) -> bool
        requires { v < length self.now.delivered }
        ensures { result ≡ is_marked self.now v }
    {
        self.delivered[v as usize]
    }

    /// Returns true if a delivery phase was refused.
    pub fn is_spent(&self) -> bool
        ensures { result ≡ self.now.spent }
    {
        self.spent
    }

    /// Ends a pulse once every node was delivered: replaces the labels by the new ones.
    pub fn turn(&mut self)
        requires { IsTurnable self.old }
        ensures { Turns self.old self.new }
    {
        self.listed = false;
        turn(self.labels.as_mut_slice(), self.parts.as_slice(), false);
        unmark(self.delivered.as_mut_slice());
        self.phase = self.phase.wrapping_add(2);
    }
}
