//! The pushes of a pulse.
//!
//!     new, or of an earlier pulse ──read_phase, or read_range of all nodes──► of the flow's pulse
//!     any ──read_phase, refused──► spent, and stays so
ghost use Rattle.std.specs.Prelude.{◌≡◌, ◌<◌, IfOk, false, length, slice_index};
ghost use Rattle.frame_net.specs.FlowNet.{node_count};
ghost use Rattle.pulse_parts.specs.Listing.{AreWithin};
ghost use Rattle.pulse_parts.specs.Parts.{ArePushParts};
ghost use Rattle.pulse.specs.Conditions.{ArePushesOf};
ghost use Rattle.pulse.specs.Values.{ArePushRangesOf};

use aig_graph::NoMemory;
use frame_net::Net;
use pulse_parts::{PushPart, push_over, push_parts, walked_over};
use std::alloc::Global;
use std::marker::Model;

/// The pushes of each node over its arcs in a pulse, in parts, one for each worker of the last read
/// phase.
///
/// A read phase that is refused memory leaves the pushes spent: their parts are gone, and each
/// later phase is refused.
#[derive(Drop)]
pub struct Pushes {
    pub(crate) parts: Vec<PushPart>,
    pub(crate) spent: bool,
}

impl Model for Pushes {
    ghost use Rattle.std.specs.Prelude.{◌≡◌, false};
    ghost use Rattle.pulse_parts.specs.Start.{PushesNumbered};
    ghost use Rattle.pulse.specs.Values.{PushState, push_state};

    ghost Value = { PushState };

    ghost view = { λ p. push_state p.parts.items p.spent };

    ghost invariant = { λ p. p.spent ≡ false → PushesNumbered p.parts.items };
}

impl Pushes {
    /// Returns room for the pushes over all arcs of a network.
    pub fn new(alloc: Global, net: &Net) -> Result<Pushes, NoMemory>
        ensures fits { IfOk result (λ p. ArePushesOf net.now p) }
        ensures unspent { IfOk result (λ p. p.spent ≡ false) }
    {
        Pushes::new_for(alloc, net, 1)
    }

    /// Returns room for the pushes, in parts for `workers` workers.
    pub(crate) fn new_for(alloc: Global, net: &Net, workers: u32) -> Result<Pushes, NoMemory>
        requires { 0 < workers }
        ensures fits { IfOk result (λ p. ArePushesOf net.now p) }
        ensures unspent { IfOk result (λ p. p.spent ≡ false) }
        ensures shares { IfOk result (λ p. ArePushRangesOf (node_count net.now) workers p.ranges) }
    {
        net.known();
        let parts = push_parts(alloc, net, workers)?;
        Ok(Pushes {
            parts,
            spent: false,
        })
    }

    /// Returns the push over an arc.
    pub fn push(&self, arc: u32) -> u32
        requires { arc < length self.now.values }
        ensures { result ≡ slice_index self.now.values arc }
    {
        push_over(self.parts.as_slice(), arc as usize)
    }

    /// Returns the number of rows that were walked for pushes since the last read phase began;
    /// `u32::MAX` stands for all greater numbers. After a read phase it is the number of nodes that
    /// were active at its start.
    pub fn walked(&self) -> u32
        ensures { result ≡ self.now.walked }
    {
        walked_over(self.parts.as_slice())
    }

    /// Returns the number of arcs in the rows of the nodes that pushed in the last read phase.
    /// Counts all arcs if a part doesn't list its nodes.
    pub(crate) fn arcs_walked(&self, net: &Net) -> usize
        requires fits { ArePushesOf net.now self.now }
        requires usable { self.now.spent ≡ false }
    {
        arcs_over(net, self.parts.as_slice())
    }

    /// Returns true if a read phase was refused.
    pub fn is_spent(&self) -> bool
        ensures { result ≡ self.now.spent }
    {
        self.spent
    }
}

/// Returns the number of arcs in the rows of the nodes that the parts list; all arcs if a list
/// isn't complete.
fn arcs_over(net: &Net, parts: &[PushPart]) -> usize
    requires { ArePushParts net.now 0 parts.now }
{
    net.known();
    let mut arcs: usize = 0;
    for i in 0..parts.len() {
        let part = &parts[i];
        if !part.pushing.complete {
            return net.arcs();
        }
        arcs = arcs.saturating_add(arcs_of(net, part.pushing.nodes.as_slice()));
    }
    arcs
}

/// Returns the number of arcs in the rows of the listed nodes.
fn arcs_of(net: &Net, list: &[u32]) -> usize
    requires { AreWithin 0 (node_count net.now) list.now }
{
    net.known();
    let mut arcs: usize = 0;
    for i in 0..list.len() {
        let v = list[i];
        arcs = arcs.saturating_add(net.start(v + 1) - net.start(v));
    }
    arcs
}
