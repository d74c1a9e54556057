//! A network as compressed sparse rows: the arcs of a node stand side by side, and tables by place
//! have the values of each arc. It never changes once it is made, so all workers read it, and a
//! flow keeps its own table of residuals, by these places.
ghost use Rattle.std.specs.Prelude.{◌≡◌, ℕ, ◌+◌, ◌<◌, ◌≤◌, IfOk, length, slice_index};
ghost use Rattle.frame_net.specs.Passable.{IsPassSet};
ghost use Rattle.frame_net.specs.Capacity.{IsNetOf};
ghost use Rattle.frame_net.specs.FlowNet.{node_count, start, row_len, head, mate, cap_at, point_of, IsFlowNet, IsStartable, HasPoints};

use crate::build::{Rows, fill_rows};
use crate::capacities::Capacities;
use crate::layout::Layout;
use crate::pass_set::PassSet;
use aig_graph::{Aig, Keep, NoMemory, Props};
use std::alloc::Global;
use std::marker::Model;
use std::ops::Range;

/// The place of a node: at the output of a latch or a gate (`behind`), or before a gate.
#[derive(Clone, Copy, Debug, PartialEq, Eq)]
pub struct Point {
    pub var: u32,
    pub behind: bool,
}

/// A flow network: for each node the arcs with it as tail, by rising number of the head. Each arc
/// has a mate from its head to its tail. Node 0 is the source and node 1 the sink. Then there is a
/// node after each known latch, in latch order. For each passable gate, in gate order, there is one
/// before and one after it.
pub struct Net {
    starts: Vec<u32>,
    heads: Vec<u32>,
    mates: Vec<u32>,
    caps: Capacities,
    latches: u32,
    variables: Vec<u32>,
}

impl Drop for Net {
    // written out: docs/PROOFS.md, Drops and exits
    fn drop(self) {
        let Net {
            starts: _starts,
            heads: _heads,
            mates: _mates,
            caps: _caps,
            latches: _latches,
            variables: _variables,
        } = self;
    }
}

impl Model for Net {
    ghost use Rattle.frame_net.specs.FlowNet.{FlowNet, IsFlowNet, IsStartable, HasPoints};

    ghost Value = { FlowNet };

    ghost view = { λ a. record { starts = a.starts.items; heads = a.heads.items; mates = a.mates.items; caps = a.caps; latches = a.latches; variables = a.variables.items } };

    ghost invariant = { λ a. IsFlowNet (record { starts = a.starts.items; heads = a.heads.items; mates = a.mates.items; caps = a.caps; latches = a.latches; variables = a.variables.items })
        × IsStartable (record { starts = a.starts.items; heads = a.heads.items; mates = a.mates.items; caps = a.caps; latches = a.latches; variables = a.variables.items })
        × HasPoints (record { starts = a.starts.items; heads = a.heads.items; mates = a.mates.items; caps = a.caps; latches = a.latches; variables = a.variables.items }) };
}

impl Net {
    /// Builds the network of a graph with these properties, passable gates and held latches. Linear
    /// in the graph, its properties and the network.
    pub fn build(
        alloc: Global,
        aig: &Aig,
        props: &Props,
        pass: &PassSet,
        keep: &Keep,
    ) -> Result<Net, NoMemory>
        requires { IsPassSet aig.now keep.now pass.now }
        ensures { IfOk result (λ net. IsNetOf aig.now props.now keep.now net) }
    {
        let layout = Layout::new(alloc, aig, props, pass, keep)?;
        let Rows {
            starts,
            heads,
            mates,
            caps,
        } = fill_rows(alloc, &layout)?;
        let Layout {
            variables,
            latches,
            ..
        } = layout;
        Ok(Net {
            starts,
            heads,
            mates,
            caps,
            latches,
            variables,
        })
    }

    /// Shows a caller, which sees the value of a network alone, that it has rows whose arcs have
    /// mates. The next two calls show more of what holds of every network. Costs nothing.
    pub fn known(&self)
        ensures network { IsFlowNet self.now }
    {
        let _starts = self.starts.as_slice();
    }

    /// Shows a caller that the capacities of an arc and its mate, and those of all arcs of the
    /// source, fit in 32 bits.
    pub fn known_capacities(&self)
        ensures startable { IsStartable self.now }
    {
        let _starts = self.starts.as_slice();
    }

    /// Shows a caller that all nodes but the source and the sink have points.
    pub fn known_points(&self)
        ensures points { HasPoints self.now }
    {
        let _starts = self.starts.as_slice();
    }

    /// Returns the number of nodes, the source and the sink among them.
    pub fn nodes(&self) -> u32
        ensures { result ≡ node_count self.now }
    {
        (self.starts.len() - 1) as u32
    }

    /// Returns the number of arcs, the mates among them.
    pub fn arcs(&self) -> usize
        ensures { result ≡ length self.now.heads }
    {
        self.heads.len()
    }

    /// Returns the place of a node. The source and the sink have none.
    pub fn point(&self, v: u32) -> Option<Point>
        requires { v < node_count self.now }
        ensures { result ≡ point_of self.now v }
    {
        let latches = self.latches;
        if v < 2 {
            return None;
        }
        let place = v - 2;
        if place < latches {
            return Some(Point {
                var: self.variables[place as usize],
                behind: true,
            });
        }
        let side = place - latches;
        Some(Point {
            var: self.variables[(latches + side / 2) as usize],
            behind: side % 2 == 1,
        })
    }

    /// Returns the first arc with tail `v`; the number of arcs if `v` is the number of nodes.
    pub fn start(&self, v: u32) -> usize
        requires { v ≤ node_count self.now }
        ensures { result ≡ start self.now v }
    {
        self.starts[v as usize] as usize
    }

    /// Returns the arcs with tail `v`.
    pub fn row(&self, v: u32) -> Range<u32>
        requires { v < node_count self.now }
        ensures start { result.start ≡ start self.now v }
        ensures end { result.end ≡ start self.now (v + 1) }
    {
        self.starts[v as usize]..self.starts[v as usize + 1]
    }

    /// Returns the heads of the arcs with tail `v`.
    pub fn heads(&self, v: u32) -> &[u32]
        requires { v < node_count self.now }
        ensures len { length result.now ≡ row_len self.now v }
        ensures value { (k : ℕ) → k < row_len self.now v
            → slice_index result.now k ≡ head self.now v k }
    {
        let from = self.starts[v as usize] as usize;
        let to = self.starts[v as usize + 1] as usize;
        &self.heads[from..to]
    }

    /// Returns the mates of the arcs with tail `v`.
    pub fn mates(&self, v: u32) -> &[u32]
        requires { v < node_count self.now }
        ensures len { length result.now ≡ row_len self.now v }
        ensures value { (k : ℕ) → k < row_len self.now v
            → slice_index result.now k ≡ mate self.now v k }
    {
        let from = self.starts[v as usize] as usize;
        let to = self.starts[v as usize + 1] as usize;
        &self.mates[from..to]
    }

    /// Returns the head of an arc.
    pub fn head(&self, arc: u32) -> u32
        requires { arc < length self.now.heads }
        ensures { result ≡ slice_index self.now.heads arc }
    {
        self.heads[arc as usize]
    }

    /// Returns the mate of an arc: the arc from its head to its tail.
    pub fn mate(&self, arc: u32) -> u32
        requires { arc < length self.now.heads }
        ensures { result ≡ slice_index self.now.mates arc }
    {
        self.mates[arc as usize]
    }

    /// Returns the capacity of an arc, which is 0 for the mate of an arc of the circuit.
    pub fn cap(&self, arc: u32) -> u32
        requires { arc < length self.now.heads }
        ensures { result ≡ cap_at self.now arc }
    {
        self.caps.at(arc)
    }

    /// Returns the capacities of all arcs, to share.
    pub fn capacities(&self) -> &Capacities
        ensures { result.now ≡ self.now.caps }
    {
        &self.caps
    }

    /// Returns the capacities of all arcs.
    pub fn caps(&self) -> &[u32]
        ensures { result.now ≡ self.now.caps }
    {
        self.caps.as_slice()
    }
}
