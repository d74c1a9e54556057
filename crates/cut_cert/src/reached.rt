//! The nodes that a walk over a network's arcs has reached. Nothing leaves the queue: the walk
//! moves a place in it from its front to its end.
ghost use Rattle.std.specs.Prelude.{◌≡◌, ◌<◌, IfOk, OnOk, [], false, length, replicate, slice_get};
ghost use Rattle.cut_cert.specs.Fronts.{is_marked, mark_node, reach_node};

use aig_graph::NoMemory;
use std::alloc::Global;
use std::marker::Model;

/// A mark for each node, and marked nodes in the order in which they were reached.
///
/// A node enters the queue at most once, so a walk that looks once at the arcs of each queued node
/// is linear.
#[derive(Drop)]
pub(crate) struct Reached {
    marks: Vec<bool>,
    queue: Vec<u32>,
}

impl Model for Reached {
    ghost use Rattle.cut_cert.specs.Fronts.{SearchFront};

    ghost Value = { SearchFront };

    ghost view = { λ r. record { marks = r.marks.items; queue = r.queue.items } };
}

impl Reached {
    /// Returns a walk over `nodes` nodes that has reached none.
    pub(crate) fn none(alloc: Global, nodes: u32) -> Result<Reached, NoMemory>
        ensures { IfOk result (λ r. r ≡ record { marks = replicate nodes false; queue = [] }) }
    {
        let marks = vec![in alloc; false; nodes as usize]?;
        let queue = Vec::new(alloc);
        Ok(Reached { marks, queue })
    }

    /// Marks and queues a node that isn't marked.
    pub(crate) fn reach(&mut self, node: u32) -> Result<(), NoMemory>
        requires { node < length self.old.marks }
        ensures { OnOk result (self.new ≡ reach_node self.old node) }
    {
        if !self.marks[node as usize] {
            self.queue.push(node)?;
            self.marks[node as usize] = true;
        }
        Ok(())
    }

    /// Marks a node and doesn't queue it.
    pub(crate) fn mark(&mut self, node: u32)
        requires { node < length self.old.marks }
        ensures { self.new ≡ mark_node self.old node }
    {
        self.marks[node as usize] = true;
    }

    /// Returns the node at a place of the queue.
    pub(crate) fn queued(&self, place: usize) -> Option<u32>
        ensures { result ≡ slice_get self.now.queue place }
    {
        self.queue.get(place).copied()
    }

    /// Returns true if a node is reached.
    pub(crate) fn has(&self, node: u32) -> bool
        requires { node < length self.now.marks }
        ensures { result ≡ is_marked self.now node }
    {
        self.marks[node as usize]
    }

    /// Returns the marks of all nodes.
    pub(crate) fn into_marks(self) -> Vec<bool>
        ensures { result.items ≡ self.marks }
    {
        let Reached {
            marks,
            queue: _queue,
        } = self;
        marks
    }
}
