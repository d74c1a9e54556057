//! Nodes of a network that isn't made: one before each gate, and one after each latch and gate.
//! Both are named by a place, the variable less that of the first latch.

use aig_graph::Memory;
use std::mem;

/// Some nodes, by their places.
#[derive(Drop)]
pub(crate) struct Nodes {
    pub before: Vec<u32>,
    pub after: Vec<u32>,
    /// True if memory was refused for a node, so that some are missing.
    pub refused: bool,
}

impl Nodes {
    pub fn none(memory: &Memory) -> Nodes {
        Nodes {
            before: memory.nothing(),
            after: memory.nothing(),
            refused: false,
        }
    }

    pub fn count(&self) -> usize {
        self.before.len().saturating_add(self.after.len())
    }

    pub fn is_empty(&self) -> bool {
        self.before.is_empty() & self.after.is_empty()
    }

    pub fn clear(&mut self) {
        self.before.clear();
        self.after.clear();
    }

    /// Appends the node before a place.
    pub fn push_before(&mut self, place: u32) {
        let refused = self.before.push(place).is_err();
        self.refused = self.refused | refused;
    }

    /// Appends the node after a place.
    pub fn push_after(&mut self, place: u32) {
        let refused = self.after.push(place).is_err();
        self.refused = self.refused | refused;
    }

    /// Appends copies of other nodes.
    fn append(&mut self, nodes: &Nodes) {
        let before = self.before.extend_from_slice(nodes.before.as_slice());
        let after = self.after.extend_from_slice(nodes.after.as_slice());
        self.refused = before.is_err() | after.is_err();
    }

    /// Appends other nodes, or changes place with them if there are none yet.
    pub fn join(&mut self, nodes: &mut Nodes) {
        let refused = self.refused | nodes.refused;
        if self.is_empty() {
            mem::swap(self, nodes);
        } else {
            self.append(nodes);
        }
        self.refused = self.refused | refused;
    }
}
