//! The places at which a start left units.

use aig_graph::NoMemory;
use std::alloc::Global;
use unit_flows::NodeMarks;

/// A node at which a unit is left: before or after a place, from the first latch on.
#[derive(Clone, Copy)]
struct LeftUnit {
    place: usize,
    before: bool,
}

/// The nodes at which units are left.
#[derive(Drop)]
pub(crate) struct LeftUnits {
    nodes: Vec<LeftUnit>,
    /// True if memory was refused for a node, so that some are missing.
    refused: bool,
}

/// Returns true if `place` is marked.
fn has_mark(marks: &[bool], place: usize) -> bool {
    place < marks.len() && marks[place]
}

impl LeftUnits {
    /// Returns the list with no node.
    pub fn none(alloc: Global) -> LeftUnits {
        LeftUnits {
            nodes: Vec::new(alloc),
            refused: false,
        }
    }

    /// Returns true if no unit is left.
    pub fn is_empty(&self) -> bool {
        self.nodes.is_empty()
    }

    /// Adds a unit that is left before `place` if `before`, else after it.
    pub fn push(&mut self, place: usize, before: bool) {
        if self.nodes.push(LeftUnit { place, before }).is_err() {
            self.refused = true;
        }
    }

    /// Returns these nodes, unless memory was refused for one.
    ///
    /// # Errors
    ///
    /// `NoMemory` if it was.
    pub fn complete(self) -> Result<LeftUnits, NoMemory> {
        if self.refused {
            drop(self);
            return Err(NoMemory);
        }
        Ok(self)
    }

    /// Returns true if a unit is left at a marked node.
    pub fn are_marked(&self, marks: &NodeMarks) -> bool {
        let (before, after) = (marks.before.as_slice(), marks.after.as_slice());
        let nodes = self.nodes.as_slice();
        for k in 0..nodes.len() {
            let node = nodes[k];
            if has_mark(if node.before { before } else { after }, node.place) {
                return true;
            }
        }
        false
    }
}
