//! Lists of the few nodes that have something to do in a pulse, so that the pulse visits no others.
ghost use Rattle.std.specs.Prelude.{◌≡◌, ℕ, ◌++◌, ◌∷◌, [], IfOk, false, true};

use std::alloc::{AllocError, Global};

/// A list of nodes, with room that was made beforehand. A list that isn't complete may lack a node:
/// then every node is visited, and the list is made anew.
#[derive(Drop)]
pub struct NodeList {
    pub nodes: Vec<u32>,
    pub complete: bool,
}

impl NodeList {
    ghost use Rattle.pulse_parts.specs.Listing.{AreWithin, IsListed, IsRising};

    /// Returns a list with room for `count` nodes, which isn't complete yet.
    pub fn with_room(alloc: Global, count: usize) -> Result<NodeList, AllocError>
        ensures empty { IfOk result (λ list. list.nodes.items ≡ []) }
        ensures begun { IfOk result (λ list. list.complete ≡ false) }
    {
        Ok(NodeList {
            nodes: Vec::with_capacity(alloc, count)?,
            complete: false,
        })
    }

    /// Begins the list anew: it has no node yet, and lacks none.
    pub fn begin(&mut self)
        ensures empty { self.new.nodes.items ≡ [] }
        ensures complete { self.new.complete ≡ true }
    {
        self.nodes.clear();
        self.complete = true;
    }

    /// Adds a node. If no room is left, the list isn't complete any more.
    pub fn add(&mut self, v: u32)
        ensures added { self.new.complete ≡ true
            → (self.old.complete ≡ true)
            × (self.new.nodes.items ≡ self.old.nodes.items ++ (v ∷ [])) }
    {
        if self.nodes.len() < self.nodes.capacity() {
            self.complete = self.complete && self.nodes.push(v).is_ok();
        } else {
            self.complete = false;
        }
    }

    /// Returns true if node `v` is at `place` in the list.
    pub(crate) fn has_at(&self, place: usize, v: u32) -> bool
        ensures { result ≡ true → IsListed self.now.nodes.items v }
    {
        let nodes = self.nodes.as_slice();
        place < nodes.len() && nodes[place] == v
    }

    /// Sorts the nodes, and keeps each once.
    pub fn rise(&mut self)
        ensures complete { self.new.complete ≡ self.old.complete }
        ensures rising { IsRising self.new.nodes.items }
        ensures kept { (v : ℕ) → IsListed self.old.nodes.items v → IsListed self.new.nodes.items v }
        ensures within { (first end : ℕ) → AreWithin first end self.old.nodes.items
            → AreWithin first end self.new.nodes.items }
    {
        self.nodes.sort_unstable();
        self.nodes.dedup();
    }

    /// Notes that the list may lack nodes.
    pub fn forget(&mut self)
        ensures { self.new.complete ≡ false }
    {
        self.complete = false;
    }
}
