//! Held latches, by rising positions, so that one is found by a binary search. If none is held, as
//! in most runs, there is no list, and no memory is asked for.
ghost use Rattle.std.specs.Prelude.{◌≡◌, ◌↔◌, [], IsTrue, Contains};
ghost use Rattle.std.specs.List.Sorted.{IsStrictlyIncreasing};
ghost use Rattle.aig_graph.specs.Marking.{has};
ghost use Rattle.aig_graph.specs.Closed.{is_held, may_move};

use crate::graph::Aig;
use crate::rising::contains;
use std::marker::Model;

/// The latches that are held, which no move takes away. Contracts see their positions, from 0 and
/// strictly rising, among the latches. A position past the last latch holds nothing.
pub struct Keep {
    positions: Option<Vec<u32>>,
}

impl Drop for Keep {
    // written out: docs/PROOFS.md, Drops and exits
    fn drop(self) {
        let Keep {
            positions: _positions,
        } = self;
    }
}

impl Model for Keep {
    ghost use Rattle.std.specs.Prelude.{List, ℕ, [], None, Some};
    ghost use Rattle.std.specs.List.Sorted.{IsStrictlyIncreasing};

    ghost Value = { List ℕ };

    ghost view = { λ k. elim k.positions [ None ↦ [] | Some positions ↦ positions.items ] };

    ghost invariant = { λ k. IsStrictlyIncreasing (elim k.positions [ None ↦ [] | Some positions ↦ positions.items ]) };
}

impl Keep {
    /// Holds the latches at these positions.
    pub fn new(positions: Vec<u32>) -> Keep
        requires { IsStrictlyIncreasing positions.items }
        ensures { result ≡ positions.items }
    {
        Keep {
            positions: Some(positions),
        }
    }

    /// Holds no latch.
    pub fn none() -> Keep
        ensures { result ≡ [] }
    {
        Keep { positions: None }
    }

    /// Returns the positions of the held latches, rising.
    pub fn positions(&self) -> &[u32]
        ensures value { result.now ≡ self.now }
        ensures rising { IsStrictlyIncreasing result.now }
    {
        match &self.positions {
            Some(positions) => positions.as_slice(),
            None => &[],
        }
    }

    /// Returns true if the position is that of a held latch, by a binary search.
    pub fn has(&self, position: u32) -> bool
        ensures value { result ≡ has self.now position }
        ensures contains { IsTrue result ↔ Contains self.now position }
    {
        contains(self.positions(), position)
    }

    /// Returns true if the variable is that of a held latch of the graph.
    pub fn is_held(&self, aig: &Aig, var: u32) -> bool
        ensures { result ≡ is_held aig.now self.now var }
    {
        match aig.latch(var) {
            Some(_) => self.has(var - aig.first_latch()),
            None => false,
        }
    }

    /// Returns true if the variable is a latch with a known reset that isn't held.
    pub fn may_move(&self, aig: &Aig, var: u32) -> bool
        ensures { result ≡ may_move aig.now self.now var }
    {
        !self.is_held(aig, var) && aig.is_known_latch(var)
    }
}
