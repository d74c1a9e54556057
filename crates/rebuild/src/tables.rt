//! Tables that a move leaves to the next. If each move asked for its own, the system would clear
//! those of a large circuit again, page by page.

use aig_graph::Lit;
use std::alloc::Global;
use std::mem;

/// Tables whose values don't matter.
#[derive(Drop)]
pub struct MoveTables {
    /// One of numbers.
    pub numbers: Vec<u32>,
    /// One of literals.
    pub literals: Vec<Lit>,
}

impl MoveTables {
    /// Returns empty tables. Takes no memory.
    pub fn none(alloc: Global) -> MoveTables {
        MoveTables {
            numbers: Vec::new(alloc),
            literals: Vec::new(alloc),
        }
    }

    /// Takes the tables out, and leaves empty ones.
    pub fn take(&mut self, alloc: Global) -> MoveTables {
        mem::replace(self, MoveTables::none(alloc))
    }
}
