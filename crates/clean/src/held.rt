ghost use Rattle.std.specs.Prelude.{◌≡◌, ◌<◌, IfOk, length};
ghost use Rattle.aig_graph.specs.Marking.{has};
ghost use Rattle.aig_graph.specs.Tables.{table};

use aig_graph::{NoMemory, marks_of};
use std::alloc::Global;

/// The positions of held latches, with a mark for each latch that is held.
#[derive(Drop)]
pub struct Held<'a> {
    pub positions: &'a [u32],
    pub marks: Vec<bool>,
    ghost marked: { marks.items ≡ table 0 (length marks.items) (has positions.now) },
}

impl<'a> Held<'a> {
    /// Marks the held latches at these positions, in a table of `latches` latches.
    pub fn new(alloc: Global, positions: &'a [u32], latches: usize) -> Result<Held<'a>, NoMemory>
        ensures positions { IfOk result (λ held. held.positions.now ≡ positions.now) }
        ensures long { IfOk result (λ held. length held.marks.items ≡ latches) }
    {
        let marks = marks_of(alloc, 0, latches, positions)?;
        Ok(Held { positions, marks })
    }

    /// Returns true if the latch at a position is held.
    pub fn has(&self, position: usize) -> bool
        requires { position < length self.now.marks.items }
        ensures { result ≡ has self.now.positions.now position }
    {
        self.marks[position]
    }
}
