//! The readers of each gate, as linked lists in two tables: from the last reader of a gate back to
//! the first. A link is one more than a place in the file, and 0 ends the list, so both tables
//! begin as zeros. There is one pair of tables for each of the two fan-ins.
ghost use Rattle.std.specs.Prelude.{◌≡◌, ◌<◌, ◌≤◌, ◌^◌, length, IfOk};
ghost use Rattle.ascii_file.specs.order.Order.{AreReadsInFile};
ghost use Rattle.ascii_file.specs.order.Readers.{AreReaderTables, read_by};

use crate::order::reads::{Reads, Side};
use aig_graph::NoMemory;
use std::alloc::Global;

/// The gates that read a gate by one of their fan-ins, from the last one back. The tables hold a
/// place plus one, and 0 for none.
pub(crate) struct Readers {
    /// For each gate the last one that reads it.
    pub(crate) last: Vec<u32>,
    /// For each gate the one before it that reads its fan-in too.
    pub(crate) before: Vec<u32>,
}

impl Drop for Readers {
    // written out: docs/PROOFS.md, Drops and exits
    fn drop(self) {
        let Readers {
            last: _last,
            before: _before,
        } = self;
    }
}

/// Puts each gate at the front of the list of the gate that it reads.
fn link(gates: &[Reads], side: Side, last: &mut [u32], before: &mut [u32])
    requires few { length gates.now < 2 ^ 32 }
    requires in_file { AreReadsInFile gates.now }
    requires none { AreReaderTables (read_by side gates.now) (length gates.now) 0 last.old before.old }
    ensures { AreReaderTables (read_by side gates.now) (length gates.now)
        (length gates.now) last.new before.new }
{
    for (place, reads) in gates.iter().enumerate() {
        if let Some(read) = reads.by(side) {
            before[place] = last[read as usize];
            last[read as usize] = place as u32 + 1;
        }
    }
}

impl Readers {
    /// Returns the readers by this fan-in.
    pub(crate) fn new(alloc: Global, gates: &[Reads], side: Side) -> Result<Readers, NoMemory>
        requires few { length gates.now < 2 ^ 32 }
        requires in_file { AreReadsInFile gates.now }
        ensures { IfOk result (λ readers. AreReaderTables (read_by side gates.now) (length gates.now)
            (length gates.now) readers.last.items readers.before.items) }
    {
        let mut last = vec![in alloc; 0u32; gates.len()]?;
        let mut before = vec![in alloc; 0u32; gates.len()]?;
        link(gates, side, last.as_mut_slice(), before.as_mut_slice());
        Ok(Readers { last, before })
    }
}
