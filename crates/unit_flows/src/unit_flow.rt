//! The values that one look at a frame leaves to the next: the flow at the gates, and tables to be
//! used again. A large frame's tables go back to the system as they are dropped; asked for anew,
//! they would be cleared by it, page by page.
ghost use Rattle.std.specs.Prelude.{◌≡◌, ◌≤◌, IfOk, OnOk, replicate, vec_capacity, vec_len};

use crate::gate_flow::GateFlow;
use crate::sweeps::NodeMarks;
use aig_graph::NoMemory;
use std::alloc::Global;
use std::mem;

/// Tables whose values don't matter.
#[derive(Drop)]
pub struct SpareTables {
    pub(crate) before: Vec<bool>,
    pub(crate) after: Vec<bool>,
    pub(crate) went: Vec<u8>,
    pub(crate) numbers: Vec<u32>,
}

/// A flow of units at the gates of a circuit, or nothing, and tables for the next look at a frame.
#[derive(Drop)]
pub struct UnitFlow {
    /// The flow at each gate: hints.
    pub gates: Vec<GateFlow>,
    /// The tables that are used again.
    pub spare: SpareTables,
}

impl UnitFlow {
    /// Returns no flow and no tables.
    pub fn none(alloc: Global) -> UnitFlow {
        UnitFlow {
            gates: Vec::new(alloc),
            spare: SpareTables::none(alloc),
        }
    }
}

impl SpareTables {
    /// Returns no tables.
    pub fn none(alloc: Global) -> SpareTables {
        SpareTables {
            before: Vec::new(alloc),
            after: Vec::new(alloc),
            went: Vec::new(alloc),
            numbers: Vec::new(alloc),
        }
    }

    /// Puts `entries` zeros each in the tables of units that go on from after variables, and of
    /// those that come to before them.
    pub(crate) fn clear_tallies(&mut self, entries: usize) -> Result<(), NoMemory>
        ensures went { OnOk result (self.new.went.items ≡ replicate entries 0) }
        ensures came { OnOk result (self.new.numbers.items ≡ replicate entries 0) }
    {
        fill(&mut self.went, 0u8, entries)?;
        fill(&mut self.numbers, 0u32, entries)
    }

    /// Empties the table of numbers, which then has room for `room` of them.
    pub(crate) fn clear_numbers(&mut self, room: usize) -> Result<(), NoMemory>
        ensures none { vec_len self.new.numbers ≡ 0 }
        ensures room { OnOk result (room ≤ vec_capacity self.new.numbers) }
    {
        self.numbers.clear();
        match self.numbers.reserve(room) {
            Ok(()) => Ok(()),
            Err(_) => Err(NoMemory),
        }
    }

    /// Takes out a table for numbers of gates, or of units.
    pub fn take_numbers(&mut self, alloc: Global) -> Vec<u32> {
        taken(&mut self.numbers, alloc)
    }

    /// Keeps the tables of marks.
    pub fn keep_marks(&mut self, marks: NodeMarks) {
        let NodeMarks { before, after } = marks;
        self.before = before;
        self.after = after;
    }

    /// Keeps a table of numbers.
    pub fn keep_numbers(&mut self, numbers: Vec<u32>) {
        self.numbers = numbers;
    }
}

/// Takes a table out, and leaves an empty one.
pub(crate) fn taken<T>(table: &mut Vec<T>, alloc: Global) -> Vec<T> {
    mem::replace(table, Vec::new(alloc))
}

/// Fills a table anew, with `entries` copies of `entry`.
fn fill<T: Copy + Drop>(table: &mut Vec<T>, entry: T, entries: usize) -> Result<(), NoMemory>
    ensures { OnOk result (table.new.items ≡ replicate entries entry) }
{
    table.clear();
    match table.resize(entries, entry) {
        Ok(()) => Ok(()),
        Err(_) => Err(NoMemory),
    }
}

/// Returns a table of `entries` copies of `entry`, in the memory of another table.
///
/// # Errors
///
/// `NoMemory` if it has too little, and more is refused.
pub fn filled<T: Copy + Drop>(memory: Vec<T>, entry: T, entries: usize) -> Result<Vec<T>, NoMemory>
    ensures { IfOk result (λ t. t.items ≡ replicate entries entry) }
{
    let mut table = memory;
    fill(&mut table, entry, entries)?;
    Ok(table)
}
