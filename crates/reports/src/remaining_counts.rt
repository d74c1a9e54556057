//! What a retiming leaves: what the circuit has then, and why no more latches go.
ghost use Rattle.std.specs.Prelude.{◌≡◌, IfOk};
ghost use Rattle.reports.specs.RemainingCounts.{remaining};

use crate::held_back::HeldBack;
use crate::statistics::Counts;
use aig_graph::{Circuit, Keep, NoMemory};
use std::alloc::Global;

/// What a retiming leaves.
#[derive(Clone, Copy)]
pub struct Remaining {
    /// What the circuit has.
    pub counts: Counts,
    /// The reasons why its latches don't move.
    pub held_back: HeldBack,
    /// Whether the frames ended since no set of gates leaves fewer latches, and not by their limit.
    pub is_least: bool,
}

impl Remaining {
    /// Counts what a retiming leaves under this bound on levels, or none, by the circuit that it
    /// made and its held latches. Linear in the circuit.
    ///
    /// # Errors
    ///
    /// Memory is refused.
    pub fn of(
        alloc: Global,
        circuit: &Circuit,
        keep: &Keep,
        bound: Option<u32>,
        is_least: bool,
    ) -> Result<Remaining, NoMemory>
        ensures { IfOk result (λ found. found ≡ remaining circuit.now keep.now bound is_least) }
    {
        let counts = Counts::of(alloc, circuit)?;
        let held_back = HeldBack::within(alloc, circuit, keep, bound)?;
        Ok(Remaining {
            counts,
            held_back,
            is_least,
        })
    }
}
