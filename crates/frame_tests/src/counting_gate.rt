//! A gate at which each worker is to pass and leave one phase after another.
use crate::calls::Calls;
use pulse::PhaseGate;
use std::alloc::{AllocError, Global};

/// The calls of each worker.
#[derive(Drop)]
pub(crate) struct CountingGate {
    calls: Calls,
}

impl CountingGate {
    /// Returns the gate of `workers` workers, which are to pass phase `phase` first.
    pub(crate) fn from(
        alloc: Global,
        workers: u32,
        phase: u64,
    ) -> Result<CountingGate, AllocError> {
        let calls = Calls::of(alloc, workers as u64, phase.saturating_mul(2))?;
        Ok(CountingGate { calls })
    }

    /// Returns true if each worker passed and left the phases up to this number, in turn, and no
    /// other.
    pub(crate) fn saw_all(&self, phases: u64) -> bool {
        let all = self.calls.others_than(phases.saturating_mul(2)) == 0;
        all & self.calls.are_without_faults()
    }

    /// Returns true if a worker passed and left the phases up to this number, in turn, and maybe
    /// more.
    pub(crate) fn saw(&self, phases: u64, worker: u64) -> bool {
        (self.calls.at(worker) >= phases.saturating_mul(2)) & self.calls.are_without_faults()
    }
}

impl PhaseGate for CountingGate {
    fn pass(&self, phase: u64, worker: u32) {
        self.calls.note(worker as u64, phase.saturating_mul(2));
    }

    fn leave(&self, phase: u64, worker: u32) {
        let passed = phase.saturating_mul(2).saturating_add(1);
        self.calls.note(worker as u64, passed);
    }
}
