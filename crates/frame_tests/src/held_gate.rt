//! A gate that holds one of two workers as a phase begins for it, until the other has left that
//! phase.
use crate::calls::Calls;
use pulse::PhaseGate;
use std::alloc::{AllocError, Global};

/// How often a held worker looks for the other at most.
const TURNS: u64 = 1 << 28;

/// In the first phases the worker `held` waits until the other has left. Each of both is to pass
/// and leave each of these phases once.
#[derive(Drop)]
pub(crate) struct HeldGate {
    held: u32,
    phases: u64,
    /// The calls of both workers in the first phase, then in the second.
    calls: Calls,
}

/// Returns the place of a worker's calls in a phase.
fn place_of(phase: u64, worker: u32) -> u64 {
    phase.saturating_mul(2).saturating_add(worker as u64)
}

impl HeldGate {
    /// Returns the gate of two workers that looks at the first `phases` phases.
    pub(crate) fn of(alloc: Global, held: u32, phases: u64) -> Result<HeldGate, AllocError> {
        let calls = Calls::of(alloc, phases.saturating_mul(2), 0)?;
        Ok(HeldGate {
            held,
            phases,
            calls,
        })
    }

    /// Waits until the other worker has left the phase, `TURNS` turns at most.
    fn hold(&self, phase: u64) {
        let other = place_of(phase, 1u32.saturating_sub(self.held));
        for _ in 0..TURNS {
            if self.calls.at(other) == 2 {
                return;
            }
        }
        self.calls.note_fault();
    }

    /// Returns whether both workers passed and left each of the phases, and no hold ran out of its
    /// turns.
    pub(crate) fn saw_both(&self) -> bool {
        (self.calls.others_than(2) == 0) & self.calls.are_without_faults()
    }
}

impl PhaseGate for HeldGate {
    fn pass(&self, phase: u64, worker: u32) {
        if phase < self.phases {
            if worker == self.held {
                self.hold(phase);
            }
            self.calls.note(place_of(phase, worker), 0);
        }
    }

    fn leave(&self, phase: u64, worker: u32) {
        if phase < self.phases {
            self.calls.note(place_of(phase, worker), 1);
        }
    }
}
