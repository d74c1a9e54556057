//! A gate that counts what the workers of a pool pass and leave, and holds one of them until the
//! others have left. A wrong number, a call too many and a hold that never began tell as much as
//! one in vain. A pool that gives its gate other numbers would never be held.
use crate::calls::Calls;
use pulse::PhaseGate;
use std::alloc::{AllocError, Global};
use std::sync::atomic::{AtomicU64, Ordering};

/// How often what is held looks for the others at most.
const TURNS: u64 = 1 << 28;

/// What is held as its phase begins: the worker of this number in phase 0, or the job of this
/// number.
#[derive(Clone, Copy, Drop)]
pub(crate) enum Held {
    Worker(u64),
    Job(u64),
}

/// The gate of a pool.
#[derive(Drop)]
pub(crate) struct PoolGate {
    held: Held,
    workers: Calls,
    jobs: Calls,
    /// How often a hold began.
    holds: AtomicU64,
}

impl PoolGate {
    pub(crate) fn of(
        alloc: Global,
        workers: u64,
        jobs: u64,
        held: Held,
    ) -> Result<PoolGate, AllocError> {
        let workers = Calls::of(alloc, workers, 0)?;
        let jobs = Calls::of(alloc, jobs, 0)?;
        Ok(PoolGate {
            held,
            workers,
            jobs,
            holds: AtomicU64::new(0),
        })
    }

    /// Waits until all others have left, for `TURNS` turns at most.
    fn hold(&self, others: &Calls) {
        self.holds.fetch_add(1, Ordering::SeqCst);
        for _ in 0..TURNS {
            if others.others_than(2) <= 1 {
                return;
            }
        }
        others.note_fault();
    }

    /// Holds what is to be held.
    fn meet(&self, phase: u64, worker: u32) {
        match self.held {
            Held::Worker(number) => {
                if (phase == 0) & (worker as u64 == number) {
                    self.hold(&self.workers);
                }
            }
            Held::Job(number) => {
                if phase == number.saturating_add(1) {
                    self.hold(&self.jobs);
                }
            }
        }
    }

    /// Notes a worker's call in a phase, which is to come after `before` calls in it. Those of a
    /// job come while the worker is in phase 0.
    fn note(&self, phase: u64, worker: u32, before: u64) {
        if phase == 0 {
            self.workers.note(worker as u64, before);
            return;
        }
        if self.workers.at(worker as u64) != 1 {
            self.workers.note_fault();
        }
        self.jobs.note(phase.saturating_sub(1), before);
    }

    /// Returns true if each worker and each job passed once and left once, and no other did. What
    /// was to be held was held once, not in vain.
    pub(crate) fn saw_all(&self) -> bool {
        let all = (self.workers.others_than(2) == 0) & (self.jobs.others_than(2) == 0);
        let in_turn = self.workers.are_without_faults() & self.jobs.are_without_faults();
        all & in_turn & (self.holds.load(Ordering::SeqCst) == 1)
    }
}

impl PhaseGate for PoolGate {
    fn pass(&self, phase: u64, worker: u32) {
        self.meet(phase, worker);
        self.note(phase, worker, 0);
    }

    fn leave(&self, phase: u64, worker: u32) {
        self.note(phase, worker, 1);
    }
}
