//! A gate at which two workers meet. In the first two phases each of them waits as the phase begins
//! for it, until the other has passed too. Both are to leave the phase as well.
use pulse::PhaseGate;
use std::sync::atomic::{AtomicU64, Ordering};

/// How often a worker looks for the other at most.
const TURNS: u64 = 1 << 28;

/// How many workers came to a point of the read phase, and of the delivery phase.
#[derive(Drop)]
struct Arrivals {
    in_read: AtomicU64,
    in_delivery: AtomicU64,
}

impl Arrivals {
    fn none() -> Arrivals {
        Arrivals {
            in_read: AtomicU64::new(0),
            in_delivery: AtomicU64::new(0),
        }
    }

    /// Returns the number of workers that came there in a phase, one of the first two.
    fn in_phase(&self, phase: u64) -> &AtomicU64 {
        if phase == 0 {
            &self.in_read
        } else {
            &self.in_delivery
        }
    }

    fn count(&self, phase: u64) {
        self.in_phase(phase).fetch_add(1, Ordering::SeqCst);
    }

    /// Returns true if two workers came there.
    fn are_two(&self, phase: u64) -> bool {
        self.in_phase(phase).load(Ordering::SeqCst) >= 2
    }
}

/// How many workers passed and left, and how often one waited in vain.
#[derive(Drop)]
pub(crate) struct MeetingGate {
    passed: Arrivals,
    left: Arrivals,
    in_vain: AtomicU64,
}

impl MeetingGate {
    pub fn new() -> MeetingGate {
        MeetingGate {
            passed: Arrivals::none(),
            left: Arrivals::none(),
            in_vain: AtomicU64::new(0),
        }
    }

    /// Waits until both workers have passed the phase, `TURNS` turns at most.
    fn wait(&self, phase: u64) {
        for _ in 0..TURNS {
            if self.passed.are_two(phase) {
                return;
            }
        }
        self.in_vain.fetch_add(1, Ordering::SeqCst);
    }

    /// Returns true if both workers passed and left a phase, one of the first two, and none waited
    /// in vain in either.
    pub fn saw_both(&self, phase: u64) -> bool {
        self.passed.are_two(phase)
            & self.left.are_two(phase)
            & (self.in_vain.load(Ordering::SeqCst) == 0)
    }
}

impl PhaseGate for MeetingGate {
    fn pass(&self, phase: u64, _worker: u32) {
        if phase < 2 {
            self.passed.count(phase);
            self.wait(phase);
        }
    }

    fn leave(&self, phase: u64, _worker: u32) {
        if phase < 2 {
            self.left.count(phase);
        }
    }
}
