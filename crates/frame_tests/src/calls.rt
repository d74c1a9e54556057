//! The calls at some places, each of which is to be passed and left in turn.
use std::alloc::{AllocError, Global};
use std::sync::atomic::{AtomicU64, Ordering};

/// The number of calls that each place had, and of faults: calls at a place that doesn't exist, or
/// out of turn.
#[derive(Drop)]
pub(crate) struct Calls {
    had: Vec<AtomicU64>,
    faults: AtomicU64,
}

impl Calls {
    /// Returns `places` places, each of which has had `calls` calls.
    pub(crate) fn of(alloc: Global, places: u64, calls: u64) -> Result<Calls, AllocError> {
        let mut had = Vec::new(alloc);
        for _ in 0..places {
            had.push(AtomicU64::new(calls))?;
        }
        Ok(Calls {
            had,
            faults: AtomicU64::new(0),
        })
    }

    /// Notes a call at a place, which is to come after `before` calls there.
    pub(crate) fn note(&self, place: u64, before: u64) {
        let follows = match self.had.as_slice().get(place as usize) {
            Some(calls) => calls.fetch_add(1, Ordering::SeqCst) == before,
            None => false,
        };
        if !follows {
            self.note_fault();
        }
    }

    pub(crate) fn note_fault(&self) {
        self.faults.fetch_add(1, Ordering::SeqCst);
    }

    /// Returns the number of calls that a place has had.
    pub(crate) fn at(&self, place: u64) -> u64 {
        match self.had.as_slice().get(place as usize) {
            Some(calls) => calls.load(Ordering::SeqCst),
            None => 0,
        }
    }

    /// Returns the number of places that have had another number of calls.
    pub(crate) fn others_than(&self, calls: u64) -> u64 {
        let mut others: u64 = 0;
        for place in 0..self.had.len() as u64 {
            if self.at(place) != calls {
                others = others.saturating_add(1);
            }
        }
        others
    }

    pub(crate) fn are_without_faults(&self) -> bool {
        self.faults.load(Ordering::SeqCst) == 0
    }
}
