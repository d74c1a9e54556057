//! Outcomes in the order of their jobs.
ghost use Rattle.std.specs.Prelude.{◌≡◌, ℕ, ◌+◌, ◌<◌, All, IfOk, OnOk, length, None, Some, slice_index_or, slice_set, map};
ghost use Rattle.batch_pool.specs.Rule.{times};
ghost use Rattle.batch_pool.specs.Drawing.{drawers_of, jobs_of};
ghost use Rattle.batch_pool.specs.Sharing.{AreSlots, IsFilled, IsOutcome, IsShare, filled, numbers};

use crate::draws::Draws;
use crate::share::{Numbered, Share};
use aig_graph::NoMemory;
use std::alloc::Global;
use std::mem;

/// Returns `count` empty slots, one for each job.
fn empty_slots<X: Drop>(alloc: Global, count: usize) -> Result<Vec<Option<X>>, NoMemory>
    ensures len { IfOk result (λ v. length v.items ≡ count) }
    ensures none { IfOk result (λ v. (k : ℕ) → slice_index_or v.items k None ≡ None) }
{
    let mut slots = Vec::with_capacity(alloc, count)?;
    for _ in 0..count {
        slots.push_reserved(None);
    }
    Ok(slots)
}

/// Puts an outcome into the slot at a place.
fn put_outcome<X: Drop>(slots: &mut Vec<Option<X>>, place: usize, outcome: X)
    requires { place < length slots.old.items }
    ensures { slots.new.items ≡ slice_set slots.old.items place (Some outcome) }
{
    drop(mem::replace(&mut slots[place], Some(outcome)));
}

/// Puts each outcome into the slot of its job. The outcomes are those of calls of `run`, which the
/// clauses alone name.
fn put_outcomes<X: Drop, F: Fn(u64) -> X>(
    run: &F,
    slots: &mut Vec<Option<X>>,
    outcomes: Vec<Numbered<X>>,
)
    requires slots { AreSlots (F.post run.now) slots.old.items }
    requires outcomes { All (IsOutcome (F.post run.now) (length slots.old.items)) outcomes.items }
    ensures len { length slots.new.items ≡ length slots.old.items }
    ensures slots { AreSlots (F.post run.now) slots.new.items }
    ensures filled { (k : ℕ) → 0 < times k (numbers outcomes.items) + filled slots.old.items k
        → 0 < filled slots.new.items k }
{
    let mut left = outcomes;
    while let Some(next) = left.pop() {
        let Numbered { number, outcome } = next;
        put_outcome(slots, number as usize, outcome);
    }
}

/// Puts all workers' outcomes into their slots, and takes the drawers back: no slot is left empty.
/// `run` is named by the clauses alone.
fn put_shares<X: Drop, F: Fn(u64) -> X>(
    alloc: Global,
    draws: &Draws,
    run: &F,
    slots: &mut Vec<Option<X>>,
    shares: Vec<Result<Share<X>, NoMemory>>,
) -> Result<(), NoMemory>
    requires len { length slots.old.items ≡ jobs_of draws.now }
    requires slots { AreSlots (F.post run.now) slots.old.items }
    requires all { length shares.items ≡ drawers_of draws.now }
    requires each { All (λ s. IfOk s (IsShare (F.post run.now) draws.now)) shares.items }
    ensures len { length slots.new.items ≡ jobs_of draws.now }
    ensures slots { AreSlots (F.post run.now) slots.new.items }
    ensures filled { OnOk result (All IsFilled slots.new.items) }
{
    let mut back = Vec::with_capacity(alloc, shares.len())?;
    let mut left = shares;
    while let Some(next) = left.pop() {
        let Share { drawer, done } = next?;
        put_outcomes(run, slots, done);
        back.push_reserved(drawer);
    }
    draws.gather(back);
    Ok(())
}

/// Returns the outcomes in the order of their slots.
fn unwrapped<X: Drop>(alloc: Global, slots: Vec<Option<X>>) -> Result<Vec<X>, NoMemory>
    requires { All IsFilled slots.items }
    ensures { IfOk result (λ v. map Some v.items ≡ slots.items) }
{
    let mut values = Vec::with_capacity(alloc, slots.len())?;
    let mut left = slots;
    while let Some(slot) = left.pop() {
        let Some(value) = slot else { unreachable!() };
        values.push_reserved(value);
    }
    values.reverse();
    Ok(values)
}

/// Returns all workers' outcomes in the order of the `jobs` jobs, and takes the drawers back. `run`
/// is named by the clauses alone.
pub fn in_order<X: Drop, F: Fn(u64) -> X>(
    alloc: Global,
    draws: &Draws,
    run: &F,
    jobs: usize,
    shares: Vec<Result<Share<X>, NoMemory>>,
) -> Result<Vec<X>, NoMemory>
    requires jobs { jobs ≡ jobs_of draws.now }
    requires all { length shares.items ≡ drawers_of draws.now }
    requires each { All (λ s. IfOk s (IsShare (F.post run.now) draws.now)) shares.items }
    ensures len { IfOk result (λ outcomes. length outcomes.items ≡ jobs) }
    ensures each { IfOk result (λ outcomes. (k : ℕ) (x : X) → k < jobs
        → F.post run.now k (slice_index_or outcomes.items k x)) }
{
    let mut slots = match empty_slots(alloc, jobs) {
        Ok(slots) => slots,
        Err(refused) => {
            drop(shares);
            return Err(refused);
        }
    };
    match put_shares(alloc, draws, run, &mut slots, shares) {
        Ok(()) => unwrapped(alloc, slots),
        Err(refused) => {
            drop(slots);
            Err(refused)
        }
    }
}
