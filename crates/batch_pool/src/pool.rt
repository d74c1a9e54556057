ghost use Rattle.std.specs.Prelude.{◌≡◌, ℕ, ◌^◌, ◌<◌, ◌≤◌, All, IfOk, [], length, slice_index_or};
ghost use Rattle.batch_pool.specs.Drawing.{IsDrawerOf, drawn, jobs_of};
ghost use Rattle.batch_pool.specs.Sharing.{IsShare};

use crate::draws::{Drawer, Draws};
use crate::share::{Share, worked};
use crate::slots::in_order;
use aig_graph::NoMemory;
use pulse::{Crew, PhaseGate};
use std::alloc::Global;
use std::thread;
use std::thread::Threads;

/// Calls `run` once with the number of each job, from 0, by the workers of a crew. Returns the
/// outcomes in the order of the jobs.
///
/// Each worker passes phase 0 of the gate before its first draw and leaves it after its last. It
/// passes phase `1 + k` before it runs job k and leaves it after that. Phases are numbered modulo
/// `2^32`.
///
/// # Errors
///
/// Memory for the list is refused: all outcomes are then dropped, and some jobs may not have been
/// run.
pub fn run_jobs<R: Threads + Sync, X: Send + Drop, F: Fn(u64) -> X + Sync, G: PhaseGate>(
    rt: &R,
    alloc: Global,
    jobs: u64,
    run: &F,
    crew: &Crew<G>,
) -> Result<Vec<X>, NoMemory>
    requires few { jobs ≤ 2 ^ 62 }
    requires run { (number : ℕ) → number < jobs → F.pre run.now number }
    ensures len { IfOk result (λ outcomes. length outcomes.items ≡ jobs) }
    ensures each { IfOk result (λ outcomes. (k : ℕ) (x : X) → k < jobs
        → F.post run.now k (slice_index_or outcomes.items k x)) }
{
    let (draws, drawers) = Draws::new(alloc, jobs, crew.workers())?;
    let shares = match shares_of(rt, alloc, &draws, drawers, run, crew.gate()) {
        Ok(shares) => shares,
        Err(refused) => {
            drop(draws);
            return Err(refused);
        }
    };
    let outcomes = in_order(alloc, &draws, run, jobs as usize, shares);
    drop(draws);
    outcomes
}

/// Returns what the workers give back. Each draws by one of the drawers.
fn shares_of<R: Threads + Sync, X: Send + Drop, F: Fn(u64) -> X + Sync, G: PhaseGate>(
    rt: &R,
    alloc: Global,
    draws: &Draws,
    drawers: Vec<Drawer>,
    run: &F,
    gate: &G,
) -> Result<Vec<Result<Share<X>, NoMemory>>, NoMemory>
    requires mine { All (IsDrawerOf draws.now) drawers.items }
    requires fresh { All (λ d. drawn d ≡ []) drawers.items }
    requires run { (number : ℕ) → number < jobs_of draws.now → F.pre run.now number }
    ensures len { IfOk result (λ shares. length shares.items ≡ length drawers.items) }
    ensures each { IfOk result (λ shares.
        All (λ s. IfOk s (IsShare (F.post run.now) draws.now)) shares.items) }
{
    let work = |drawer: Drawer| -> Result<Share<X>, NoMemory>
        requires mine { IsDrawerOf draws.now drawer }
        requires fresh { drawn drawer ≡ [] }
        requires run { (number : ℕ) → number < jobs_of draws.now → F.pre run.now number }
        ensures { IfOk result (λ s. IsShare (F.post run.entry.now) draws.entry.now s) }
    { worked(alloc, draws, run, gate, drawer) };
    Ok(thread::map_vec(rt, drawers, &work)?)
}
