//! What one worker does.
ghost use Rattle.std.specs.Prelude.{◌≡◌, ℕ, ◌+◌, ◌<◌, ◌%◌, ◌^◌, IfOk, []};
ghost use Rattle.batch_pool.specs.Drawing.{IsDrawerOf, drawn, jobs_of};
ghost use Rattle.batch_pool.specs.Sharing.{IsShare};

use crate::draws::{Drawer, Draws};
use aig_graph::NoMemory;
use pulse::PhaseGate;
use std::alloc::Global;

/// How many numbers of phases there are; after the last comes 0 again.
const PHASES: u64 = 1 << 32;

/// Returns the phase in which a job is run.
fn phase_of(number: u64) -> u64
    ensures { result ≡ (number + 1) % 2 ^ 32 }
{
    number.wrapping_add(1) % PHASES
}

/// An outcome, and the number of its job.
#[derive(Drop)]
pub struct Numbered<X> {
    pub number: u64,
    pub outcome: X,
}

/// What a worker gives back: its drawer, and the outcomes of the jobs that it drew.
#[derive(Drop)]
pub struct Share<X> {
    pub drawer: Drawer,
    pub done: Vec<Numbered<X>>,
}

/// Draws until no job is left, and runs each job that is drawn.
fn drawn_out<X: Drop, F: Fn(u64) -> X, G: PhaseGate>(
    alloc: Global,
    draws: &Draws,
    run: &F,
    gate: &G,
    drawer: Drawer,
) -> Result<Share<X>, NoMemory>
    requires mine { IsDrawerOf draws.now drawer }
    requires fresh { drawn drawer ≡ [] }
    requires run { (number : ℕ) → number < jobs_of draws.now → F.pre run.now number }
    ensures { IfOk result (λ s. IsShare (F.post run.now) draws.now s) }
{
    let mut drawer = drawer;
    let worker = drawer.worker();
    let mut done = Vec::new(alloc);
    while let Some(number) = draws.draw(&mut drawer) {
        done.reserve(1)?;
        let phase = phase_of(number);
        gate.pass(phase, worker);
        let outcome = run(number);
        gate.leave(phase, worker);
        done.push_reserved(Numbered { number, outcome });
    }
    Ok(Share { drawer, done })
}

/// Does all of a worker's part.
pub fn worked<X: Drop, F: Fn(u64) -> X, G: PhaseGate>(
    alloc: Global,
    draws: &Draws,
    run: &F,
    gate: &G,
    drawer: Drawer,
) -> Result<Share<X>, NoMemory>
    requires mine { IsDrawerOf draws.now drawer }
    requires fresh { drawn drawer ≡ [] }
    requires run { (number : ℕ) → number < jobs_of draws.now → F.pre run.now number }
    ensures { IfOk result (λ s. IsShare (F.post run.now) draws.now s) }
{
    let worker = drawer.worker();
    gate.pass(0, worker);
    let share = drawn_out(alloc, draws, run, gate, drawer);
    gate.leave(0, worker);
    share
}
