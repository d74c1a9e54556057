ghost use Rattle.std.specs.Prelude.{◌<◌, IfOk, length, slice_index_or};
ghost use Rattle.batch_pool.specs.declared.job.Job.{Job};
ghost use Rattle.batch_pool.specs.Outcomes.{AreOutcomes, IsOutcome};

use crate::error::BatchError;
use crate::job::{Job, Outcome, retime_file};
use crate::pool::run_jobs;
use frame_runs::Options;
use pulse::{Crew, PhaseGate};
use std::alloc::Global;
use std::thread::Threads;

/// Retimes the bytes of each job by the options, and returns the outcomes in the order of the jobs.
///
/// The workers of the crew draw the jobs one at a time, and each runs its jobs on its own thread.
/// Each worker passes phase 0 of the gate before its first draw and leaves it after its last. It
/// passes phase `1 + k` before it runs job k, from 0, and leaves it after that. Phases are numbered
/// modulo `2^32`.
///
/// # Errors
///
/// `NoMemory` if memory for the list is refused; memory that is refused to a job is the outcome of
/// that job alone.
pub fn run_batch<G: PhaseGate>(
    rt: &(impl Threads + Sync),
    alloc: Global,
    jobs: &[Job],
    options: &Options,
    crew: &Crew<G>,
) -> Result<Vec<Outcome>, BatchError>
    ensures { IfOk result (λ outcomes. AreOutcomes options.now jobs.now outcomes.items) }
{
    let retime = |number: u64| -> Outcome
        requires { number < length jobs.now }
        ensures { (job : Job) → IsOutcome (slice_index_or jobs.entry.now number job).bytes.items
            options.entry.now result }
    { retime_file(rt, alloc, jobs[number as usize].bytes.as_slice(), options) };
    let outcomes = run_jobs(rt, alloc, jobs.len() as u64, &retime, crew)?;
    Ok(outcomes)
}
