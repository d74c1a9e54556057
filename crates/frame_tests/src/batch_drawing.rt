//! The workers of a batch are at work at once, and draw the files one at a time. One of two workers
//! is held as the batch begins for it, until the other has left the batch, with files and with
//! none. One of five files is held until the other worker has run all others.
use crate::batch_files::five_files;
use crate::batch_outcomes::ended_with;
use crate::circuits::options;
use crate::pool_gate::{Held, PoolGate};
use batch_pool::{Job, run_batch};
use pulse::Crew;
use std::alloc::Global;
use std::test::*;
use std::thread::Threads;

/// Returns true if two workers run all files past one that is held.
fn runs_past<R: Threads + Sync>(rt: &R, alloc: Global, jobs: &[Job], held: Held) -> bool {
    match PoolGate::of(alloc, 2, jobs.len() as u64, held) {
        Ok(gate) => {
            let crew = Crew::new(2, gate);
            let runs = runs_with(rt, alloc, jobs, &crew);
            let saw_all = crew.gate().saw_all();
            drop(crew);
            runs & saw_all
        }
        Err(_) => false,
    }
}

/// Returns true if a crew gives the files their outcomes.
fn runs_with<R: Threads + Sync>(
    rt: &R,
    alloc: Global,
    jobs: &[Job],
    crew: &Crew<PoolGate>,
) -> bool {
    let options = options(alloc, 1 << 28);
    let ended = run_batch(rt, alloc, jobs, &options, crew);
    drop(options);
    ended_with(ended, !jobs.is_empty())
}

/// Returns true if either worker can be held.
fn runs_past_workers<R: Threads + Sync>(rt: &R, alloc: Global, jobs: &[Job]) -> bool {
    let first = runs_past(rt, alloc, jobs, Held::Worker(0));
    first & runs_past(rt, alloc, jobs, Held::Worker(1))
}

/// Returns true if either worker, and each of five files, can be held.
fn runs_past_each<R: Threads + Sync>(rt: &R, alloc: Global, jobs: &[Job]) -> bool {
    let mut all = runs_past_workers(rt, alloc, jobs);
    for number in 0..5u64 {
        all &= runs_past(rt, alloc, jobs, Held::Job(number));
    }
    all
}

#[test]
fn runs_past_either_worker_and_each_file_and_past_workers_without_files(rt: HostRuntime) {
    let jobs = five_files(rt.alloc());
    let each = runs_past_each(&rt, rt.alloc(), jobs.as_slice());
    drop(jobs);
    assert!(rt; each & runs_past_workers(&rt, rt.alloc(), &[]));
}
