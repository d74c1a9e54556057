//! Worked files and their answers.
use crate::circuits::CHAINS;
use batch_pool::Job;
use std::alloc::Global;

/// A latch after each of two inputs, and the gate of the latches; and its answer.
pub(crate) const PAIR: &[u8] = b"aag 5 2 2 1 1\n2\n4\n6 2\n8 4\n10\n10 6 8\n";

pub(crate) const PAIR_ANSWER: &[u8] = b"aag 4 2 1 1 1\n2\n4\n6 8\n6\n8 4 2\n";

/// That circuit with the gate of the negated latches.
const NEGATED: &[u8] = b"aag 5 2 2 1 1\n2\n4\n6 2\n8 4\n10\n10 7 9\n";

pub(crate) const NEGATED_ANSWER: &[u8] = b"aag 4 2 1 1 1\n2\n4\n6 8 1\n6\n8 5 3\n";

/// A gate that reads itself.
const CYCLIC: &[u8] = b"aag 1 0 0 1 1\n2\n2 2 3\n";

pub(crate) const CHAINS_ANSWER: &[u8] = b"aag 5 2 2 1 1\n2\n4\n6 8\n8 10\n6\n10 4 2\n";

/// Puts a file, if there is room for it.
fn put(alloc: Global, jobs: &mut Vec<Job>, text: &[u8]) {
    if let Ok(bytes) = Vec::from_slice(alloc, text) {
        let _ = jobs.push(Job { bytes });
    }
}

/// Returns five files, of which the third is refused.
pub(crate) fn five_files(alloc: Global) -> Vec<Job> {
    let mut jobs = Vec::new(alloc);
    put(alloc, &mut jobs, PAIR);
    put(alloc, &mut jobs, NEGATED);
    put(alloc, &mut jobs, CYCLIC);
    put(alloc, &mut jobs, PAIR);
    put(alloc, &mut jobs, CHAINS);
    jobs
}
