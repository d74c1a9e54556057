//! What becomes of worked files. `tests/cases/batch` has it for other numbers of workers.
use crate::batch_files::{CHAINS_ANSWER, NEGATED_ANSWER, PAIR_ANSWER};
use batch_pool::{BatchError, Outcome};
use file_words::ReadError;

/// Returns true if the file was retimed to this text, from `from` latches to `to`.
fn is_done(outcome: &Outcome, text: &[u8], from: u32, to: u32) -> bool {
    match outcome {
        Outcome::Done {
            bytes,
            before,
            after,
            frames: _,
        } => (bytes.as_slice() == text) & (*before == from) & (*after == to),
        _ => false,
    }
}

fn is_cyclic(outcome: &Outcome) -> bool {
    match outcome {
        Outcome::Refused(fault) => *fault == ReadError::Cycle,
        _ => false,
    }
}

/// Returns true if these are the outcomes of the five files, in their order.
fn are_answers(outcomes: &[Outcome]) -> bool {
    match outcomes {
        [first, second, third, fourth, fifth] => {
            is_done(first, PAIR_ANSWER, 2, 1)
                & is_done(second, NEGATED_ANSWER, 2, 1)
                & is_cyclic(third)
                & is_done(fourth, PAIR_ANSWER, 2, 1)
                & is_done(fifth, CHAINS_ANSWER, 4, 2)
        }
        _ => false,
    }
}

/// Returns true if a batch ended with these, or with none if it had no files.
pub(crate) fn ended_with(ended: Result<Vec<Outcome>, BatchError>, has_files: bool) -> bool {
    let right = match &ended {
        Ok(outcomes) if has_files => are_answers(outcomes.as_slice()),
        Ok(outcomes) => outcomes.is_empty(),
        Err(_) => false,
    };
    drop(ended);
    right
}
