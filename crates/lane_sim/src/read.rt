//! Reading a stimulus.
ghost use Rattle.std.specs.Prelude.{◌≡◌, ◌==◌, ◌++◌, ◌∷◌, [], IfOk, length};
ghost use Rattle.std.specs.List.{list_all};
ghost use Rattle.file_words.specs.Answering.{Gives};
ghost use Rattle.lane_sim.specs.declared.fault.StimError.TheVariants.{NoMemory};
ghost use Rattle.lane_sim.specs.Stimuli.{is_digit, values_of, begin, step};
ghost use Rattle.lane_sim.specs.Stimuli as stimuli;

use crate::fault::StimError;
use crate::stimulus::{InputSequence, Stimulus};
use aig_graph::Sequence;
use file_words::{Line, Lines};
use std::alloc::{AllocError, Global};

/// The sequences that a stimulus may have.
const MAX_SEQUENCES: usize = 1 << 20;

/// Reads a stimulus for a circuit with `inputs` inputs and `free` free latches.
///
/// The text is lines. A line of `=` and a digit 0 or 1 for each free latch begins a sequence. A
/// line of `:` and a digit for each input is its next step. The empty text has no sequence.
///
/// An error is that of the first line with a fault. It is `BadLine` for another first byte, a byte
/// that is no digit, or a step before the first sequence. Otherwise it is `Width` for another
/// number of digits, else `TooMany` for the line that begins sequence number 2^20, from 0.
/// `NoMemory` may come before it. The time is linear in the bytes.
pub fn read_stimulus(
    alloc: Global,
    bytes: &[u8],
    inputs: usize,
    free: usize,
) -> Result<Stimulus, StimError>
    ensures { Gives NoMemory (λ stimulus. stimulus) result (stimuli.read_text inputs free bytes.now) }
{
    let mut sequences = Vec::new(alloc);
    let mut lines = Lines::new(bytes);
    while let Some(line) = lines.next_line() {
        read_line(alloc, &mut sequences, &line, inputs, free)?;
    }
    Ok(Stimulus::new(sequences))
}

/// Takes a line.
fn read_line(
    alloc: Global,
    sequences: &mut Vec<InputSequence>,
    line: &Line<'_>,
    inputs: usize,
    free: usize,
) -> Result<(), StimError>
    ensures { Gives NoMemory (λ _. sequences.new.items) result
        (stimuli.read_line inputs free line.now.at sequences.old.items line.now.text.now) }
{
    let Some((kind, digits)) = line.text.split_first() else {
        return Err(StimError::BadLine(line.at));
    };
    if !are_digits(digits) {
        return Err(StimError::BadLine(line.at));
    }
    match *kind {
        b'=' => begin_sequence(alloc, sequences, digits, free, line.at),
        b':' => add_step(alloc, sequences, digits, inputs, line.at),
        _ => Err(StimError::BadLine(line.at)),
    }
}

/// Begins a sequence.
fn begin_sequence(
    alloc: Global,
    sequences: &mut Vec<InputSequence>,
    digits: &[u8],
    free: usize,
    offset: u64,
) -> Result<(), StimError>
    ensures { Gives NoMemory (λ _. sequences.new.items) result
        (begin free offset sequences.old.items digits.now) }
{
    if digits.len() != free {
        return Err(StimError::Width(offset));
    }
    if sequences.len() == MAX_SEQUENCES {
        return Err(StimError::TooMany(offset));
    }
    let choice = values(alloc, digits)?;
    sequences.push(InputSequence {
        choice,
        steps: Sequence::empty(alloc),
    })?;
    Ok(())
}

/// Adds a step to the last sequence.
fn add_step(
    alloc: Global,
    sequences: &mut Vec<InputSequence>,
    digits: &[u8],
    inputs: usize,
    offset: u64,
) -> Result<(), StimError>
    ensures { Gives NoMemory (λ _. sequences.new.items) result
        (step inputs offset sequences.old.items digits.now) }
{
    let Some(last) = sequences.pop() else {
        return Err(StimError::BadLine(offset));
    };
    if digits.len() != inputs {
        return Err(StimError::Width(offset));
    }
    let row = values(alloc, digits)?;
    sequences.push(longer(last, row)?)?;
    Ok(())
}

/// Returns the sequence with one more step.
fn longer(sequence: InputSequence, row: Sequence<bool>) -> Result<InputSequence, AllocError>
    ensures { IfOk result (λ more. more ≡ record {
      choice = sequence.choice;
      steps = sequence.steps
          ++ row ∷ [];
    }) }
{
    let InputSequence { choice, steps } = sequence;
    let mut rows = steps.into_vec();
    rows.push(row)?;
    Ok(InputSequence {
        choice,
        steps: Sequence::from_vec(rows),
    })
}

/// Returns true if each byte is 0 or 1.
fn are_digits(bytes: &[u8]) -> bool
    ensures { result ≡ list_all is_digit bytes.now }
{
    bytes.iter().all(|byte| *byte == b'0' || *byte == b'1')
}

/// Returns the values that digits spell.
fn values(alloc: Global, digits: &[u8]) -> Result<Sequence<bool>, AllocError>
    ensures { IfOk result (λ row. row ≡ values_of digits.now) }
{
    let mut values = Vec::new(alloc);
    for digit in digits {
        values.push(*digit == b'1')?;
    }
    Ok(Sequence::from_vec(values))
}
