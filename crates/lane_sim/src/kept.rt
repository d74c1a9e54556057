//! The free latches of a circuit that another one has: reading a list of them, and the stimulus of
//! the first for the other.
ghost use Rattle.std.specs.Prelude.{◌≡◌, IfOk, false, map, length};
ghost use Rattle.std.specs.List.{slice_index_or};
ghost use Rattle.file_words.specs.Answering.{Gives};
ghost use Rattle.lane_sim.specs.Kept.{ArePlaces, for_kept, next_place, read_place};
ghost use Rattle.lane_sim.specs.Kept as wanted;
ghost use Rattle.lane_sim.specs.Traces.{choice_of};
ghost use Rattle.lane_sim.specs.declared.fault.StimError.TheVariants as faults;

use crate::fault::StimError;
use crate::stimulus::InputSequence;
use aig_graph::{NoMemory, Sequence};
use file_words::{Line, Lines, number};
use std::alloc::Global;

/// Reads the `count` free latches that were kept, of `free`. There is a line for each, with its
/// place from 0 among the free latches, in order.
///
/// # Errors
///
/// `BadLine` of the first line that isn't a number, no such place, or no place above those before.
/// Otherwise `Width`, with the length of the text, for another number of lines than `count`.
/// `NoMemory` may come before it. The time is linear in the bytes.
pub fn read_kept(
    alloc: Global,
    bytes: &[u8],
    free: u32,
    count: u32,
) -> Result<Sequence<u32>, StimError>
    ensures reads { Gives faults.NoMemory (λ kept. kept) result (wanted.read_kept free count bytes.now) }
    ensures places { IfOk result (λ kept. ArePlaces free kept × (length kept ≡ count)) }
{
    let mut kept = Vec::new(alloc);
    let mut lines = Lines::new(bytes);
    while let Some(line) = lines.next_line() {
        take_place(&mut kept, &line, free)?;
    }
    if kept.len() != count as usize {
        return Err(StimError::Width(bytes.len() as u64));
    }
    Ok(Sequence::from_vec(kept))
}

/// Takes a line.
fn take_place(kept: &mut Vec<u32>, line: &Line<'_>, free: u32) -> Result<(), StimError>
    ensures { Gives faults.NoMemory (λ _. kept.new.items) result
        (read_place free line.now.at kept.old.items line.now.text.now) }
{
    let Some(place) = number(line.text) else {
        return Err(StimError::BadLine(line.at));
    };
    if u64::from(free) <= place || place < next_place(kept.as_slice()) {
        return Err(StimError::BadLine(line.at));
    }
    kept.push(place as u32)?;
    Ok(())
}

/// Returns the least place that may follow.
fn next_place(kept: &[u32]) -> u64
    ensures { result ≡ next_place kept.now }
{
    match kept.last().copied() {
        Some(last) => u64::from(last) + 1,
        None => 0,
    }
}

/// Returns the sequences for a circuit whose free latches are these of the first one's.
pub(crate) fn sequences_for_kept(
    alloc: Global,
    sequences: &[InputSequence],
    kept: &[u32],
) -> Result<Vec<InputSequence>, NoMemory>
    ensures { IfOk result (λ made. made.items ≡ map (for_kept kept.now) sequences.now) }
{
    let mut made = Vec::with_capacity(alloc, sequences.len())?;
    for sequence in sequences {
        made.push(sequence_for_kept(alloc, sequence, kept)?)?;
    }
    Ok(made)
}

fn sequence_for_kept(
    alloc: Global,
    sequence: &InputSequence,
    kept: &[u32],
) -> Result<InputSequence, NoMemory>
    ensures { IfOk result (λ made. made ≡ for_kept kept.now sequence.now) }
{
    let choice = choice_for_kept(alloc, sequence, kept)?;
    let steps = copied(alloc, sequence.steps.as_slice())?;
    Ok(InputSequence { choice, steps })
}

/// Returns the digit at a place, or false if there is none.
fn digit_at(choice: &[bool], place: usize) -> bool
    ensures { result ≡ slice_index_or choice.now place false }
{
    if place < choice.len() {
        choice[place]
    } else {
        false
    }
}

/// Returns the values of these free latches at step 0.
fn choice_for_kept(
    alloc: Global,
    sequence: &InputSequence,
    kept: &[u32],
) -> Result<Sequence<bool>, NoMemory>
    ensures { IfOk result (λ choice. choice ≡ map (choice_of sequence.now) kept.now) }
{
    let choice = sequence.choice.as_slice();
    let mut values = Vec::with_capacity(alloc, kept.len())?;
    for place in kept {
        values.push(digit_at(choice, *place as usize))?;
    }
    Ok(Sequence::from_vec(values))
}

/// Returns a copy of the steps.
fn copied(alloc: Global, steps: &[Sequence<bool>]) -> Result<Sequence<Sequence<bool>>, NoMemory>
    ensures { IfOk result (λ copy. copy ≡ steps.now) }
{
    let mut copy = Vec::with_capacity(alloc, steps.len())?;
    for step in steps {
        copy.push(Sequence::from_vec(step.as_slice().to_vec(alloc)?))?;
    }
    Ok(Sequence::from_vec(copy))
}
