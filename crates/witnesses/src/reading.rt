//! The lines of a witness in their order, a function for each. No line depends on a later one, so
//! the fault that is met first is the first of the text.
ghost use Rattle.std.specs.Prelude.{ℕ, ◌≡◌, ◌⊎◌, [], IfOk, IfErr, Ok, Err};
ghost use Rattle.witnesses.specs.declared.fault.WitnessError.TheVariants.{NoMemory};
ghost use Rattle.file_words.specs.Answering.{Gives};
ghost use Rattle.witnesses.specs.Reading.{closed_witness, latches_from, properties_from, read_text, status_from, steps_from, with_step};
ghost use Rattle.witnesses.specs.Statements.{left};

use crate::fault::WitnessError;
use crate::lines::{following, next_line, truncated};
use crate::rows::row;
use crate::widths::Widths;
use crate::witness::{Digit, Property, Witness};
use crate::words::properties;
use aig_graph::Sequence;
use file_words::{Line, Lines, is_word};
use std::alloc::Global;

/// Takes the line that says that there is a witness.
fn status_line(lines: &mut Lines<'_>) -> Result<(), WitnessError>
    ensures end { lines.new.end ≡ lines.old.end }
    ensures reads { Gives NoMemory (λ _. left lines.new) result
        (status_from lines.old.end (left lines.old)) }
{
    let line = next_line(lines)?;
    if is_word(line.text, b"1") {
        Ok(())
    } else {
        Err(WitnessError::BadHeader(line.at))
    }
}

/// Takes the line of the properties.
fn properties_line(
    alloc: Global,
    lines: &mut Lines<'_>,
    widths: &Widths,
) -> Result<Sequence<Property>, WitnessError>
    ensures end { lines.new.end ≡ lines.old.end }
    ensures reads { Gives NoMemory (λ properties. (properties, left lines.new)) result
        (properties_from widths.now lines.old.end (left lines.old)) }
{
    let line = next_line(lines)?;
    properties(alloc, &line, widths)
}

/// Takes the line of the latches.
fn latches_line(
    alloc: Global,
    lines: &mut Lines<'_>,
    width: usize,
) -> Result<Sequence<Digit>, WitnessError>
    ensures end { lines.new.end ≡ lines.old.end }
    ensures reads { Gives NoMemory (λ latches. (latches, left lines.new)) result
        (latches_from width lines.old.end (left lines.old)) }
{
    let line = next_line(lines)?;
    row(alloc, &line, width)
}

fn push_step(
    alloc: Global,
    steps: &mut Vec<Sequence<Digit>>,
    line: &Line<'_>,
    width: usize,
) -> Result<(), WitnessError>
    ensures { Gives NoMemory (λ _. steps.new.items) result (with_step width line.now.at line.now.text.now
        steps.old.items) }
{
    let step = row(alloc, line, width)?;
    steps.push(step)?;
    Ok(())
}

/// Takes the lines of the steps, and the one that ends them.
fn step_lines(
    alloc: Global,
    lines: &mut Lines<'_>,
    width: usize,
) -> Result<Sequence<Sequence<Digit>>, WitnessError>
    ensures end { lines.new.end ≡ lines.old.end }
    ensures reads { Gives NoMemory (λ steps. (steps, left lines.new)) result
        (steps_from width lines.old.end [] (left lines.old)) }
{
    let mut steps = Vec::new(alloc);
    while let Some(line) = following(lines) {
        if is_word(line.text, b".") {
            return Ok(Sequence::from_vec(steps));
        }
        push_step(alloc, &mut steps, &line, width)?;
    }
    Err(truncated(lines))
}

/// Returns the witness, if nothing but comments follows.
fn closed(lines: &mut Lines<'_>, witness: Witness) -> Result<Witness, WitnessError>
    ensures { result ≡ closed_witness witness (left lines.old) }
{
    match following(lines) {
        Some(line) => Err(WitnessError::Trailing(line.at)),
        None => Ok(witness),
    }
}

fn read(alloc: Global, bytes: &[u8], widths: &Widths) -> Result<Witness, WitnessError>
    ensures { Gives NoMemory (λ witness. witness) result (read_text widths.now bytes.now) }
{
    let mut lines = Lines::new(bytes);
    status_line(&mut lines)?;
    let properties = properties_line(alloc, &mut lines, widths)?;
    let latches = latches_line(alloc, &mut lines, widths.latches)?;
    let inputs = step_lines(alloc, &mut lines, widths.inputs)?;
    let witness = Witness {
        properties,
        latches,
        inputs,
    };
    closed(&mut lines, witness)
}

/// Reads a witness for a circuit with these widths, as model checkers write it.
///
/// The first line is `1`. The next has the properties that fail, with one space between: `b` and
/// the number of a bad state, or `j` and that of a justice property. A line has a value 0, 1 or x
/// for each latch. A line for each step has a value for each input, and `.` is the end. A line that
/// begins with `c` is a comment, wherever it stands. The time is linear in the bytes.
///
/// # Errors
///
/// The first fault, or `NoMemory`, which may come before it.
pub fn read_witness(alloc: Global, bytes: &[u8], widths: &Widths) -> Result<Witness, WitnessError>
    ensures ok { IfOk result (λ witness. read_text widths.now bytes.now ≡ Ok witness) }
    ensures err { IfErr result (λ error. (error ≡ NoMemory)
        ⊎ (read_text widths.now bytes.now ≡ Err error)) }
{
    read(alloc, bytes, widths)
}
