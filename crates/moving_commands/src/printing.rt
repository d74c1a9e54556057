//! What is printed of a move, in lines or as an object of JSON.
ghost use Rattle.std.specs.Prelude.{◌≡◌, true, false};
ghost use Rattle.circuit_files.specs.declared.outcome.Outcome.TheVariants.{Done};
ghost use Rattle.command_endings.specs.Objects.{EndsBy, EndsPrintingObject};
ghost use Rattle.command_endings.specs.Printing.{EndsAside, Prints, ending};
ghost use Rattle.command_line.specs.StreamUses.{moving_takes_stdout};
ghost use Rattle.moving_commands.specs.Printing.{EndsPrintingMoves, SaysMoves, moves_data};

use crate::answering::Answer;
use crate::lines::print_lines;
use crate::object::moves_object;
use circuit_files::{Failure, Outcome};
use command_endings::ended;
use command_line::Moving;
use counted_io::CountedWrite;
use json_reports::PrintError;
use reports::Counts;
use std::alloc::Global;

/// Returns the end of a command that has printed an object, if there was room for it and standard
/// output took all of it.
fn ended_by<'a>(printed: Result<(), PrintError>) -> Result<Outcome, Failure<'a>>
    ensures { EndsBy printed Done result }
{
    match printed {
        Ok(()) => Ok(Outcome::Done),
        Err(PrintError::NoMemory) => Err(Failure::Memory),
        Err(PrintError::Device) => Err(Failure::Device("stdout")),
    }
}

/// Prints an answer as an object, if the written circuit has this.
fn print_counted<'a, W: CountedWrite>(
    alloc: Global,
    task: &Moving<'_>,
    answer: &Answer,
    after: &Counts,
    writer: &mut W,
) -> Result<Outcome, Failure<'a>>
    ensures { EndsPrintingObject Done (moves_data task.now answer.now after.now)
        (W.output writer.old) (W.output writer.new) result }
{
    match moves_object(alloc, task, answer, after) {
        Ok(object) => {
            let printed = json_reports::print_object(alloc, &object, writer);
            drop(object);
            ended_by(printed)
        }
        Err(_) => Err(Failure::Memory),
    }
}

/// Prints an answer as an object of JSON.
fn print_object<'a, W: CountedWrite>(
    alloc: Global,
    task: &Moving<'_>,
    answer: &Answer,
    writer: &mut W,
) -> Result<Outcome, Failure<'a>>
    ensures { EndsPrintingMoves true task.now answer.now (W.output writer.old)
        (W.output writer.new) result }
{
    match Counts::of(alloc, &answer.moved.circuit) {
        Ok(after) => print_counted(alloc, task, answer, &after, writer),
        Err(_) => Err(Failure::Memory),
    }
}

/// Prints an answer, as an object of JSON or in lines.
fn print_as<'a, W: CountedWrite>(
    alloc: Global,
    task: &Moving<'_>,
    answer: &Answer,
    json: bool,
    writer: &mut W,
) -> Result<Outcome, Failure<'a>>
    ensures moves { EndsPrintingMoves json task.now answer.now (W.output writer.old)
        (W.output writer.new) result }
    ensures prints { Prints (ending result) (W.output writer.old) (W.output writer.new) }
{
    if json {
        print_object(alloc, task, answer, writer)
    } else {
        ended(print_lines(answer, writer), Outcome::Done)
    }
}

/// Prints an answer to standard output. If a circuit or a map has been written there, prints it to
/// standard error, where a write that fails changes nothing.
pub(crate) fn print_answer<'a, O: CountedWrite, E: CountedWrite>(
    alloc: Global,
    task: &Moving<'_>,
    answer: &Answer,
    out: &mut O,
    err: &mut E,
) -> Result<Outcome, Failure<'a>>
    ensures aside { moving_takes_stdout task.now ≡ true
        → EndsAside Done (O.output out.old) (O.output out.new) result }
    ensures says { moving_takes_stdout task.now ≡ true
        → SaysMoves task.now answer.now (E.output err.old) (E.output err.new) }
    ensures moves { moving_takes_stdout task.now ≡ false
        → EndsPrintingMoves task.now.json task.now answer.now (O.output out.old)
        (O.output out.new) result }
    ensures prints { moving_takes_stdout task.now ≡ false
        → Prints (ending result) (O.output out.old) (O.output out.new) }
{
    if task.takes_stdout() {
        let _ = print_as(alloc, task, answer, task.json, err);
        Ok(Outcome::Done)
    } else {
        print_as(alloc, task, answer, task.json, out)
    }
}
