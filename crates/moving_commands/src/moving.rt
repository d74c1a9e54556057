//! The commands `backward` and `enables`.
ghost use Rattle.std.specs.Prelude.{◌≡◌, false, IfErr, IfOk, OnOk};
ghost use Rattle.aig_binary.specs.Spellings.{text_in};
ghost use Rattle.command_line.specs.StreamUses.{moving_takes_stdout, writes_stdout};
ghost use Rattle.circuit_files.specs.Outcomes.{outcome_of};
ghost use Rattle.circuit_files.specs.WrittenFiles.{IsFileGiven};
ghost use Rattle.circuit_files.specs.declared.outcome.Outcome.TheVariants.{Device};
ghost use Rattle.command_endings.specs.Printing.{Prints, ending};
ghost use Rattle.moving_commands.specs.Moving.{AnswersTask, PrintsMoves, WritesIfAsked, WritesMoves};

use crate::answering::{Answer, answer_for};
use crate::printing::print_answer;
use crate::staying::tell_staying;
use backward_retiming::{MoveStage, MoveWatcher};
use circuit_files::{Failure, Outcome, OutputFiles};
use command_endings::{Progress, write_circuit};
use command_line::Moving;
use counted_io::{CountedRead, CountedWrite, Streams};
use std::alloc::Global;
use std::rt::Files;
use std::thread::Threads;
use std::time::Clock;

/// Writes the map of an answer where it is asked for.
fn write_map<'a, R: OutputFiles, O: CountedWrite>(
    rt: &R,
    task: &Moving<'a>,
    answer: &Answer,
    out: &mut O,
) -> Result<(), Failure<'a>>
    ensures written { OnOk result (WritesIfAsked (IsFileGiven R.Output.contents R.is_made R.is_let_go)
        task.now.map (text_in answer.now.spelling answer.now.moved.map) (O.output out.old)
        (O.output out.new)) }
    ensures file { writes_stdout task.now.map ≡ false → O.output out.new ≡ O.output out.old }
    ensures err { IfErr result (λ failure. outcome_of failure ≡ Device) }
{
    match task.map {
        Some(target) => write_circuit(rt, &answer.moved.map, answer.spelling, target, out),
        None => Ok(()),
    }
}

/// Writes the circuit of an answer, and then its map.
fn write_answer<'a, R: OutputFiles, O: CountedWrite>(
    rt: &R,
    task: &Moving<'a>,
    answer: &Answer,
    out: &mut O,
) -> Result<(), Failure<'a>>
    ensures written { OnOk result (WritesMoves (IsFileGiven R.Output.contents R.is_made R.is_let_go) task.now
        answer.now (O.output out.old) (O.output out.new)) }
    ensures file { moving_takes_stdout task.now ≡ false
        → O.output out.new ≡ O.output out.old }
    ensures err { IfErr result (λ failure. outcome_of failure ≡ Device) }
{
    match write_circuit(rt, &answer.moved.circuit, answer.spelling, task.output, out) {
        Ok(()) => write_map(rt, task, answer, out),
        Err(failure) => Err(failure),
    }
}

/// Reads a circuit, moves its latches, and writes it, and its map if that is asked for. The watcher
/// is notified of each stage.
fn write_moved<
    'a,
    R: Files + OutputFiles + Threads + Sync,
    I: CountedRead,
    O: CountedWrite,
    W: MoveWatcher,
>(
    rt: &R,
    alloc: Global,
    task: &Moving<'a>,
    stdin: &mut I,
    out: &mut O,
    watcher: &mut W,
) -> Result<Answer, Failure<'a>>
    ensures answer { IfOk result (AnswersTask task.now (I.input stdin.old) (I.input stdin.new)) }
    ensures written { IfOk result (λ answer. WritesMoves (IsFileGiven R.Output.contents R.is_made R.is_let_go)
        task.now answer (O.output out.old) (O.output out.new)) }
    ensures file { OnOk result (moving_takes_stdout task.now ≡ false
        → O.output out.new ≡ O.output out.old) }
    ensures prints { IfErr result (λ failure. Prints (outcome_of failure) (O.output out.old)
        (O.output out.new)) }
{
    let answer = answer_for(rt, alloc, task, stdin, watcher)?;
    watcher.begin(MoveStage::Writing);
    match write_answer(rt, task, &answer, out) {
        Ok(()) => Ok(answer),
        Err(failure) => {
            drop(answer);
            Err(failure)
        }
    }
}

/// Does what `write_moved` does, and shows on standard error how far the run is, until all is
/// written.
fn write_shown<
    'a,
    R: Files + OutputFiles + Threads + Sync + Clock,
    I: CountedRead,
    O: CountedWrite,
    E: CountedWrite,
>(
    rt: &R,
    alloc: Global,
    task: &Moving<'a>,
    streams: &mut Streams<I, O, E>,
) -> Result<Answer, Failure<'a>>
    ensures answer { IfOk result (AnswersTask task.now (I.input streams.old.stdin) (I.input streams.new.stdin)) }
    ensures written { IfOk result (λ answer. WritesMoves (IsFileGiven R.Output.contents R.is_made R.is_let_go)
        task.now answer (O.output streams.old.out) (O.output streams.new.out)) }
    ensures file { OnOk result (moving_takes_stdout task.now ≡ false
        → O.output streams.new.out ≡ O.output streams.old.out) }
    ensures prints { IfErr result (λ failure. Prints (outcome_of failure) (O.output streams.old.out)
        (O.output streams.new.out)) }
{
    let mut progress = Progress::new(
        task.shown,
        false,
        streams.is_terminal,
        rt,
        alloc,
        &mut streams.err,
    );
    let answer = write_moved(
        rt,
        alloc,
        task,
        &mut streams.stdin,
        &mut streams.out,
        &mut progress,
    );
    drop(progress.end());
    answer
}

/// Reads a circuit, moves its latches as the task asks, and writes it, and its map if that is asked
/// for. Then prints the frames that were taken, as an object of JSON or in lines.
///
/// Shows how far the run is as the task asks, and on a terminal why no more latches go.
pub fn print_moves<
    'a,
    R: Files + OutputFiles + Threads + Sync + Clock,
    I: CountedRead,
    O: CountedWrite,
    E: CountedWrite,
>(
    rt: &R,
    alloc: Global,
    task: &Moving<'a>,
    streams: &mut Streams<I, O, E>,
) -> Result<Outcome, Failure<'a>>
    ensures moves { IfOk result (PrintsMoves (IsFileGiven R.Output.contents R.is_made R.is_let_go) task.now
        streams.old.is_terminal (I.input streams.old.stdin) (I.input streams.new.stdin) (O.output streams.old.out) (O.output streams.new.out)
        (E.output streams.new.err)) }
    ensures prints { Prints (ending result) (O.output streams.old.out) (O.output streams.new.out) }
{
    let is_terminal = streams.is_terminal;
    match write_shown(rt, alloc, task, streams) {
        Ok(answer) => {
            let ended = print_answer(alloc, task, &answer, &mut streams.out, &mut streams.err);
            tell_staying(task, &answer, is_terminal, &mut streams.err);
            drop(answer);
            ended
        }
        Err(failure) => Err(failure),
    }
}
