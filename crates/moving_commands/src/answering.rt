//! What a move answers.
ghost use Rattle.std.specs.Prelude.{IfOk};
ghost use Rattle.command_endings.specs.HeldNames.{held_by};
ghost use Rattle.frame_runs.specs.Bounds.{levels_named};
ghost use Rattle.moving_commands.specs.Moving.{AnswersTask, IsMoveAnswerOf, IsMovedBy};

use crate::engines::{MovedCircuit, moved_by};
use aig_binary::{Spelling, SpeltCircuit};
use aig_graph::Circuit;
use backward_retiming::{MoveOptions, MoveWatcher};
use circuit_files::{Failure, circuit_at};
use command_endings::held_latches;
use command_line::Moving;
use counted_io::CountedRead;
use reports::Counts;
use std::alloc::Global;
use std::rt::Files;
use std::thread::Threads;

/// The circuit and its map, what the circuit that was read has, and the format that both are
/// written in.
#[derive(Drop)]
pub(crate) struct Answer {
    pub(crate) moved: MovedCircuit,
    pub(crate) before: Counts,
    pub(crate) spelling: Spelling,
}

/// Moves the latches of the circuit that are not held.
fn moved<'a, R: Threads + Sync, W: MoveWatcher>(
    rt: &R,
    alloc: Global,
    circuit: Circuit,
    task: &Moving<'a>,
    watcher: &mut W,
) -> Result<MovedCircuit, Failure<'a>>
    ensures { IfOk result (IsMovedBy task.now.kind circuit (held_by task.now.options circuit)
        (levels_named task.now.options.bound)) }
{
    let options = MoveOptions {
        frames: task.options.frames,
        levels: task.options.bound.levels(),
    };
    match held_latches(alloc, &circuit, task.input, &task.options) {
        Ok(keep) => {
            let moved = moved_by(task, rt, alloc, circuit, &keep, &options, watcher);
            drop(keep);
            match moved {
                Ok(moved) => Ok(moved),
                Err(_) => Err(Failure::Memory),
            }
        }
        Err(failure) => {
            drop(circuit);
            Err(failure)
        }
    }
}

/// Returns the answer of a circuit that was read.
fn answer_of<'a, R: Threads + Sync, W: MoveWatcher>(
    rt: &R,
    alloc: Global,
    spelt: SpeltCircuit,
    task: &Moving<'a>,
    watcher: &mut W,
) -> Result<Answer, Failure<'a>>
    ensures { IfOk result (IsMoveAnswerOf task.now spelt) }
{
    let SpeltCircuit { circuit, spelling } = spelt;
    let spelling = task.options.spelling.unwrap_or(spelling);
    let Ok(before) = Counts::of(alloc, &circuit) else {
        drop(circuit);
        return Err(Failure::Memory);
    };
    match moved(rt, alloc, circuit, task, watcher) {
        Ok(moved) => Ok(Answer {
            moved,
            before,
            spelling,
        }),
        Err(failure) => Err(failure),
    }
}

/// Reads what the task reads, and moves its latches. The watcher is notified of each frame, and of
/// the check.
pub(crate) fn answer_for<'a, R: Files + Threads + Sync, I: CountedRead, W: MoveWatcher>(
    rt: &R,
    alloc: Global,
    task: &Moving<'a>,
    stdin: &mut I,
    watcher: &mut W,
) -> Result<Answer, Failure<'a>>
    ensures { IfOk result (AnswersTask task.now (I.input stdin.old) (I.input stdin.new)) }
{
    match circuit_at(rt, alloc, task.input, stdin) {
        Ok(spelt) => answer_of(rt, alloc, spelt, task, watcher),
        Err(failure) => Err(failure),
    }
}
