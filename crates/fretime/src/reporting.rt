//! The reason why a command failed, on standard error, and as an object of JSON if that is asked
//! for.
ghost use Rattle.std.specs.Prelude.{◌≡◌, ◌⊎◌, true, false, IfErr, option_map};
ghost use Rattle.circuit_files.specs.Outcomes.{outcome_of};
ghost use Rattle.command_endings.specs.Printing.{ending};
ghost use Rattle.fretime.specs.Reporting.{MayRefuse, PrintsFailure, SaysFailure, SaysWhy, object_command};
ghost use Rattle.fretime.specs.Reporting as wanted;

use crate::advising::advise;
use crate::written::is_written;
use circuit_files::{Failure, Message, Outcome, Told, give_hint, tell_returns};
use command_endings::{fault_of, print_failure};
use command_line::{Drawing, Task};
use counted_io::{CountedWrite, Streams};
use std::alloc::Global;
use std::fmt::Write;
use std::rt::Files;

/// Reports a failure on one line, and returns how the run ends. A failed write changes nothing.
pub fn report_failure<E: CountedWrite>(
    failure: Failure<'_>,
    is_terminal: bool,
    err: &mut E,
) -> Outcome
    ensures { result ≡ outcome_of failure.entry }
{
    let mut message = Message::new(err, is_terminal);
    let _ = writeln!(message, "{failure}");
    message.send();
    failure.outcome()
}

/// Prints why this command failed as an object of JSON, if that is asked for. A failed write
/// changes nothing.
fn print_failure_as<O: CountedWrite>(
    alloc: Global,
    command: &str,
    failure: Failure<'_>,
    json: bool,
    out: &mut O,
)
    ensures prints { PrintsFailure json (outcome_of failure.entry) (O.output out.old)
        (O.output out.new) }
    ensures says { SaysFailure json command.entry failure.entry (O.output out.old)
        (O.output out.new) }
{
    if json {
        print_failure(alloc, command, failure, out);
    }
}

/// Reports a failure of this command on one line, and prints it as an object of JSON if that is
/// asked for. Returns how the run ends. A failed write changes nothing.
pub fn report_failure_as<I, O: CountedWrite, E: CountedWrite>(
    alloc: Global,
    command: &str,
    failure: Failure<'_>,
    json: bool,
    streams: &mut Streams<I, O, E>,
) -> Outcome
    ensures outcome { result ≡ outcome_of failure.entry }
    ensures prints { PrintsFailure json (outcome_of failure.entry) (O.output streams.old.out)
        (O.output streams.new.out) }
    ensures says { SaysFailure json command.entry failure.entry (O.output streams.old.out)
        (O.output streams.new.out) }
{
    print_failure_as(alloc, command, failure, json, &mut streams.out);
    report_failure(failure, streams.is_terminal, &mut streams.err)
}

/// Returns the name of a task's command, if its failures are printed as objects; a batch prints its
/// own.
fn command_with_objects(task: &Task<'_>) -> Option<&'static str>
    ensures { option_map (λ name. name.now) result ≡ object_command task.now }
{
    match task {
        Task::Retime(retiming) if retiming.json => Some("retime"),
        Task::Move(moving) if moving.json => Some(moving.kind.command()),
        Task::Stat(counting) if counting.json => Some("stat"),
        Task::Same(comparison) if comparison.json => Some("same"),
        Task::Verify(verification) if verification.json => Some("verify"),
        _ => None,
    }
}

/// Returns true if a task gives standard output a circuit or certificates. Objects then go to
/// standard error.
fn prints_aside(task: &Task<'_>) -> bool
    ensures { result ≡ wanted.prints_aside task.now }
{
    match task {
        Task::Retime(retiming) => retiming.takes_stdout(),
        Task::Move(moving) => moving.takes_stdout(),
        _ => false,
    }
}

/// Prints why a task failed as an object of JSON, if the task asks for objects. A failed write
/// changes nothing.
fn print_object<O: CountedWrite, E: CountedWrite>(
    alloc: Global,
    task: &Task<'_>,
    failure: Failure<'_>,
    out: &mut O,
    err: &mut E,
)
    ensures prints { PrintsFailure false (outcome_of failure.entry) (O.output out.old)
        (O.output out.new)
        ⊎ PrintsFailure true (outcome_of failure.entry) (O.output out.old) (O.output out.new) }
    ensures says { SaysWhy task.now failure.entry (O.output out.old) (O.output out.new) }
{
    let Some(command) = command_with_objects(task) else {
        return;
    };
    if prints_aside(task) {
        print_failure(alloc, command, failure, err);
    } else {
        print_failure(alloc, command, failure, out);
    }
}

/// Returns true if a picture is of the neighbourhood of this name.
fn is_around(drawing: &Drawing<'_>, name: &str) -> bool
    ensures { result ≡ wanted.is_around drawing.now name.now }
{
    match drawing.around {
        Some(around) => around == name,
        None => false,
    }
}

/// Returns true if a failure is that nothing has the name whose neighbourhood the picture is of.
fn lacks_middle(drawing: &Drawing<'_>, failure: Failure<'_>) -> bool
    ensures { result ≡ wanted.lacks_middle drawing.now failure.entry }
{
    match failure {
        Failure::NoSuchName(_, name) => is_around(drawing, name),
        _ => false,
    }
}

/// Returns true if the name that a failure is about may be that of anything, and not of a latch
/// alone.
fn is_of_all(task: &Task<'_>, failure: Failure<'_>) -> bool
    ensures { result ≡ wanted.is_of_all task.now failure.entry }
{
    match task {
        Task::Dot(drawing) => lacks_middle(drawing, failure),
        _ => false,
    }
}

/// Returns true if a failure is of a file that the task writes.
fn is_of_written(task: &Task<'_>, failure: Failure<'_>) -> bool {
    match failure {
        Failure::Device(path) => is_written(task, path),
        _ => false,
    }
}

/// Returns what is known of a failure beside its fixed text.
pub fn told_of<'a>(failure: Failure<'a>, of_all: bool, is_written: bool) -> Told<'a> {
    let fault = fault_of(failure);
    Told {
        failure,
        fault: fault.name(),
        offset: fault.offset(),
        of_all,
        is_written,
    }
}

/// Tells on a terminal if the lines of a batch's list end with carriage returns.
fn tell_of_list<R: Files, E: CountedWrite>(
    rt: &R,
    task: &Task<'_>,
    is_terminal: bool,
    err: &mut E,
) {
    if let Task::Batch(batch) = task {
        tell_returns(rt, batch.list, is_terminal, err);
    }
}

/// Tells on a terminal of each file of names whose lines end with carriage returns, if a file was
/// refused.
fn tell_of_name_files<R: Files, E: CountedWrite>(
    rt: &R,
    task: &Task<'_>,
    outcome: Outcome,
    is_terminal: bool,
    err: &mut E,
) {
    if outcome == Outcome::Refused {
        for names in task.name_files() {
            tell_returns(rt, *names, is_terminal, err);
        }
    }
}

/// Returns how a task ends. If it failed, reports why: as an object too if the task asks for
/// objects, and with a hint on a terminal.
pub fn reported<'a, R: Files, I, O: CountedWrite, E: CountedWrite>(
    rt: &R,
    alloc: Global,
    task: &Task<'a>,
    ended: Result<Outcome, Failure<'a>>,
    streams: &mut Streams<I, O, E>,
) -> Outcome
    ensures outcome { result ≡ ending ended.entry }
    ensures prints { MayRefuse ended.entry (O.output streams.old.out) (O.output streams.new.out) }
    ensures says { IfErr ended.entry (λ failure. SaysWhy task.now failure (O.output streams.old.out)
        (O.output streams.new.out)) }
{
    let is_terminal = streams.is_terminal;
    tell_of_list(rt, task, is_terminal, &mut streams.err);
    match ended {
        Ok(outcome) => {
            advise(rt, task, outcome, is_terminal, &mut streams.err);
            outcome
        }
        Err(failure) => {
            print_object(alloc, task, failure, &mut streams.out, &mut streams.err);
            let outcome = report_failure(failure, is_terminal, &mut streams.err);
            let of_all = is_of_all(task, failure);
            let told = told_of(failure, of_all, is_of_written(task, failure));
            give_hint(rt, alloc, &told, is_terminal, &mut streams.err);
            tell_of_name_files(rt, task, outcome, is_terminal, &mut streams.err);
            outcome
        }
    }
}
