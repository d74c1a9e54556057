//! All of a run but the process. Streams, files, clock and threads are the caller's, so clauses can
//! say what a run leaves in them.
ghost use Rattle.std.specs.Prelude.{◌≡◌, ◌≢◌, ◌⊎◌, ◌≤◌, IfOk};
ghost use Rattle.std.specs.IoError.{error_kind};
ghost use Rattle.std.specs.declared.io.ErrorKind.TheVariants as kinds;
ghost use Rattle.circuit_files.specs.WrittenFiles.{IsFileGiven};
ghost use Rattle.circuit_files.specs.declared.outcome.Outcome.TheVariants.{Refused, Memory};
ghost use Rattle.command_endings.specs.Printing.{Prints, ending};
ghost use Rattle.commands.specs.Verifying.{PrintsAuditOf};
ghost use Rattle.map_commands.specs.Checking.{PrintsCheck};
ghost use Rattle.fretime.specs.Runs.{Does, MayGive, MayPrint, PrintsFilesOrRefusal, PrintsShapes};

use crate::batch::retime_list;
use crate::clashes::clash_error;
use crate::explaining::explain;
use crate::reporting::{report_failure, reported};
use crate::usage::refuse_line;
use circuit_files::{Failure, Message, Outcome, OutputFiles};
use command_endings::{NameFile, hold_names, read_name_files};
use command_line::{Checking, Task, Verification, parse_arguments};
use commands::{convert, print_retimed, print_statistics, print_verification, write_picture};
use counted_io::{Buffered, CountedRead, CountedWrite, Streams};
use map_commands::{print_check, write_lifted, write_miter};
use moving_commands::print_moves;
use simulation_commands::{print_comparison, print_simulation, print_witness_back};
use std::alloc::Global;
use std::fmt::Write;
use std::io;
use std::rt::Files;
use std::thread::Threads;
use std::time::Clock;

/// Checks certificates; what is told of a file that has none is shown as a terminal may have it.
fn verify<'a, R: Files, I: CountedRead, O: CountedWrite, E: CountedWrite>(
    rt: &R,
    alloc: Global,
    task: &Verification<'a>,
    streams: &mut Streams<I, O, E>,
) -> Result<Outcome, Failure<'a>>
    ensures audit { IfOk result (PrintsAuditOf task.now (I.input streams.old.stdin) (I.input streams.new.stdin)
        (O.output streams.old.out) (O.output streams.new.out)) }
    ensures prints { Prints (ending result) (O.output streams.old.out) (O.output streams.new.out) }
{
    let mut told = Message::new(&mut streams.err, streams.is_terminal);
    let printed = print_verification(
        rt,
        alloc,
        task,
        &mut streams.stdin,
        &mut streams.out,
        &mut told,
    );
    told.send();
    printed
}

/// Checks a circuit against another one; on a terminal it is shown how far that came.
fn check<'a, R: Files, I: CountedRead, O: CountedWrite, E: CountedWrite>(
    rt: &R,
    alloc: Global,
    task: &Checking<'a>,
    streams: &mut Streams<I, O, E>,
) -> Result<Outcome, Failure<'a>>
    ensures check { IfOk result (PrintsCheck task.now (I.input streams.old.stdin) (I.input streams.new.stdin)
        (O.output streams.old.out) (O.output streams.new.out)) }
    ensures prints { Prints (ending result) (O.output streams.old.out) (O.output streams.new.out) }
{
    let mut told = String::new(alloc);
    let printed = print_check(
        rt,
        alloc,
        task,
        &mut streams.stdin,
        &mut streams.out,
        &mut told,
    );
    if streams.is_terminal {
        let mut message = Message::new(&mut streams.err, true);
        let _ = message.write_str(told.as_str());
        message.send();
    }
    drop(told);
    printed
}

/// Does what the command line asks for.
fn run_task<
    'a,
    R: Files + OutputFiles + Threads + Sync + Clock,
    I: CountedRead,
    O: CountedWrite,
    E: CountedWrite,
>(
    rt: &R,
    alloc: Global,
    task: &Task<'a>,
    streams: &mut Streams<I, O, E>,
) -> Result<Outcome, Failure<'a>>
    ensures does { IfOk result (Does (IsFileGiven R.Output.contents R.is_made R.is_let_go) task.now
        streams.old.is_terminal (I.input streams.old.stdin) (I.input streams.new.stdin)
        (O.output streams.old.out) (O.output streams.new.out) (E.output streams.new.err)) }
    ensures prints { MayGive result (O.output streams.old.out) (O.output streams.new.out) }
{
    let stdin = &mut streams.stdin;
    let out = &mut streams.out;
    match task {
        Task::Retime(retiming) => print_retimed(rt, alloc, retiming, streams),
        Task::Move(moving) => print_moves(rt, alloc, moving, streams),
        Task::Batch(batch) => Ok(retime_list(rt, alloc, batch, streams)),
        Task::Stat(counting) => print_statistics(rt, alloc, counting, stdin, out),
        Task::Convert(input, output, spelling) => {
            convert(rt, alloc, *input, *output, *spelling, stdin, out)
        }
        Task::Sim(simulation) => print_simulation(rt, alloc, simulation, stdin, out),
        Task::Same(comparison) => print_comparison(rt, alloc, comparison, stdin, out),
        Task::Verify(verification) => verify(rt, alloc, verification, streams),
        Task::Check(checking) => check(rt, alloc, checking, streams),
        Task::Miter(asking) => write_miter(rt, alloc, asking, stdin, out),
        Task::Product(asking) => write_miter(rt, alloc, asking, stdin, out),
        Task::Lift(lifting) => write_lifted(rt, alloc, lifting, stdin, out),
        Task::Dot(drawing) => write_picture(rt, alloc, drawing, streams),
        Task::Witness(carrying) => print_witness_back(rt, alloc, carrying, stdin, out),
        Task::Explain(name) => explain(alloc, *name, streams),
    }
}

/// Reports that the command-line arguments can't be read (out of memory, or not UTF-8), and returns
/// the exit status. A failed write changes nothing.
pub fn report_unreadable_arguments<E: CountedWrite>(error: &io::Error, err: &mut E) -> u8
    ensures memory { error_kind error.now ≡ kinds.OutOfMemory → result ≡ 4 }
    ensures mistake { error_kind error.now ≢ kinds.OutOfMemory → result ≡ 2 }
{
    if error.kind() == io::ErrorKind::OutOfMemory {
        return report_failure(Failure::Memory, false, err).status();
    }
    let mut out = Buffered::new(err);
    let _ = writeln!(out, "error: an argument is not UTF-8");
    let _ = out.flush();
    Outcome::CommandLine.status()
}

/// Does a task, unless the names that it holds couldn't be had, reports why it failed, and returns
/// how the run ends.
fn finish_task<
    'a,
    R: Files + OutputFiles + Threads + Sync + Clock,
    I: CountedRead,
    O: CountedWrite,
    E: CountedWrite,
>(
    rt: &R,
    alloc: Global,
    task: &Task<'a>,
    held: Result<(), Failure<'a>>,
    streams: &mut Streams<I, O, E>,
) -> Outcome
    ensures { MayPrint result (O.output streams.old.out) (O.output streams.new.out) }
{
    match held {
        Ok(()) => {
            let ended = run_task(rt, alloc, task, streams);
            reported(rt, alloc, task, ended, streams)
        }
        Err(failure) => reported(rt, alloc, task, Err(failure), streams),
    }
}

/// Returns a task with the names of these files held too, or why it can't hold them.
fn with_names<'a>(
    files: &'a [NameFile<'a>],
    task: Task<'a>,
) -> (Task<'a>, Result<(), Failure<'a>>) {
    let mut named = task;
    let held = hold_names(files, &mut named);
    (named, held)
}

/// Does a task with the names of the files that it names, and returns how the run ends.
fn run_with_names<
    R: Files + OutputFiles + Threads + Sync + Clock,
    I: CountedRead,
    O: CountedWrite,
    E: CountedWrite,
>(rt: &R, alloc: Global, task: Task<'_>, streams: &mut Streams<I, O, E>) -> Outcome
    ensures { MayPrint result (O.output streams.old.out) (O.output streams.new.out) }
{
    match read_name_files(rt, alloc, task.name_files(), &mut streams.stdin) {
        Ok(files) => {
            let (named, held) = with_names(files.as_slice(), task);
            let outcome = finish_task(rt, alloc, &named, held, streams);
            drop(named);
            drop(files);
            outcome
        }
        Err(failure) => {
            let outcome = finish_task(rt, alloc, &task, Err(failure), streams);
            drop(task);
            outcome
        }
    }
}

/// Does a task, unless two of its files are one, and returns how the run ends.
fn run_apart<
    R: Files + OutputFiles + Threads + Sync + Clock,
    I: CountedRead,
    O: CountedWrite,
    E: CountedWrite,
>(rt: &R, alloc: Global, task: Task<'_>, streams: &mut Streams<I, O, E>) -> Outcome
    ensures { MayPrint result (O.output streams.old.out) (O.output streams.new.out) }
{
    match clash_error(rt, alloc, &task) {
        Some(error) => {
            drop(task);
            refuse_line(error, streams.is_terminal, &mut streams.err)
        }
        None => run_with_names(rt, alloc, task, streams),
    }
}

/// Returns the words, but for a flag that asks for the help of `help`, which is that of the
/// program.
fn without_flag_of_help(words: &[String]) -> &[String] {
    if words.len() != 3 {
        return words;
    }
    let flag = words[2].as_str();
    let is_flag = (words[1].as_str() == "help") & ((flag == "--help") | (flag == "-h"));
    if is_flag { &words[..2] } else { words }
}

/// Does what the arguments ask for, and returns how the run ends.
fn run_line<
    R: Files + OutputFiles + Threads + Sync + Clock,
    I: CountedRead,
    O: CountedWrite,
    E: CountedWrite,
>(rt: &R, alloc: Global, words: &[String], streams: &mut Streams<I, O, E>) -> Outcome
    ensures { MayPrint result (O.output streams.old.out) (O.output streams.new.out) }
{
    match parse_arguments(alloc, without_flag_of_help(words)) {
        Ok(task) => run_apart(rt, alloc, task, streams),
        Err(error) => refuse_line(error, streams.is_terminal, &mut streams.err),
    }
}

/// Runs the program on these arguments, its own name first, and returns the exit status. It is 0
/// for done, 1 for a file that is refused, or circuits that can't be compared. It is 2 for the
/// command line, 3 for a device, 4 for memory. It is 5 for circuits that differ, or a certificate
/// that is rejected.
///
/// What was done is printed to standard output once the file is written; of a batch, file by file.
/// If a circuit or certificates are written there, that is printed to standard error. Why nothing
/// was done goes to standard error, and so do help and the version. A failed write there doesn't
/// change the status. On a terminal a refused circuit's line at fault follows, and a retiming shows
/// what it does. The texts on standard error are only tested.
pub fn run_words<
    R: Files + OutputFiles + Threads + Sync + Clock,
    I: CountedRead,
    O: CountedWrite,
    E: CountedWrite,
>(rt: &R, alloc: Global, words: &[String], streams: &mut Streams<I, O, E>) -> u8
    ensures status { result ≤ 5 }
    ensures refused { (result ≡ 1) → (O.output streams.new.out ≡ O.output streams.old.out)
        ⊎ PrintsShapes (O.output streams.old.out) (O.output streams.new.out)
        ⊎ PrintsFilesOrRefusal Refused (O.output streams.old.out) (O.output streams.new.out) }
    ensures quiet { (result ≡ 2) → O.output streams.new.out ≡ O.output streams.old.out }
    ensures memory { (result ≡ 4) → (O.output streams.new.out ≡ O.output streams.old.out)
        ⊎ PrintsFilesOrRefusal Memory (O.output streams.old.out) (O.output streams.new.out) }
{
    run_line(rt, alloc, words, streams).status()
}
