//! The command `retime`.
ghost use Rattle.std.specs.Prelude.{◌≡◌, ◌⊎◌, true, false, IfErr, IfOk, Ok, OnOk};
ghost use Rattle.certificate_files.specs.Texts.{file_text};
ghost use Rattle.counted_io.specs.Streams.{is_stdout};
ghost use Rattle.command_line.specs.StreamUses.{takes_stdout, writes_stdout};
ghost use Rattle.circuit_files.specs.Outcomes.{outcome_of};
ghost use Rattle.circuit_files.specs.WrittenFiles.{IsFileGiven, IsTargetGiven};
ghost use Rattle.circuit_files.specs.declared.outcome.Outcome.TheVariants.{Done};
ghost use Rattle.commands.specs.CertFiles.{file_of, with_file, without_file};
ghost use Rattle.commands.specs.Pipes.{IsAnswerAt, IsPipe, PrintsRetiming, WritesAnswer, WritesBeside, WritesCertificates, WritesPipe, WritesRetiming, blocks_text};
ghost use Rattle.command_endings.specs.Printing.{EndsAside, Prints, ending};
ghost use Rattle.commands.specs.RetimingTasks.{AreOptionsFor, EndsPrintingFrames, HasFailed, SaysFrames, remaining_of};
ghost use Rattle.command_line.specs.declared.task.Shown.TheVariants.{Nothing};

use crate::answer::{Answer, map_counts, map_written, retime_to};
use crate::classes::{classes_at, with_classes};
use aig_binary::SpeltCircuit;
use aig_graph::{Choice, NoMemory, Sequence};
use certificate_files::{CertFile, write_cert};
use circuit_files::{Failure, Outcome, OutputFiles, circuit_at, close, file_at};
use command_endings::{Progress, ended, run_options};
use command_line::{Retiming, Shown};
use counted_io::{CountedRead, CountedWrite, Streams, Target, WriteError};
use frame_runs::{FrameWatcher, Options};
use hold_counts::{Holding, print_holding};
use json_reports::Times;
use merging_rounds::Rounds;
use reports::{Remaining, print_remaining, print_retiming};
use std::alloc::Global;
use std::mem;
use std::rt::Files;
use std::thread::Threads;
use std::time::Clock;

/// Retimes the circuit that was read, and writes it to the target of the task.
fn retime_by<'a, R: OutputFiles + Threads + Sync, O: CountedWrite, V: FrameWatcher>(
    rt: &R,
    alloc: Global,
    task: &Retiming<'a>,
    options: &Options,
    spelt: SpeltCircuit,
    out: &mut O,
    watcher: &mut V,
) -> Result<Answer, Failure<'a>>
    requires { AreOptionsFor task.now options.now }
    ensures answer { IfOk result (IsAnswerAt (IsFileGiven R.Output.contents R.is_made R.is_let_go) task.now
        options.now spelt (O.output out.old) (O.output out.new)) }
    ensures file { is_stdout task.now.output ≡ false → O.output out.new ≡ O.output out.old }
    ensures prints { IfErr result (λ failure. Prints (outcome_of failure) (O.output out.old)
        (O.output out.new)) }
{
    match task.output {
        Target::Stdout => retime_to(rt, alloc, task, options, spelt, out, watcher),
        Target::File(path) => {
            let mut writer = file_at(rt, path);
            let answer = retime_to(rt, alloc, task, options, spelt, &mut writer, watcher);
            close(writer);
            answer
        }
    }
}

/// Reads the circuit of the task and the merged latches that are given. Retimes the circuit by
/// `options` with these, and writes it to the target of the task.
fn retime_read<
    'a,
    R: Files + OutputFiles + Threads + Sync,
    I: CountedRead,
    O: CountedWrite,
    V: FrameWatcher,
>(
    rt: &R,
    alloc: Global,
    task: &Retiming<'a>,
    options: Options,
    stdin: &mut I,
    out: &mut O,
    watcher: &mut V,
) -> Result<Answer, Failure<'a>>
    requires { AreOptionsFor task.now options }
    ensures answer { IfOk result (WritesAnswer (IsFileGiven R.Output.contents R.is_made R.is_let_go) task.now
        (I.input stdin.old) (O.output out.old) (O.output out.new)) }
    ensures file { is_stdout task.now.output ≡ false → O.output out.new ≡ O.output out.old }
    ensures prints { IfErr result (λ failure. Prints (outcome_of failure) (O.output out.old)
        (O.output out.new)) }
{
    match circuit_at(rt, alloc, task.input, stdin) {
        Ok(spelt) => match classes_at(rt, alloc, task, stdin) {
            Ok(classes) => {
                let options = with_classes(options, classes);
                retime_by(rt, alloc, task, &options, spelt, out, watcher)
            }
            Err(failure) => {
                drop(spelt);
                Err(failure)
            }
        },
        Err(failure) => Err(failure),
    }
}

fn retimed<
    'a,
    R: Files + OutputFiles + Threads + Sync,
    I: CountedRead,
    O: CountedWrite,
    V: FrameWatcher,
>(
    rt: &R,
    alloc: Global,
    task: &Retiming<'a>,
    stdin: &mut I,
    out: &mut O,
    watcher: &mut V,
) -> Result<Answer, Failure<'a>>
    ensures answer { IfOk result (WritesAnswer (IsFileGiven R.Output.contents R.is_made R.is_let_go) task.now
        (I.input stdin.old) (O.output out.old) (O.output out.new)) }
    ensures file { is_stdout task.now.output ≡ false → O.output out.new ≡ O.output out.old }
    ensures prints { IfErr result (λ failure. Prints (outcome_of failure) (O.output out.old)
        (O.output out.new)) }
{
    let asked = &task.options;
    match run_options(alloc, asked, asked.frames, task.certificates.is_some()) {
        Ok(options) => retime_read(rt, alloc, task, options, stdin, out, watcher),
        Err(_) => Err(Failure::Memory),
    }
}

/// Takes the certificates of a retiming by `choice` out of it, with the latches that it merged.
fn file_of(alloc: Global, choice: Choice, rounds: &mut Rounds) -> CertFile
    ensures file { result ≡ file_of choice rounds.old }
    ensures left { rounds.new ≡ without_file rounds.old }
{
    CertFile {
        choice,
        parts: mem::replace(&mut rounds.parts, Sequence::empty(alloc)),
    }
}

/// Puts a file of certificates back into the retiming that it was taken out of.
fn put_back(file: CertFile, rounds: &mut Rounds)
    ensures { rounds.new ≡ with_file file rounds.old }
{
    let CertFile { parts, .. } = file;
    drop(mem::replace(&mut rounds.parts, parts));
}

/// Writes a file of certificates to `target`.
fn write_certificates<R: OutputFiles, O: CountedWrite>(
    rt: &R,
    file: &CertFile,
    target: Target<'_>,
    out: &mut O,
) -> Result<(), WriteError>
    ensures given { OnOk result (IsTargetGiven (IsFileGiven R.Output.contents R.is_made R.is_let_go) target.entry
        (O.output out.old) (O.output out.new) (file_text file.now)) }
    ensures file { is_stdout target.entry ≡ false → O.output out.new ≡ O.output out.old }
{
    match target {
        Target::Stdout => write_cert(file, out),
        Target::File(path) => {
            let mut target_file = file_at(rt, path);
            let written = write_cert(file, &mut target_file);
            close(target_file);
            written
        }
    }
}

/// Writes the certificates if they are asked for, with the latches that were merged. The retiming
/// stays as it is.
fn certify<'a, R: OutputFiles, O: CountedWrite>(
    rt: &R,
    alloc: Global,
    task: &Retiming<'a>,
    rounds: &mut Rounds,
    out: &mut O,
) -> Result<(), Failure<'a>>
    ensures written { OnOk result (WritesCertificates (IsFileGiven R.Output.contents R.is_made R.is_let_go)
        task.now.certificates (blocks_text task.now rounds.old) (O.output out.old)
        (O.output out.new)) }
    ensures file { writes_stdout task.now.certificates ≡ false
        → O.output out.new ≡ O.output out.old }
    ensures rounds { rounds.new ≡ rounds.old }
    ensures err { IfErr result (HasFailed task.now.certificates) }
{
    let Some(target) = task.certificates else {
        return Ok(());
    };
    let file = file_of(alloc, task.options.choice, rounds);
    let written = write_certificates(rt, &file, target, out);
    put_back(file, rounds);
    match written {
        Ok(()) => Ok(()),
        Err(_) => Err(Failure::Device(target.name())),
    }
}

/// Writes the map and the certificates, each if it is asked for.
fn write_beside<'a, R: OutputFiles, O: CountedWrite>(
    rt: &R,
    alloc: Global,
    task: &Retiming<'a>,
    answer: &mut Answer,
    out: &mut O,
) -> Result<(), Failure<'a>>
    ensures written { OnOk result (WritesBeside (IsFileGiven R.Output.contents R.is_made R.is_let_go) task.now
        answer.old (O.output out.old) (O.output out.new)) }
    ensures file { writes_stdout task.now.map ≡ false → writes_stdout task.now.certificates
        ≡ false → O.output out.new ≡ O.output out.old }
    ensures answer { answer.new ≡ answer.old }
    ensures err { IfErr result (λ failure. HasFailed task.now.map failure ⊎ HasFailed task.now.certificates failure) }
{
    map_written(rt, task, answer, out)?;
    certify(rt, alloc, task, &mut answer.rounds, out)
}

/// An answer that was written, and how long each part took, if that was measured.
#[derive(Drop)]
struct Timed {
    answer: Answer,
    times: Option<Times>,
}

/// Retimes the circuit and writes it, and then the map and the certificates. Shows progress on
/// standard error until the circuit is written.
fn certified<
    'a,
    R: Files + OutputFiles + Threads + Sync + Clock,
    I: CountedRead,
    O: CountedWrite,
    E: CountedWrite,
>(
    rt: &R,
    alloc: Global,
    task: &Retiming<'a>,
    streams: &mut Streams<I, O, E>,
) -> Result<Timed, Failure<'a>>
    ensures written { IfOk result (λ timed. WritesRetiming (IsFileGiven R.Output.contents R.is_made R.is_let_go) task.now
        (I.input streams.old.stdin) (O.output streams.old.out) (O.output streams.new.out) timed.answer) }
    ensures file { takes_stdout task.now ≡ false → O.output streams.new.out ≡ O.output streams.old.out }
    ensures prints { IfErr result (λ failure. Prints (outcome_of failure) (O.output streams.old.out)
        (O.output streams.new.out)) }
{
    let mut progress = Progress::new(
        task.shown,
        task.json,
        streams.is_terminal,
        rt,
        alloc,
        &mut streams.err,
    );
    let ended = retimed(
        rt,
        alloc,
        task,
        &mut streams.stdin,
        &mut streams.out,
        &mut progress,
    );
    let times = progress.end();
    drop(progress);
    let mut answer = match ended {
        Ok(answer) => answer,
        Err(failure) => {
            drop(times);
            return Err(failure);
        }
    };
    match write_beside(rt, alloc, task, &mut answer, &mut streams.out) {
        Ok(()) => Ok(Timed { answer, times }),
        Err(failure) => {
            drop(answer);
            drop(times);
            Err(failure)
        }
    }
}

/// Counts the circuit that the retiming leaves, and why its latches don't move.
fn remaining(alloc: Global, task: &Retiming<'_>, answer: &Answer) -> Result<Remaining, NoMemory>
    ensures { IfOk result (λ left. left ≡ remaining_of task.now answer.now.levels.bound
        answer.now.rounds answer.now.keep) }
{
    let Answer {
        rounds,
        keep,
        levels,
        ..
    } = answer;
    let is_least = rounds.frames.len() < task.options.frames as usize;
    Remaining::of(alloc, &rounds.circuit, keep, levels.bound, is_least)
}

/// Prints the frames that were taken as an object of JSON.
fn print_object<'a, W: CountedWrite>(
    alloc: Global,
    task: &Retiming<'_>,
    timed: &Timed,
    writer: &mut W,
) -> Result<Outcome, Failure<'a>>
    ensures { EndsPrintingFrames true task.now timed.now.answer timed.now.times
        (W.output writer.old) (W.output writer.new) result }
{
    let Timed { answer, times } = timed;
    match remaining(alloc, task, answer) {
        Ok(left) => command_endings::print_retiming(
            alloc,
            &answer.rounds,
            answer.levels,
            &left,
            times.as_ref(),
            map_counts(answer),
            writer,
        ),
        Err(_) => Err(Failure::Memory),
    }
}

/// Prints the frames that were taken, as an object of JSON or in lines.
fn print_as<'a, W: CountedWrite>(
    alloc: Global,
    task: &Retiming<'_>,
    timed: &Timed,
    json: bool,
    writer: &mut W,
) -> Result<Outcome, Failure<'a>>
    ensures frames { EndsPrintingFrames json task.now timed.now.answer timed.now.times
        (W.output writer.old) (W.output writer.new) result }
    ensures prints { Prints (ending result) (W.output writer.old) (W.output writer.new) }
{
    if json {
        print_object(alloc, task, timed, writer)
    } else {
        ended(print_retiming(&timed.answer.rounds, writer), Outcome::Done)
    }
}

/// Tells how many registers hold of those that are left, if one does.
fn tell_holding<E: CountedWrite>(alloc: Global, answer: &Answer, err: &mut E) {
    if let Ok(holding) = Holding::of(alloc, answer.rounds.circuit.aig(), &answer.keep) {
        let _ = print_holding(&holding, err);
    }
}

/// Tells on a terminal why no more latches go, unless the task asks for an object of JSON or for
/// quiet. A write that fails changes nothing.
fn tell_remaining<E: CountedWrite>(
    alloc: Global,
    task: &Retiming<'_>,
    answer: &Answer,
    is_terminal: bool,
    err: &mut E,
)
    ensures aside { is_terminal ≡ false → E.output err.new ≡ E.output err.old }
    ensures quiet { task.now.shown ≡ Nothing → E.output err.new ≡ E.output err.old }
{
    if is_terminal && !task.json && task.shown != Shown::Nothing {
        if let Ok(left) = remaining(alloc, task, answer) {
            let _ = print_remaining(&left, err);
            tell_holding(alloc, answer, err);
        }
    }
}

/// Prints the frames that were taken to standard output.
///
/// If a circuit, a map or certificates went there, it prints them to standard error, and a write
/// that fails there changes nothing.
fn print_frames<'a, O: CountedWrite, E: CountedWrite>(
    alloc: Global,
    task: &Retiming<'_>,
    timed: &Timed,
    out: &mut O,
    err: &mut E,
) -> Result<Outcome, Failure<'a>>
    ensures aside { takes_stdout task.now ≡ true
        → EndsAside Done (O.output out.old) (O.output out.new) result }
    ensures says { takes_stdout task.now ≡ true → SaysFrames task.now timed.now.answer
        timed.now.times (E.output err.old) (E.output err.new) }
    ensures frames { takes_stdout task.now ≡ false → EndsPrintingFrames task.now.json task.now
        timed.now.answer timed.now.times (O.output out.old) (O.output out.new) result }
    ensures prints { takes_stdout task.now ≡ false
        → Prints (ending result) (O.output out.old) (O.output out.new) }
{
    if task.takes_stdout() {
        let _ = print_as(alloc, task, timed, task.json, err);
        Ok(Outcome::Done)
    } else {
        print_as(alloc, task, timed, task.json, out)
    }
}

/// Reads a circuit, and writes it retimed, with its map and its certificates if they are asked for.
/// Then prints the frames that were taken, as an object of JSON or in lines.
///
/// Shows progress as the task asks, and says on a terminal why no more latches go.
pub fn print_retimed<
    'a,
    R: Files + OutputFiles + Threads + Sync + Clock,
    I: CountedRead,
    O: CountedWrite,
    E: CountedWrite,
>(
    rt: &R,
    alloc: Global,
    task: &Retiming<'a>,
    streams: &mut Streams<I, O, E>,
) -> Result<Outcome, Failure<'a>>
    ensures frames { IfOk result (λ ended. PrintsRetiming (IsFileGiven R.Output.contents R.is_made R.is_let_go)
        task.now streams.old.is_terminal (I.input streams.old.stdin) (O.output streams.old.out) (O.output streams.new.out)
        (E.output streams.new.err) (Ok ended)) }
    ensures pipe { IfOk result (λ _. IsPipe task.now
        → WritesPipe task.now (I.input streams.old.stdin) (O.output streams.old.out) (O.output streams.new.out)) }
    ensures prints { Prints (ending result) (O.output streams.old.out) (O.output streams.new.out) }
{
    let is_terminal = streams.is_terminal;
    let timed = certified(rt, alloc, task, streams)?;
    let ended = print_frames(alloc, task, &timed, &mut streams.out, &mut streams.err);
    tell_remaining(alloc, task, &timed.answer, is_terminal, &mut streams.err);
    drop(timed);
    ended
}
