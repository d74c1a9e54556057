//! The command `batch`.
ghost use Rattle.std.specs.Prelude.{◌≡◌, ◌<◌, ◌≤◌, ◌⊎◌, ◌+◌, All, false, IfErr, IfOk, MatchResult, OnOk, codes, None, length, map};
ghost use Rattle.counted_io.specs.Output.{WritesAll};
ghost use Rattle.reports.specs.Batches.{job_line};
ghost use Rattle.circuit_files.specs.Outcomes.{outcome_of};
ghost use Rattle.circuit_files.specs.WrittenFiles.{IsFileGiven};
ghost use Rattle.circuit_files.specs.declared.outcome.Outcome.TheVariants.{Device, Memory};
ghost use Rattle.fretime.specs.Answers.{AreAllWritten, FailsAt, IsOfInput, IsOfOutputs, IsWritten, NamesFile, report_at};
ghost use Rattle.fretime.specs.Reporting.{PrintsFailure, SaysFailureBy};
ghost use Rattle.fretime.specs.Batches.{AreOutcomesFor, Printed, PrintsList};
ghost use Rattle.fretime.specs.Batches as wanted;
ghost use Rattle.clap.specs.Values.{kind_of};
ghost use Rattle.clap.specs.declared.error.kind.ErrorKind.TheVariants.{ArgumentConflict, OutOfMemory};
ghost use Rattle.file_identities.specs.ListFiles.{IsListClash};

use crate::answers::{Answer, answers_of, write_answer};
use crate::batch_object::finish_as_object;
use crate::clashes::list_clash_error;
use crate::reporting::{report_failure_as, told_of};
use crate::usage::report_usage;
use batch_pool::{Job, run_batch};
use circuit_files::{
    Entry, Failure, Message, Outcome, OutputFiles, bytes_at, bytes_of_file, give_hint, read_list,
};
use clap::Error;
use clap::error::ErrorKind;
use command_endings::run_options;
use command_line::Batch;
use counted_io::{CountedRead, CountedWrite, Source, Streams};
use file_identities::repeated_output;
use pulse::{Crew, OpenGate};
use reports::{JobReport, print_job};
use std::alloc::Global;
use std::fmt::Write;
use std::rt::Files;
use std::thread::Threads;

/// The most workers of a crew.
const MOST_WORKERS: u32 = 64;

/// Reads the file of an entry, for one more job.
fn read_job<'a, R: Files>(
    rt: &R,
    alloc: Global,
    entry: &Entry<'a>,
    jobs: &mut Vec<Job>,
) -> Result<(), Failure<'a>>
    ensures ok { OnOk result (length jobs.new.items ≡ length jobs.old.items + 1) }
    ensures named { IfErr result (NamesFile entry.now.input.now) }
{
    match bytes_of_file(rt, alloc, entry.input) {
        Ok(bytes) => match jobs.push(Job { bytes }) {
            Ok(()) => Ok(()),
            Err(_) => Err(Failure::Memory),
        },
        Err(failure) => Err(failure),
    }
}

/// Reads the files of the entries, all of them.
fn read_jobs<'a, R: Files>(
    rt: &R,
    alloc: Global,
    entries: &[Entry<'a>],
) -> Result<Vec<Job>, Failure<'a>>
    ensures ok { IfOk result (λ jobs. length jobs.items ≡ length entries.now) }
    ensures named { IfErr result (IsOfInput entries.now) }
{
    let mut jobs = Vec::new(alloc);
    for entry in entries {
        read_job(rt, alloc, entry, &mut jobs)?;
    }
    Ok(jobs)
}

/// Returns a crew of as many workers as are asked for.
fn crew(task: &Batch<'_>) -> Crew<OpenGate>
    ensures { 0 < task.now.workers → task.now.workers ≤ 64
        → result.workers ≡ task.now.workers }
{
    Crew::new(task.workers.clamp(1, MOST_WORKERS), OpenGate)
}

/// Returns the outcomes of the jobs.
fn run_jobs<'a, R: Threads + Sync>(
    rt: &R,
    alloc: Global,
    jobs: &[Job],
    task: &Batch<'_>,
) -> Result<Vec<batch_pool::Outcome>, Failure<'a>>
    ensures { IfOk result (λ outcomes. AreOutcomesFor task.now jobs.now outcomes.items) }
{
    let asked = &task.options;
    let Ok(options) = run_options(alloc, asked, asked.frames, false) else {
        return Err(Failure::Memory);
    };
    let crew = crew(task);
    let ran = run_batch(rt, alloc, jobs, &options, &crew);
    drop(options);
    match ran {
        Ok(outcomes) => Ok(outcomes),
        Err(_) => Err(Failure::Memory),
    }
}

/// Returns the outcomes of the files of the entries.
fn outcomes<'a, R: Files + Threads + Sync>(
    rt: &R,
    alloc: Global,
    entries: &[Entry<'a>],
    task: &Batch<'_>,
) -> Result<Vec<batch_pool::Outcome>, Failure<'a>>
    ensures { IfOk result (λ outcomes. length outcomes.items ≡ length entries.now) }
{
    match read_jobs(rt, alloc, entries) {
        Ok(jobs) => {
            let ran = run_jobs(rt, alloc, jobs.as_slice(), task);
            drop(jobs);
            ran
        }
        Err(failure) => Err(failure),
    }
}

/// Returns what is printed of an outcome.
pub(crate) fn report_of(outcome: &batch_pool::Outcome) -> JobReport
    ensures { result ≡ wanted.report_of outcome.now }
{
    match outcome {
        batch_pool::Outcome::Done { before, after, .. } => JobReport::Done(*before, *after),
        batch_pool::Outcome::Refused(fault) => JobReport::Refused(*fault),
        batch_pool::Outcome::NoMemory => JobReport::NoMemory,
        batch_pool::Outcome::NoSuchName(_) => JobReport::NoSuchName,
        batch_pool::Outcome::NoSuchLatch(_) => JobReport::NoSuchLatch,
        batch_pool::Outcome::Misread(_) => JobReport::Misread,
        batch_pool::Outcome::NotShown(_) => JobReport::NotShown,
    }
}

fn print_report<'a, O: CountedWrite>(
    number: u64,
    report: JobReport,
    out: &mut O,
) -> Result<(), Failure<'a>>
    ensures { MatchResult result (λ _. WritesAll (O.output out.old) (O.output out.new)
        (job_line number report)) (FailsAt (codes "stdout")) }
{
    match print_job(number, report, out) {
        Ok(()) => Ok(()),
        Err(_) => Err(Failure::Device("stdout")),
    }
}

/// Writes the circuit of a job, and then prints its line.
fn finish_job<'a, R: OutputFiles, O: CountedWrite>(
    rt: &R,
    answer: &Answer<'a>,
    number: u64,
    out: &mut O,
) -> Result<JobReport, Failure<'a>>
    ensures ok { IfOk result (λ report. (report ≡ report_at answer.now)
        × WritesAll (O.output out.old) (O.output out.new) (job_line number report)) }
    ensures written { OnOk result
        (IsWritten (IsFileGiven R.Output.contents R.is_made R.is_let_go) answer.now) }
    ensures named { IfErr result (λ failure. FailsAt answer.now.output.now failure
        ⊎ FailsAt (codes "stdout") failure) }
    ensures quiet { IfErr result (λ failure. (O.output out.new ≡ O.output out.old)
        ⊎ FailsAt (codes "stdout") failure) }
{
    match write_answer(rt, answer) {
        Ok(()) => {
            let report = report_of(answer.outcome);
            match print_report(number, report, out) {
                Ok(()) => Ok(report),
                Err(failure) => Err(failure),
            }
        }
        Err(failure) => Err(failure),
    }
}

/// Returns how a batch ends after one more job.
pub(crate) fn after(ended: Outcome, report: JobReport) -> Outcome
    ensures { result ≡ wanted.after ended report }
{
    match ended {
        Outcome::Done => match report {
            JobReport::Done(_, _) => Outcome::Done,
            JobReport::Refused(_)
            | JobReport::NoSuchName
            | JobReport::NoSuchLatch
            | JobReport::Misread
            | JobReport::NotShown => Outcome::Refused,
            JobReport::NoMemory => Outcome::Memory,
        },
        ended => ended,
    }
}

/// Writes the circuits and prints the lines of all jobs in their order, and returns how the batch
/// ends.
fn finish_jobs<'a, R: OutputFiles, O: CountedWrite>(
    rt: &R,
    answers: &[Answer<'a>],
    out: &mut O,
) -> Result<Outcome, Failure<'a>>
    ensures ok { IfOk result (λ ended. Printed false (map report_at answers.now) ended
        (O.output out.old) (O.output out.new)) }
    ensures written { OnOk result
        (All (IsWritten (IsFileGiven R.Output.contents R.is_made R.is_let_go)) answers.now) }
    ensures named { IfErr result (IsOfOutputs answers.now) }
{
    let mut ended = Outcome::Done;
    for (k, answer) in answers.iter().enumerate() {
        let report = finish_job(rt, answer, 1 + k as u64, out)?;
        ended = after(ended, report);
    }
    Ok(ended)
}

/// Writes the circuits of all jobs, prints the files as an object of JSON or in lines, and returns
/// how the batch ends.
fn finish<'a, R: OutputFiles, O: CountedWrite>(
    rt: &R,
    alloc: Global,
    answers: &[Answer<'a>],
    json: bool,
    out: &mut O,
) -> Result<Outcome, Failure<'a>>
    ensures ok { IfOk result (λ ended. Printed json (map report_at answers.now) ended
        (O.output out.old) (O.output out.new)) }
    ensures written { OnOk result
        (All (IsWritten (IsFileGiven R.Output.contents R.is_made R.is_let_go)) answers.now) }
    ensures err { IfErr result (λ failure. (outcome_of failure ≡ Device)
        ⊎ ((outcome_of failure ≡ Memory) × (O.output out.new ≡ O.output out.old))) }
{
    if json {
        finish_as_object(rt, alloc, answers, out)
    } else {
        finish_jobs(rt, answers, out)
    }
}

/// Writes and prints what became of the files of the entries, and returns how the batch ends.
fn finish_entries<'a, R: OutputFiles, O: CountedWrite>(
    rt: &R,
    alloc: Global,
    entries: &'a [Entry<'a>],
    outcomes: &'a [batch_pool::Outcome],
    task: &Batch<'_>,
    out: &mut O,
) -> Result<Outcome, Failure<'a>>
    requires each { length outcomes.now ≡ length entries.now }
    requires apart { IsListClash task.now.list entries.now None }
    ensures ok { IfOk result
        (λ ended. Printed task.now.json (map wanted.report_of outcomes.now) ended
        (O.output out.old) (O.output out.new)) }
    ensures written { OnOk result
        (AreAllWritten (IsFileGiven R.Output.contents R.is_made R.is_let_go)
        entries.now outcomes.now) }
    ensures err { IfErr result (λ failure. (outcome_of failure ≡ Device)
        ⊎ ((outcome_of failure ≡ Memory) × (O.output out.new ≡ O.output out.old))) }
{
    match answers_of(alloc, entries, outcomes) {
        Ok(answers) => {
            let finished = finish(rt, alloc, answers.as_slice(), task.json, out);
            drop(answers);
            finished
        }
        Err(_) => Err(Failure::Memory),
    }
}

/// Reports why the batch ended, also as an object of JSON if that is asked for, and with a hint on
/// a terminal.
fn refuse<R: Files, I, O: CountedWrite, E: CountedWrite>(
    rt: &R,
    alloc: Global,
    task: &Batch<'_>,
    failure: Failure<'_>,
    is_written: bool,
    streams: &mut Streams<I, O, E>,
) -> Outcome
    ensures outcome { result ≡ outcome_of failure.entry }
    ensures prints { PrintsFailure task.now.json (outcome_of failure.entry)
        (O.output streams.old.out) (O.output streams.new.out) }
    ensures says { SaysFailureBy task.now.json (codes "batch") failure.entry
        (O.output streams.old.out) (O.output streams.new.out) }
{
    let outcome = report_failure_as(alloc, "batch", failure, task.json, streams);
    let told = told_of(failure, false, is_written);
    give_hint(rt, alloc, &told, streams.is_terminal, &mut streams.err);
    outcome
}

/// Writes and prints what became of the files of the entries, or reports why that failed.
fn finish_or_refuse<R: Files + OutputFiles, I, O: CountedWrite, E: CountedWrite>(
    rt: &R,
    alloc: Global,
    entries: &[Entry<'_>],
    outcomes: &[batch_pool::Outcome],
    task: &Batch<'_>,
    streams: &mut Streams<I, O, E>,
) -> Outcome
    requires each { length outcomes.now ≡ length entries.now }
    requires apart { IsListClash task.now.list entries.now None }
    ensures { PrintsList task.now.json result (O.output streams.old.out)
        (O.output streams.new.out) }
{
    match finish_entries(rt, alloc, entries, outcomes, task, &mut streams.out) {
        Ok(ended) => ended,
        Err(failure) => refuse(rt, alloc, task, failure, true, streams),
    }
}

/// Does the jobs of the entries, no two of whose files are one, so that something would be lost.
fn retime_entries<R: Files + OutputFiles + Threads + Sync, I, O: CountedWrite, E: CountedWrite>(
    rt: &R,
    alloc: Global,
    entries: &[Entry<'_>],
    task: &Batch<'_>,
    streams: &mut Streams<I, O, E>,
) -> Outcome
    requires { IsListClash task.now.list entries.now None }
    ensures { PrintsList task.now.json result (O.output streams.old.out)
        (O.output streams.new.out) }
{
    match outcomes(rt, alloc, entries, task) {
        Ok(outcomes) => {
            let ended = finish_or_refuse(rt, alloc, entries, outcomes.as_slice(), task, streams);
            drop(outcomes);
            ended
        }
        Err(failure) => refuse(rt, alloc, task, failure, false, streams),
    }
}

/// Refuses a line of which two files are one: nothing was written.
fn refuse_clash<R: Files, I, O: CountedWrite, E: CountedWrite>(
    rt: &R,
    alloc: Global,
    error: Error,
    task: &Batch<'_>,
    streams: &mut Streams<I, O, E>,
) -> Outcome
    requires { (kind_of error ≡ ArgumentConflict) ⊎ (kind_of error ≡ OutOfMemory) }
    ensures { PrintsList task.now.json result (O.output streams.old.out)
        (O.output streams.new.out) }
{
    if error.kind() == ErrorKind::OutOfMemory {
        drop(error);
        return refuse(rt, alloc, task, Failure::Memory, false, streams);
    }
    let outcome = report_usage(&error, streams.is_terminal, &mut streams.err);
    drop(error);
    outcome
}

/// Tells a terminal that a line writes the file of a line before it.
fn tell_repeat<R: Files, E: CountedWrite>(
    rt: &R,
    alloc: Global,
    entries: &[Entry<'_>],
    list: Source<'_>,
    is_terminal: bool,
    err: &mut E,
) {
    if !is_terminal {
        return;
    }
    if let Some(line) = repeated_output(rt, alloc, entries) {
        let mut message = Message::new(err, true);
        let _ = writeln!(
            message,
            "{}: line {line} writes the file of a line before it: the later circuit stands",
            list.name()
        );
        message.send();
    }
}

/// Does the jobs of the entries, unless two files of a line are one.
fn retime_apart<R: Files + OutputFiles + Threads + Sync, I, O: CountedWrite, E: CountedWrite>(
    rt: &R,
    alloc: Global,
    entries: &[Entry<'_>],
    task: &Batch<'_>,
    streams: &mut Streams<I, O, E>,
) -> Outcome
    ensures { PrintsList task.now.json result (O.output streams.old.out)
        (O.output streams.new.out) }
{
    match list_clash_error(rt, alloc, task.list, entries) {
        Some(error) => refuse_clash(rt, alloc, error, task, streams),
        None => {
            let is_terminal = streams.is_terminal;
            tell_repeat(rt, alloc, entries, task.list, is_terminal, &mut streams.err);
            retime_entries(rt, alloc, entries, task, streams)
        }
    }
}

/// Does the jobs of a list's bytes.
fn retime_lines<R: Files + OutputFiles + Threads + Sync, I, O: CountedWrite, E: CountedWrite>(
    rt: &R,
    alloc: Global,
    bytes: &[u8],
    task: &Batch<'_>,
    streams: &mut Streams<I, O, E>,
) -> Outcome
    ensures { PrintsList task.now.json result (O.output streams.old.out)
        (O.output streams.new.out) }
{
    match read_list(alloc, bytes) {
        Ok(entries) => {
            let ended = retime_apart(rt, alloc, entries.as_slice(), task, streams);
            drop(entries);
            ended
        }
        Err(error) => {
            let failure = Failure::of_list(error, task.list.name());
            refuse(rt, alloc, task, failure, false, streams)
        }
    }
}

/// Reads a list and all its files, of which `-` is one as any other, and retimes them. Then, job by
/// job, writes its circuit and prints its line, or writes all and prints one object. Reports why it
/// ended before that, also if two files of a line are one, so that something would be lost. Returns
/// how the run ends.
pub fn retime_list<
    R: Files + OutputFiles + Threads + Sync,
    I: CountedRead,
    O: CountedWrite,
    E: CountedWrite,
>(rt: &R, alloc: Global, task: &Batch<'_>, streams: &mut Streams<I, O, E>) -> Outcome
    ensures { PrintsList task.now.json result (O.output streams.old.out)
        (O.output streams.new.out) }
{
    match bytes_at(rt, alloc, task.list, &mut streams.stdin) {
        Ok(bytes) => {
            let ended = retime_lines(rt, alloc, bytes.as_slice(), task, streams);
            drop(bytes);
            ended
        }
        Err(failure) => refuse(rt, alloc, task, failure, false, streams),
    }
}
