//! The answer of `retime`: the circuit that is read, retimed and written, with a map of states if
//! one is asked for.
ghost use Rattle.std.specs.Prelude.{◌≡◌, ◌<◌, ◌≤◌, false, IfErr, IfOk, None, OnOk, Some, option_map};
ghost use Rattle.aig_binary.specs.Spellings.{text_in};
ghost use Rattle.counted_io.specs.Streams.{is_stdout, target_name};
ghost use Rattle.counted_io.specs.declared.target.Target.{Target};
ghost use Rattle.frames.specs.Answering.{IsWritten};
ghost use Rattle.merging_rounds.specs.Following.{AreRoundsOf};
ghost use Rattle.mapped_answers.specs.Mapping.{IsMappedOf, IsMappingStop};
ghost use Rattle.circuit_files.specs.Outcomes.{outcome_of};
ghost use Rattle.circuit_files.specs.WrittenFiles.{IsFileGiven, IsTargetGiven};
ghost use Rattle.command_line.specs.StreamUses.{writes_stdout};
ghost use Rattle.command_endings.specs.Printing.{Prints};
ghost use Rattle.commands.specs.Pipes.{IsAnswerTo, WritesMap};
ghost use Rattle.commands.specs.RetimingTasks as wanted;
ghost use Rattle.commands.specs.RetimingTasks.{AreOptionsFor, HasFailed, IsFailureOf, IsFailureOfRun, IsMapFailureOf, counts_of, levels_reported};

use aig_binary::{Spelling, SpeltCircuit};
use aig_graph::{Circuit, Keep, NoMemory};
use circuit_files::{Failure, OutputFiles, close, file_at};
use command_endings::{missing_latch, missing_name};
use command_line::{Retiming, RetimingOptions};
use counted_io::{CountedWrite, Source, Target, WriteError};
use file_words::ReadError;
use frame_runs::{BytesError, FrameWatcher, NoFollower, Options, RetimeError, Run};
use frames::run_spelt;
use json_reports::{MapCounts, ReadLevels};
use mapped_answers::{AnswerError, Made, StateMap, retime_spelt_mapped, write_state_map};
use merging_rounds::Rounds;
use path_levels::levels;
use pulse::{Crew, OpenGate};
use std::alloc::Global;
use std::thread::Threads;

/// The most workers of a crew.
const MOST_WORKERS: u32 = 64;

/// A retiming whose circuit is written.
#[derive(Drop)]
pub(crate) struct Answer {
    pub rounds: Rounds,
    /// The held latches of the written circuit.
    pub keep: Keep,
    /// The levels of the circuit that was read.
    pub levels: ReadLevels,
    /// The spelling of the written circuit, and of the map.
    pub spelling: Spelling,
    /// The map, if one is asked for.
    pub map: Option<StateMap>,
}

fn crew(task: &Retiming<'_>) -> Crew<OpenGate>
    ensures { 0 < task.now.workers → task.now.workers ≤ 64 → result.workers ≡ task.now.workers }
{
    Crew::new(task.workers.clamp(1, MOST_WORKERS), OpenGate)
}

/// Returns the failure for an error of a run, with the name that it is about. `classes` is what the
/// merged latches were read of, if they were given.
pub(crate) fn failure_of_run<'a>(
    error: RetimeError,
    input: Source<'a>,
    classes: Source<'a>,
    options: &RetimingOptions<'a>,
) -> Failure<'a>
    ensures { IsFailureOfRun input.entry classes.entry options.now error result }
{
    let (names, positions) = (options.keep.as_slice(), options.keep_latches.as_slice());
    match error {
        RetimeError::NoMemory => Failure::Memory,
        RetimeError::NoSuchName(place) => missing_name(input.name(), names, place),
        RetimeError::NoSuchLatch(number) => missing_latch(input.name(), positions, number),
        RetimeError::Misread(latch) => Failure::Misread(classes.name(), latch),
        RetimeError::NotShown(latch) => Failure::NotShown(classes.name(), latch),
    }
}

/// Returns what the merged latches are read of, if they are given, else the circuit.
fn classes_source<'a>(task: &Retiming<'a>) -> Source<'a>
    ensures { result ≡ wanted.classes_source task.now }
{
    match task.classes {
        Some(classes) => classes,
        None => task.input,
    }
}

/// Returns the failure for an error, with the name of the file that it is about.
fn failure_of<'a>(error: BytesError, task: &Retiming<'a>) -> Failure<'a>
    ensures { IsFailureOf task.now error result }
{
    match error {
        BytesError::Read(error) => Failure::of_reading(error, task.input.name()),
        BytesError::Retime(error) => {
            failure_of_run(error, task.input, classes_source(task), &task.options)
        }
        BytesError::Write(_) => Failure::Device(task.output.name()),
    }
}

/// Returns the path of the map, or an empty one if none is asked for.
fn map_name<'a>(task: &Retiming<'a>) -> &'a str
    ensures { (map : Target) → task.now.map ≡ Some map → result.now ≡ target_name map }
{
    match task.map {
        Some(map) => map.name(),
        None => "",
    }
}

/// Returns the failure for an error of a run with a map. A map that is too large fails as a file
/// whose first line says so.
fn failure_of_mapping<'a>(error: AnswerError, task: &Retiming<'a>) -> Failure<'a>
    ensures { IsMapFailureOf task.now error result }
{
    match error {
        AnswerError::Bytes(error) => failure_of(error, task),
        AnswerError::MapTooLarge => Failure::Refused(map_name(task), ReadError::TooLarge(0)),
    }
}

/// Counts the levels of the circuit that was read, if an object of JSON reports them.
fn levels_counted(
    alloc: Global,
    circuit: &Circuit,
    task: &Retiming<'_>,
) -> Result<Option<u32>, NoMemory>
    ensures { IfOk result (λ counted. counted ≡ (levels_reported task.now circuit.now).counted) }
{
    if task.json {
        Ok(Some(levels(alloc, circuit)?))
    } else {
        Ok(None)
    }
}

/// Returns the levels and the bound of the circuit that was read, as the task reports them.
fn levels_for(alloc: Global, circuit: &Circuit, task: &Retiming<'_>) -> Result<ReadLevels, NoMemory>
    ensures { IfOk result (λ reported. reported ≡ levels_reported task.now circuit.now) }
{
    let bound = task.options.bound.for_circuit(alloc, circuit)?;
    let counted = levels_counted(alloc, circuit, task)?;
    Ok(ReadLevels { counted, bound })
}

/// Retimes the circuit that was read, and writes it, without a map.
fn plain_to<'a, R: Threads + Sync, W: CountedWrite, V: FrameWatcher>(
    rt: &R,
    alloc: Global,
    task: &Retiming<'a>,
    options: &Options,
    spelt: SpeltCircuit,
    writer: &mut W,
    watcher: &mut V,
) -> Result<Run<Rounds, NoFollower>, Failure<'a>>
    ensures written { IfOk result (λ run. IsWritten options.now spelt (W.output writer.old)
        (W.output writer.new) run.retimed) }
    ensures held { IfOk result (λ run. AreRoundsOf options.now spelt.circuit run.retimed
        run.keep) }
    ensures prints { IfErr result (λ failure. Prints (outcome_of failure) (W.output writer.old)
        (W.output writer.new)) }
{
    let crew = crew(task);
    match run_spelt(rt, alloc, spelt, writer, options, &crew, watcher) {
        Ok(run) => Ok(run),
        Err(error) => Err(failure_of(error, task)),
    }
}

/// Retimes the circuit that was read, writes it, and makes its map.
fn mapped_to<R: Threads + Sync, W: CountedWrite, V: FrameWatcher>(
    rt: &R,
    alloc: Global,
    task: &Retiming<'_>,
    options: &Options,
    spelt: SpeltCircuit,
    writer: &mut W,
    watcher: &mut V,
) -> Result<Made, AnswerError>
    ensures ok { IfOk result (IsMappedOf options.now spelt (W.output writer.old)
        (W.output writer.new)) }
    ensures held { IfOk result (λ made. AreRoundsOf options.now spelt.circuit made.rounds
        made.keep) }
    ensures err { IfErr result (IsMappingStop options.now spelt (W.output writer.old)
        (W.output writer.new)) }
{
    let crew = crew(task);
    retime_spelt_mapped(rt, alloc, spelt, writer, options, &crew, watcher)
}

/// Makes an answer of a run without a map.
fn plain_answer(run: Run<Rounds, NoFollower>, levels: ReadLevels, spelling: Spelling) -> Answer
    ensures rounds { result.rounds ≡ run.retimed }
    ensures keep { result.keep ≡ run.keep }
    ensures levels { result.levels ≡ levels }
    ensures spelling { result.spelling ≡ spelling }
    ensures map { result.map ≡ None }
{
    let Run {
        retimed: rounds,
        keep,
        ..
    } = run;
    Answer {
        rounds,
        keep,
        levels,
        spelling,
        map: None,
    }
}

/// Makes an answer of a retiming with its map.
fn mapped_answer(made: Made, levels: ReadLevels, spelling: Spelling) -> Answer
    ensures rounds { result.rounds ≡ made.rounds }
    ensures keep { result.keep ≡ made.keep }
    ensures levels { result.levels ≡ levels }
    ensures spelling { result.spelling ≡ spelling }
    ensures map { result.map ≡ Some made.map }
{
    let Made { rounds, keep, map } = made;
    Answer {
        rounds,
        keep,
        levels,
        spelling,
        map: Some(map),
    }
}

/// Counts the gates and constraints of the map, if there is one.
pub(crate) fn map_counts(answer: &Answer) -> Option<MapCounts>
    ensures { result ≡ option_map counts_of answer.now.map }
{
    match &answer.map {
        Some(map) => Some(MapCounts {
            gates: u64::from(map.gates().count()),
            constraints: map.props().constraints.len() as u64,
        }),
        None => None,
    }
}

/// Retimes the circuit that was read, and writes it. The answer has the levels of the circuit that
/// was read.
pub(crate) fn retime_to<'a, R: Threads + Sync, W: CountedWrite, V: FrameWatcher>(
    rt: &R,
    alloc: Global,
    task: &Retiming<'a>,
    options: &Options,
    spelt: SpeltCircuit,
    writer: &mut W,
    watcher: &mut V,
) -> Result<Answer, Failure<'a>>
    requires { AreOptionsFor task.now options.now }
    ensures answer { IfOk result (IsAnswerTo task.now options.now spelt (W.output writer.old)
        (W.output writer.new)) }
    ensures prints { IfErr result (λ failure. Prints (outcome_of failure) (W.output writer.old)
        (W.output writer.new)) }
{
    let Ok(levels) = levels_for(alloc, &spelt.circuit, task) else {
        drop(spelt);
        return Err(Failure::Memory);
    };
    let spelling = options.spelling.unwrap_or(spelt.spelling);
    match task.map {
        Some(_) => match mapped_to(rt, alloc, task, options, spelt, writer, watcher) {
            Ok(made) => Ok(mapped_answer(made, levels, spelling)),
            Err(error) => Err(failure_of_mapping(error, task)),
        },
        None => match plain_to(rt, alloc, task, options, spelt, writer, watcher) {
            Ok(run) => Ok(plain_answer(run, levels, spelling)),
            Err(failure) => Err(failure),
        },
    }
}

/// Writes a map to `target`.
fn write_map<R: OutputFiles, O: CountedWrite>(
    rt: &R,
    map: &StateMap,
    spelling: Spelling,
    target: Target<'_>,
    out: &mut O,
) -> Result<(), WriteError>
    ensures given { OnOk result (IsTargetGiven (IsFileGiven R.Output.contents R.is_made R.is_let_go) target.entry
        (O.output out.old) (O.output out.new) (text_in spelling map.now)) }
    ensures file { is_stdout target.entry ≡ false → O.output out.new ≡ O.output out.old }
{
    match target {
        Target::Stdout => write_state_map(map, spelling, out),
        Target::File(path) => {
            let mut writer = file_at(rt, path);
            let written = write_state_map(map, spelling, &mut writer);
            close(writer);
            written
        }
    }
}

/// Writes the map to its target, if one is asked for.
pub(crate) fn map_written<'a, R: OutputFiles, O: CountedWrite>(
    rt: &R,
    task: &Retiming<'a>,
    answer: &Answer,
    out: &mut O,
) -> Result<(), Failure<'a>>
    ensures written { OnOk result (WritesMap (IsFileGiven R.Output.contents R.is_made R.is_let_go) task.now.map
        answer.now.spelling answer.now.map (O.output out.old) (O.output out.new)) }
    ensures file { writes_stdout task.now.map ≡ false → O.output out.new ≡ O.output out.old }
    ensures err { IfErr result (HasFailed task.now.map) }
{
    let Some(target) = task.map else {
        return Ok(());
    };
    let Some(map) = &answer.map else {
        return Ok(());
    };
    match write_map(rt, map, answer.spelling, target, out) {
        Ok(()) => Ok(()),
        Err(_) => Err(Failure::Device(target.name())),
    }
}
