//! The command `sim`.
ghost use Rattle.std.specs.Prelude.{◌≡◌, IfOk, MatchResult, OnOk, Some};
ghost use Rattle.reports.specs.Simulating.{IsRoomFor};
ghost use Rattle.reports.specs.Traces.{trace_text};
ghost use Rattle.circuit_files.specs.WrittenFiles.{IsFileGiven};
ghost use Rattle.circuit_files.specs.declared.outcome.Outcome.TheVariants.{Done};
ghost use Rattle.circuit_files.specs.declared.outcome.Failure.TheVariants.{Memory};
ghost use Rattle.command_endings.specs.Printing.{EndsPrinting, EndsWith, Prints, ending};
ghost use Rattle.simulation_commands.specs.Dumping.{AreWavesOf, dump_of};
ghost use Rattle.simulation_commands.specs.Simulating.{AreLinesFor, IsCaseOf, IsCaseWith, IsDumped, PrintsTrace, case_text, printed};

use crate::dumping::{Waves, waves_of, write_dump};
use crate::reading::read_circuit;
use crate::room::is_small;
use crate::stimuli::stimuli_for;
use aig_graph::Circuit;
use circuit_files::{Failure, Outcome, OutputFiles};
use command_endings::ended;
use command_line::Simulation;
use counted_io::{CountedRead, CountedWrite, Target};
use lane_sim::{Stimulus, Trace, simulate};
use reports::{Room, print_simulated, print_trace};
use std::alloc::Global;
use std::rt::Files;
use std::thread::Threads;

/// A circuit, and what it is simulated under.
#[derive(Drop)]
pub(crate) struct Case {
    pub(crate) circuit: Circuit,
    pub(crate) stimulus: Stimulus,
}

/// What is printed of a trace.
#[derive(Drop)]
enum Lines {
    /// A trace that is made.
    Whole(Trace),
    /// Room in which it is simulated while it is printed.
    Stepped(Room),
}

/// Returns a circuit, with the stimulus that the task has for it.
fn case_with<'a, R: Files, I: CountedRead>(
    rt: &R,
    alloc: Global,
    circuit: Circuit,
    task: &Simulation<'a>,
    stdin: &mut I,
) -> Result<Case, Failure<'a>>
    ensures { IfOk result (IsCaseWith circuit task.now.stimuli (I.input stdin.old)
        (I.input stdin.new)) }
{
    match stimuli_for(rt, alloc, task.stimuli, &circuit, task.input, stdin) {
        Ok(stimulus) => Ok(Case { circuit, stimulus }),
        Err(failure) => {
            drop(circuit);
            Err(failure)
        }
    }
}

/// Reads a circuit, and then a stimulus unless the task has random sequences.
fn case_for<'a, R: Files, I: CountedRead>(
    rt: &R,
    alloc: Global,
    task: &Simulation<'a>,
    stdin: &mut I,
) -> Result<Case, Failure<'a>>
    ensures { IfOk result (IsCaseOf task.now (I.input stdin.old) (I.input stdin.new)) }
{
    match read_circuit(rt, alloc, task.input, stdin) {
        Ok(circuit) => case_with(rt, alloc, circuit, task, stdin),
        Err(failure) => Err(failure),
    }
}

/// Returns the trace of what is simulated. If the trace would take much more memory than what was
/// read, returns room for simulating it.
fn lines_for<'a, R: Threads + Sync>(
    rt: &R,
    alloc: Global,
    given: &Case,
) -> Result<Lines, Failure<'a>>
    ensures { MatchResult result (AreLinesFor given.now) (λ failure. failure ≡ Memory) }
{
    if is_small(&given.circuit, &given.stimulus) {
        match simulate(rt, alloc, &given.circuit, &given.stimulus) {
            Ok(trace) => Ok(Lines::Whole(trace)),
            Err(_) => Err(Failure::Memory),
        }
    } else {
        match Room::new(alloc, &given.circuit) {
            Ok(room) => Ok(Lines::Stepped(room)),
            Err(_) => Err(Failure::Memory),
        }
    }
}

/// Prints a trace that was made.
fn print_whole<'a, O: CountedWrite>(trace: Trace, out: &mut O) -> Result<Outcome, Failure<'a>>
    ensures { EndsPrinting Done (trace_text trace) (O.output out.old) (O.output out.new) result }
{
    let ended = ended(print_trace(&trace, out), Outcome::Done);
    drop(trace);
    ended
}

/// Prints the trace while the circuit is simulated.
fn print_stepped<'a, O: CountedWrite>(
    given: &Case,
    room: Room,
    out: &mut O,
) -> Result<Outcome, Failure<'a>>
    requires { IsRoomFor given.now.circuit room }
    ensures { EndsPrinting Done (case_text given.now) (O.output out.old) (O.output out.new) result }
{
    let mut room = room;
    let printed = print_simulated(&given.circuit, &given.stimulus, &mut room, out);
    drop(room);
    ended(printed, Outcome::Done)
}

fn print_lines<'a, O: CountedWrite>(
    given: &Case,
    lines: Lines,
    out: &mut O,
) -> Result<Outcome, Failure<'a>>
    requires { AreLinesFor given.now lines }
    ensures { EndsPrinting Done (case_text given.now) (O.output out.old) (O.output out.new) result }
{
    match lines {
        Lines::Whole(trace) => print_whole(trace, out),
        Lines::Stepped(room) => print_stepped(given, room, out),
    }
}

/// Prints the trace of what is simulated, without waves.
fn print_trace_of<'a, R: Threads + Sync, O: CountedWrite>(
    rt: &R,
    alloc: Global,
    given: &Case,
    out: &mut O,
) -> Result<Outcome, Failure<'a>>
    ensures printed { IfOk result (EndsWith Done (case_text given.now) (O.output out.old)
        (O.output out.new)) }
    ensures prints { Prints (ending result) (O.output out.old) (O.output out.new) }
{
    match lines_for(rt, alloc, given) {
        Ok(lines) => print_lines(given, lines, out),
        Err(failure) => Err(failure),
    }
}

/// Writes waves once there is the trace of what is simulated, or room for it, and then prints that.
fn print_with_waves<'a, R: OutputFiles + Threads + Sync, O: CountedWrite>(
    rt: &R,
    alloc: Global,
    given: &Case,
    target: Target<'a>,
    waves: &mut Waves,
    out: &mut O,
) -> Result<Outcome, Failure<'a>>
    requires { AreWavesOf given.now waves.old }
    ensures dumped { OnOk result (IsDumped (IsFileGiven R.Output.contents R.is_made R.is_let_go)
        (Some target.entry) (dump_of given.now)) }
    ensures printed { IfOk result (EndsWith Done (printed (Some target.entry) (dump_of given.now)
        (case_text given.now)) (O.output out.old) (O.output out.new)) }
    ensures prints { Prints (ending result) (O.output out.old) (O.output out.new) }
{
    match lines_for(rt, alloc, given) {
        Ok(lines) => match write_dump(rt, given, waves, target, out) {
            Ok(()) => print_lines(given, lines, out),
            Err(failure) => {
                drop(lines);
                Err(failure)
            }
        },
        Err(failure) => Err(failure),
    }
}

/// Writes the waves of what is simulated, and then prints its trace. Nothing is written before
/// there is room for both.
fn print_with<'a, R: OutputFiles + Threads + Sync, O: CountedWrite>(
    rt: &R,
    alloc: Global,
    given: &Case,
    task: &Simulation<'a>,
    target: Target<'a>,
    out: &mut O,
) -> Result<Outcome, Failure<'a>>
    ensures dumped { OnOk result (IsDumped (IsFileGiven R.Output.contents R.is_made R.is_let_go)
        (Some target.entry) (dump_of given.now)) }
    ensures printed { IfOk result (EndsWith Done (printed (Some target.entry) (dump_of given.now)
        (case_text given.now)) (O.output out.old) (O.output out.new)) }
    ensures prints { Prints (ending result) (O.output out.old) (O.output out.new) }
{
    match waves_of(alloc, given, task) {
        Ok(waves) => {
            let mut waves = waves;
            let ended = print_with_waves(rt, alloc, given, target, &mut waves, out);
            drop(waves);
            ended
        }
        Err(failure) => Err(failure),
    }
}

/// Prints the trace of what is simulated, after it has written its waves if the task asks for them.
fn print_case<'a, R: OutputFiles + Threads + Sync, O: CountedWrite>(
    rt: &R,
    alloc: Global,
    given: &Case,
    task: &Simulation<'a>,
    out: &mut O,
) -> Result<Outcome, Failure<'a>>
    ensures dumped { OnOk result (IsDumped (IsFileGiven R.Output.contents R.is_made R.is_let_go)
        task.now.waves (dump_of given.now)) }
    ensures printed { IfOk result (EndsWith Done (printed task.now.waves (dump_of given.now)
        (case_text given.now)) (O.output out.old) (O.output out.new)) }
    ensures prints { Prints (ending result) (O.output out.old) (O.output out.new) }
{
    match task.waves {
        Some(target) => print_with(rt, alloc, given, task, target, out),
        None => print_trace_of(rt, alloc, given, out),
    }
}

/// Reads a circuit, and then a stimulus unless the task has random sequences. Writes the waves if
/// they are asked for, and prints the trace. A file is made once nothing but a device can fail.
pub fn print_simulation<
    'a,
    R: Files + OutputFiles + Threads + Sync,
    I: CountedRead,
    O: CountedWrite,
>(
    rt: &R,
    alloc: Global,
    task: &Simulation<'a>,
    stdin: &mut I,
    out: &mut O,
) -> Result<Outcome, Failure<'a>>
    ensures trace { IfOk result (PrintsTrace (IsFileGiven R.Output.contents R.is_made R.is_let_go)
        task.now (I.input stdin.old) (I.input stdin.new) (O.output out.old) (O.output out.new)) }
    ensures prints { Prints (ending result) (O.output out.old) (O.output out.new) }
{
    match case_for(rt, alloc, task, stdin) {
        Ok(given) => {
            let ended = print_case(rt, alloc, &given, task, out);
            drop(given);
            ended
        }
        Err(failure) => Err(failure),
    }
}
