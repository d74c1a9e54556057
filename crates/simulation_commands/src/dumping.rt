//! Dumps of what is simulated: the names of waves, room for their values, and how a dump is
//! written.
ghost use Rattle.std.specs.Prelude.{◌≡◌, true, false, IfErr, IfOk, MatchResult, OnOk};
ghost use Rattle.counted_io.specs.Output.{Writes};
ghost use Rattle.reports.specs.waves.Moments.{IsWaveRoomFor};
ghost use Rattle.reports.specs.waves.Names as named;
ghost use Rattle.reports.specs.waves.Probes as probes;
ghost use Rattle.counted_io.specs.Streams.{is_stdout, target_name};
ghost use Rattle.circuit_files.specs.Outcomes.{IsAbout, outcome_of};
ghost use Rattle.circuit_files.specs.WrittenFiles.{IsFileGiven, IsTargetGiven};
ghost use Rattle.circuit_files.specs.declared.outcome.Outcome.TheVariants.{Device};
ghost use Rattle.circuit_files.specs.declared.outcome.Failure.TheVariants.{Memory};
ghost use Rattle.simulation_commands.specs.Dumping.{AreWavesOf, IsFailureToShow, IsShownOf, dump_of};
ghost use Rattle.simulation_commands.specs.Dumping as wanted;

use crate::room::is_too_long;
use crate::simulation::Case;
use aig_graph::{Circuit, Sequence};
use circuit_files::{Failure, OutputFiles, close, file_at};
use command_line::{Simulation, Stimuli};
use counted_io::{CountedWrite, Target, WriteError};
use reports::{WaveRoom, probed, wave_names, write_waves};
use std::alloc::Global;

/// A circuit that has waves as its outputs, and room for simulating it.
#[derive(Drop)]
struct Shown {
    circuit: Circuit,
    room: WaveRoom,
}

/// The waves of a circuit under a stimulus.
#[derive(Drop)]
pub(crate) struct Waves {
    names: Sequence<Sequence<u8>>,
    shown: Shown,
}

/// Returns true if the trace of a circuit under random sequences takes too much memory. A stimulus
/// that is read says by its length what a run will take.
fn are_too_long(stimuli: Stimuli<'_>, circuit: &Circuit) -> bool
    ensures { result ≡ wanted.are_too_long stimuli.entry circuit.now }
{
    match stimuli {
        Stimuli::Read(_) => false,
        Stimuli::Random(sequences) => is_too_long(circuit, sequences.count, sequences.steps),
    }
}

/// Returns room for the waves that a circuit has as its outputs.
fn room_for<'a>(
    alloc: Global,
    circuit: &Circuit,
    given: &Case,
    task: &Simulation<'a>,
) -> Result<WaveRoom, Failure<'a>>
    ensures room { IfOk result (IsWaveRoomFor circuit.now given.now.stimulus) }
    ensures failed { IfErr result (IsFailureToShow task.now circuit.now) }
{
    if are_too_long(task.stimuli, circuit) {
        return Err(Failure::TooManySteps(task.input.name()));
    }
    match WaveRoom::new(alloc, circuit, &given.stimulus) {
        Ok(room) => Ok(room),
        Err(_) => Err(Failure::Memory),
    }
}

/// Returns a circuit that has the waves of another one as its outputs, with room for simulating it.
fn with_room<'a>(
    alloc: Global,
    circuit: Circuit,
    given: &Case,
    task: &Simulation<'a>,
) -> Result<Shown, Failure<'a>>
    requires { circuit ≡ probes.probed given.now.circuit }
    ensures shown { IfOk result (IsShownOf given.now) }
    ensures failed { IfErr result (IsFailureToShow task.now (probes.probed given.now.circuit)) }
{
    match room_for(alloc, &circuit, given, task) {
        Ok(room) => Ok(Shown { circuit, room }),
        Err(failure) => {
            drop(circuit);
            Err(failure)
        }
    }
}

/// Returns the circuit that has the waves as its outputs.
fn shown_of<'a>(alloc: Global, given: &Case, task: &Simulation<'a>) -> Result<Shown, Failure<'a>>
    ensures shown { IfOk result (IsShownOf given.now) }
    ensures failed { IfErr result (IsFailureToShow task.now (probes.probed given.now.circuit)) }
{
    match probed(alloc, &given.circuit) {
        Ok(circuit) => with_room(alloc, circuit, given, task),
        Err(_) => Err(Failure::Memory),
    }
}

/// Returns the names of the waves of a circuit.
fn names<'a>(alloc: Global, circuit: &Circuit) -> Result<Sequence<Sequence<u8>>, Failure<'a>>
    ensures { MatchResult result (λ names. names ≡ named.wave_names circuit.now)
        (λ failure. failure ≡ Memory) }
{
    match wave_names(alloc, circuit) {
        Ok(names) => Ok(Sequence::from_vec(names)),
        Err(_) => Err(Failure::Memory),
    }
}

/// Returns the waves of what is simulated.
pub(crate) fn waves_of<'a>(
    alloc: Global,
    given: &Case,
    task: &Simulation<'a>,
) -> Result<Waves, Failure<'a>>
    ensures waves { IfOk result (AreWavesOf given.now) }
    ensures failed { IfErr result (IsFailureToShow task.now (probes.probed given.now.circuit)) }
{
    match names(alloc, &given.circuit) {
        Ok(names) => match shown_of(alloc, given, task) {
            Ok(shown) => Ok(Waves { names, shown }),
            Err(failure) => {
                drop(names);
                Err(failure)
            }
        },
        Err(failure) => Err(failure),
    }
}

/// Writes a dump of waves.
fn put_dump<W: CountedWrite>(
    given: &Case,
    waves: &mut Waves,
    writer: &mut W,
) -> Result<(), WriteError>
    requires { AreWavesOf given.now waves.old }
    ensures { Writes (W.output writer.old) (W.output writer.new) result (dump_of given.now) }
{
    let shown = &mut waves.shown;
    write_waves(
        waves.names.as_slice(),
        &shown.circuit,
        &given.stimulus,
        &mut shown.room,
        writer,
    )
}

/// Writes a dump of waves to a file or to standard output.
fn put_waves<R: OutputFiles, O: CountedWrite>(
    rt: &R,
    given: &Case,
    waves: &mut Waves,
    target: Target<'_>,
    out: &mut O,
) -> Result<(), WriteError>
    requires { AreWavesOf given.now waves.old }
    ensures given { OnOk result (IsTargetGiven (IsFileGiven R.Output.contents R.is_made R.is_let_go)
        target.entry (O.output out.old) (O.output out.new) (dump_of given.now)) }
    ensures stdout { is_stdout target.entry ≡ true → Writes (O.output out.old)
        (O.output out.new) result (dump_of given.now) }
    ensures file { is_stdout target.entry ≡ false → O.output out.new ≡ O.output out.old }
{
    match target {
        Target::Stdout => put_dump(given, waves, out),
        Target::File(path) => {
            let mut writer = file_at(rt, path);
            let written = put_dump(given, waves, &mut writer);
            close(writer);
            written
        }
    }
}

/// Writes a dump of waves to a file or to standard output. The one that failed is named. A file is
/// made at its first byte.
pub(crate) fn write_dump<'a, R: OutputFiles, O: CountedWrite>(
    rt: &R,
    given: &Case,
    waves: &mut Waves,
    target: Target<'a>,
    out: &mut O,
) -> Result<(), Failure<'a>>
    requires { AreWavesOf given.now waves.old }
    ensures given { OnOk result (IsTargetGiven (IsFileGiven R.Output.contents R.is_made R.is_let_go)
        target.entry (O.output out.old) (O.output out.new) (dump_of given.now)) }
    ensures stdout { is_stdout target.entry ≡ true → Writes (O.output out.old)
        (O.output out.new) result (dump_of given.now) }
    ensures file { is_stdout target.entry ≡ false → O.output out.new ≡ O.output out.old }
    ensures err { IfErr result (λ failure. (outcome_of failure ≡ Device)
        × IsAbout (target_name target.entry) failure) }
{
    match put_waves(rt, given, waves, target, out) {
        Ok(()) => Ok(()),
        Err(_) => Err(Failure::Device(target.name())),
    }
}
