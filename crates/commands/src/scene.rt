//! The scene that `dot` draws: the circuit that is read, or the circuit before the next frame and
//! that frame's set.
ghost use Rattle.std.specs.Prelude.{◌≡◌, IfOk, false};
ghost use Rattle.command_endings.specs.RunOptions.{AreOptionsOf};
ghost use Rattle.commands.specs.Drawings.{IsNextShown, IsRunBy, IsSceneOf, IsShownFor, IsShownOf};

use crate::answer::failure_of_run;
use crate::drawable::check_drawable;
use aig_graph::{Circuit, ClosedSet, Keep};
use circuit_files::{Failure, circuit_at};
use command_endings::{held_latches, run_options};
use command_line::Drawing;
use counted_io::CountedRead;
use frame_runs::{
    GivenCircuit, NoFollower, Options, RetimeError, Retimed, Run, begin, hold_by, next_set,
};
use pulse::{Crew, OpenGate};
use std::alloc::Global;
use std::rt::Files;
use std::thread::Threads;

/// The contents of a picture.
#[derive(Drop)]
pub(crate) struct Scene {
    pub(crate) circuit: Circuit,
    /// The latches that stay.
    pub(crate) keep: Keep,
    /// The gates that the next frame moves latches over, if that frame is shown and takes any.
    pub(crate) set: Option<ClosedSet>,
}

/// Begins a run of the circuit, up to its first frame. Nothing follows it.
fn begun_by(
    alloc: Global,
    circuit: &Circuit,
    options: &Options,
) -> Result<Run<Retimed, NoFollower>, RetimeError>
    ensures { IfOk result (IsRunBy options.now circuit.now) }
{
    let keep = hold_by(alloc, circuit, options)?;
    let lent = GivenCircuit::Lent(circuit);
    let begun = begin(alloc, lent, &keep, options, NoFollower)?;
    Ok(begun)
}

/// Runs the circuit up to its first frame.
fn run_by<'a>(
    alloc: Global,
    circuit: &Circuit,
    options: &Options,
    task: &Drawing<'a>,
) -> Result<Run<Retimed, NoFollower>, Failure<'a>>
    ensures { IfOk result (IsRunBy options.now circuit.now) }
{
    match begun_by(alloc, circuit, options) {
        Ok(run) => Ok(run),
        Err(error) => Err(failure_of_run(error, task.input, task.input, &task.options)),
    }
}

/// Makes a scene of the circuit of a run, with `set`.
fn scene_with(run: Run<Retimed, NoFollower>, set: Option<ClosedSet>) -> Scene
    ensures circuit { result.circuit ≡ run.retimed.circuit }
    ensures keep { result.keep ≡ run.keep }
    ensures set { result.set ≡ set }
{
    let Run { retimed, keep, .. } = run;
    let Retimed {
        circuit,
        certificates,
        ..
    } = retimed;
    drop(certificates);
    Scene { circuit, keep, set }
}

/// Makes a scene of the circuit of a run and the set that its next frame takes.
fn shown_of<'a, R: Threads + Sync>(
    rt: &R,
    alloc: Global,
    run: Run<Retimed, NoFollower>,
    options: &Options,
) -> Result<Scene, Failure<'a>>
    ensures { IfOk result (IsShownOf options.now run) }
{
    let crew = Crew::new(1, OpenGate);
    match next_set(rt, alloc, &run, options, &crew) {
        Ok(set) => Ok(scene_with(run, set)),
        Err(_) => {
            drop(run);
            Err(Failure::Memory)
        }
    }
}

/// Makes the scene of the next frame of the circuit, under `options`.
fn shown_by<'a, R: Threads + Sync>(
    rt: &R,
    alloc: Global,
    circuit: &Circuit,
    options: &Options,
    task: &Drawing<'a>,
) -> Result<Scene, Failure<'a>>
    requires { AreOptionsOf task.now.options 0 false options.now }
    ensures { IfOk result (IsNextShown task.now circuit.now) }
{
    let run = run_by(alloc, circuit, options, task)?;
    shown_of(rt, alloc, run, options)
}

/// Makes the scene of the circuit before its next frame, with the set that the frame takes.
fn next_shown<'a, R: Threads + Sync>(
    rt: &R,
    alloc: Global,
    circuit: &Circuit,
    task: &Drawing<'a>,
) -> Result<Scene, Failure<'a>>
    ensures { IfOk result (IsNextShown task.now circuit.now) }
{
    let Ok(options) = run_options(alloc, &task.options, 0, false) else {
        return Err(Failure::Memory);
    };
    let shown = shown_by(rt, alloc, circuit, &options, task);
    drop(options);
    shown
}

/// Makes a scene of the circuit that is read and the latches that the task holds.
fn as_read<'a>(alloc: Global, circuit: Circuit, task: &Drawing<'a>) -> Result<Scene, Failure<'a>>
    ensures { IfOk result (IsShownFor false task.now circuit) }
{
    match held_latches(alloc, &circuit, task.input, &task.options) {
        Ok(keep) => Ok(Scene {
            circuit,
            keep,
            set: None,
        }),
        Err(failure) => {
            drop(circuit);
            Err(failure)
        }
    }
}

/// Makes the scene of a circuit: itself, or its next frame if the task asks for that.
fn shown_for<'a, R: Threads + Sync>(
    rt: &R,
    alloc: Global,
    circuit: Circuit,
    task: &Drawing<'a>,
) -> Result<Scene, Failure<'a>>
    ensures { IfOk result (IsShownFor task.now.frame task.now circuit) }
{
    if !task.frame {
        return as_read(alloc, circuit, task);
    }
    let shown = next_shown(rt, alloc, &circuit, task);
    drop(circuit);
    shown
}

/// Reads the circuit of the task, and makes the scene that the task asks for.
pub(crate) fn scene_for<'a, R: Files + Threads + Sync, I: CountedRead>(
    rt: &R,
    alloc: Global,
    task: &Drawing<'a>,
    stdin: &mut I,
) -> Result<Scene, Failure<'a>>
    ensures { IfOk result (IsSceneOf task.now (I.input stdin.old) (I.input stdin.new)) }
{
    let spelt = circuit_at(rt, alloc, task.input, stdin)?;
    let scene = shown_for(rt, alloc, spelt.circuit, task)?;
    match check_drawable(&scene.circuit, task) {
        Ok(()) => Ok(scene),
        Err(failure) => {
            drop(scene);
            Err(failure)
        }
    }
}
