//! The command `dot`.
ghost use Rattle.std.specs.Prelude.{◌≡◌, false, IfErr, IfOk, OnOk};
ghost use Rattle.counted_io.specs.Output.{WritesAll};
ghost use Rattle.pictures.specs.Looks.{IsViewOf};
ghost use Rattle.counted_io.specs.Streams.{is_stdout};
ghost use Rattle.circuit_files.specs.Outcomes.{outcome_of};
ghost use Rattle.circuit_files.specs.WrittenFiles.{IsFileGiven, IsTargetGiven};
ghost use Rattle.circuit_files.specs.declared.outcome.Outcome.TheVariants.{Device};
ghost use Rattle.commands.specs.Drawings.{PrintsPicture, middle, picture_of, shown};
ghost use Rattle.command_endings.specs.Printing.{Prints, ending};

use crate::scene::{Scene, scene_for};
use aig_graph::NoMemory;
use circuit_files::{Failure, Outcome, OutputFiles, close, file_at};
use command_line::Drawing;
use counted_io::{CountedRead, CountedWrite, Streams, Target, write_all};
use frame_runs::PathBound;
use pictures::{View, write_dot};
use std::alloc::Global;
use std::rt::Files;
use std::thread::Threads;

/// The line for a terminal if the next frame was to be shown and there is none.
const NO_FRAME: &[u8] = b"no set of gates leaves fewer latches, so no frame is shown\n";

/// The line for a terminal if there is a bound too.
const NO_FRAME_WITHIN: &[u8] =
    b"no set of gates leaves fewer latches and keeps the bound, so no frame is shown\n";

/// Returns the view of a scene that the task asks for: of a neighbourhood, or of the whole circuit.
fn view(alloc: Global, scene: &Scene, task: &Drawing<'_>) -> Result<View, NoMemory>
    ensures { IfOk result (IsViewOf scene.now.circuit scene.now.keep scene.now.set
        (shown scene.now.circuit task.now) (middle scene.now.circuit task.now)) }
{
    let Scene { circuit, keep, set } = scene;
    match task.around {
        Some(name) => View::around(
            alloc,
            circuit,
            keep,
            set.as_ref(),
            name.as_bytes(),
            task.depth,
        ),
        None => View::new(alloc, circuit, keep, set.as_ref()),
    }
}

fn write_view<'a, W: CountedWrite>(
    scene: &Scene,
    view: &View,
    task: &Drawing<'a>,
    writer: &mut W,
) -> Result<(), Failure<'a>>
    requires { IsViewOf scene.now.circuit scene.now.keep scene.now.set
        (shown scene.now.circuit task.now) (middle scene.now.circuit task.now) view.now }
    ensures picture { OnOk result (WritesAll (W.output writer.old) (W.output writer.new)
        (picture_of task.now scene.now)) }
    ensures err { IfErr result (λ failure. outcome_of failure ≡ Device) }
{
    match write_dot(&scene.circuit, view, writer) {
        Ok(()) => Ok(()),
        Err(_) => Err(Failure::Device(task.output.name())),
    }
}

/// Writes the picture of a scene.
fn draw<'a, W: CountedWrite>(
    alloc: Global,
    scene: &Scene,
    task: &Drawing<'a>,
    writer: &mut W,
) -> Result<(), Failure<'a>>
    ensures picture { OnOk result (WritesAll (W.output writer.old) (W.output writer.new)
        (picture_of task.now scene.now)) }
    ensures prints { IfErr result (λ failure. Prints (outcome_of failure) (W.output writer.old)
        (W.output writer.new)) }
{
    let Ok(view) = view(alloc, scene, task) else {
        return Err(Failure::Memory);
    };
    let written = write_view(scene, &view, task, writer);
    drop(view);
    written
}

/// Writes the picture of a scene to the target of the task. A file is made at the picture's first
/// byte.
fn draw_to<'a, R: OutputFiles, O: CountedWrite>(
    rt: &R,
    alloc: Global,
    scene: &Scene,
    task: &Drawing<'a>,
    out: &mut O,
) -> Result<(), Failure<'a>>
    ensures given { OnOk result (IsTargetGiven (IsFileGiven R.Output.contents R.is_made R.is_let_go)
        task.now.output (O.output out.old) (O.output out.new) (picture_of task.now scene.now)) }
    ensures file { is_stdout task.now.output ≡ false → O.output out.new ≡ O.output out.old }
    ensures prints { IfErr result (λ failure. Prints (outcome_of failure) (O.output out.old)
        (O.output out.new)) }
{
    match task.output {
        Target::Stdout => draw(alloc, scene, task, out),
        Target::File(path) => {
            let mut writer = file_at(rt, path);
            let drawn = draw(alloc, scene, task, &mut writer);
            close(writer);
            drawn
        }
    }
}

/// Returns the line for a terminal if no frame is shown.
fn no_frame(bound: PathBound) -> &'static [u8] {
    match bound {
        PathBound::None => NO_FRAME,
        PathBound::Levels(_) | PathBound::NoLonger => NO_FRAME_WITHIN,
    }
}

/// Tells on a terminal that the next frame moves no latches, if it was to be shown. A write that
/// fails changes nothing.
fn tell_no_frame<E: CountedWrite>(scene: &Scene, task: &Drawing<'_>, is_terminal: bool, err: &mut E)
    ensures { is_terminal ≡ false → E.output err.new ≡ E.output err.old }
{
    if is_terminal && task.frame && scene.set.is_none() {
        let _ = write_all(err, no_frame(task.options.bound));
    }
}

/// Reads a circuit, and writes its picture. A file is made after everything that can be refused is
/// checked.
///
/// If standard error is a terminal, a line there says that no frame helps, if one was to be shown.
pub fn write_picture<
    'a,
    R: Files + OutputFiles + Threads + Sync,
    I: CountedRead,
    O: CountedWrite,
    E: CountedWrite,
>(
    rt: &R,
    alloc: Global,
    task: &Drawing<'a>,
    streams: &mut Streams<I, O, E>,
) -> Result<Outcome, Failure<'a>>
    ensures picture { IfOk result
        (PrintsPicture (IsFileGiven R.Output.contents R.is_made R.is_let_go) task.now
        (I.input streams.old.stdin) (I.input streams.new.stdin) (O.output streams.old.out)
        (O.output streams.new.out)) }
    ensures file { is_stdout task.now.output ≡ false
        → O.output streams.new.out ≡ O.output streams.old.out }
    ensures prints { Prints (ending result) (O.output streams.old.out) (O.output streams.new.out) }
{
    match scene_for(rt, alloc, task, &mut streams.stdin) {
        Ok(scene) => {
            let drawn = draw_to(rt, alloc, &scene, task, &mut streams.out);
            tell_no_frame(&scene, task, streams.is_terminal, &mut streams.err);
            drop(scene);
            match drawn {
                Ok(()) => Ok(Outcome::Done),
                Err(failure) => Err(failure),
            }
        }
        Err(failure) => Err(failure),
    }
}
