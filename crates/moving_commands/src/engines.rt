//! What moves latches, by the command. What both tell of a run stands in one form, so that all else
//! is written once.
ghost use Rattle.std.specs.Prelude.{◌≡◌, IfOk};
ghost use Rattle.command_line.specs.declared.task.MoveKind.TheVariants.{Backward, Enables};
ghost use Rattle.moving_commands.specs.Moving.{IsMovedBy};
ghost use Rattle.moving_commands.specs.Printing.{is_shown};

use aig_graph::{Circuit, Keep, NoMemory};
use backward_retiming::{FrameCounts, MoveOptions, MoveWatcher, MovedBack, Staying, move_back};
use class_retiming::{MovedOn, move_back_on, move_on};
use command_line::{MoveKind, Moving};
use std::alloc::Global;
use std::thread::Threads;

/// What is told of a run.
#[derive(Drop)]
pub(crate) enum Report {
    /// What each frame of `backward` did, why no more latches go, and true if nothing was found
    /// that the judge refused.
    OfBackward(Vec<FrameCounts>, Staying, bool),
    /// The number of frames that were taken past enables, and of those in a draft that the judge
    /// refused.
    OfEnables(u32, u32),
}

impl Report {
    /// Returns true if nothing was found that the judge refused.
    pub(crate) fn is_shown(&self) -> bool
        ensures { result ≡ is_shown self.now }
    {
        match self {
            Report::OfBackward(_, _, is_shown) => *is_shown,
            Report::OfEnables(_, refused) => *refused == 0,
        }
    }
}

/// The new circuit, its map, and what is told of the run.
#[derive(Drop)]
pub(crate) struct MovedCircuit {
    pub(crate) circuit: Circuit,
    pub(crate) map: Circuit,
    pub(crate) report: Report,
}

/// Moves latches backward.
fn moved_back<W: MoveWatcher>(
    alloc: Global,
    circuit: Circuit,
    keep: &Keep,
    options: &MoveOptions,
    watcher: &mut W,
) -> Result<MovedCircuit, NoMemory>
    ensures { IfOk result (IsMovedBy Backward circuit keep.now options.now.levels) }
{
    let moved = move_back(alloc, circuit, keep, options, watcher)?;
    let MovedBack {
        circuit,
        map,
        frames,
        staying,
        is_shown,
    } = moved;
    Ok(MovedCircuit {
        circuit,
        map,
        report: Report::OfBackward(frames, staying, is_shown),
    })
}

/// Returns what moves past enables gave.
fn past_enables(moved: MovedOn) -> MovedCircuit
    ensures circuit { result.circuit ≡ moved.circuit }
    ensures map { result.map ≡ moved.map }
{
    let MovedOn {
        circuit,
        map,
        frames,
        refused,
    } = moved;
    MovedCircuit {
        circuit,
        map,
        report: Report::OfEnables(frames, refused),
    }
}

/// Moves latches backward, past enables and resets too.
fn moved_back_on<W: MoveWatcher>(
    alloc: Global,
    circuit: Circuit,
    keep: &Keep,
    options: &MoveOptions,
    watcher: &mut W,
) -> Result<MovedCircuit, NoMemory>
    ensures { IfOk result (IsMovedBy Backward circuit keep.now options.now.levels) }
{
    let moved = move_back_on(alloc, circuit, keep, options, watcher)?;
    Ok(past_enables(moved))
}

/// Moves registers forward, past enables and resets.
fn moved_on<R: Threads + Sync, W: MoveWatcher>(
    rt: &R,
    alloc: Global,
    circuit: Circuit,
    keep: &Keep,
    options: &MoveOptions,
    watcher: &mut W,
) -> Result<MovedCircuit, NoMemory>
    ensures { IfOk result (IsMovedBy Enables circuit keep.now options.now.levels) }
{
    let moved = move_on(rt, alloc, circuit, keep, options, watcher)?;
    Ok(past_enables(moved))
}

/// Moves latches as a task asks.
///
/// # Errors
///
/// `NoMemory` if memory is refused.
pub(crate) fn moved_by<R: Threads + Sync, W: MoveWatcher>(
    task: &Moving<'_>,
    rt: &R,
    alloc: Global,
    circuit: Circuit,
    keep: &Keep,
    options: &MoveOptions,
    watcher: &mut W,
) -> Result<MovedCircuit, NoMemory>
    ensures { IfOk result (IsMovedBy task.now.kind circuit keep.now options.now.levels) }
{
    match task.kind {
        MoveKind::Backward => {
            if task.enables {
                moved_back_on(alloc, circuit, keep, options, watcher)
            } else {
                moved_back(alloc, circuit, keep, options, watcher)
            }
        }
        MoveKind::Enables => moved_on(rt, alloc, circuit, keep, options, watcher),
    }
}
