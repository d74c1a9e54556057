//! Drafts and the judge: the whole draft is asked at once, and less of it only if it isn't shown.
ghost use Rattle.std.specs.Prelude.{IfOk};
ghost use Rattle.class_retiming.specs.Answered.{IsFoundIn, IsTrialOf};

use crate::drafting::draft;
use aig_graph::{Circuit, Keep, NoMemory};
use backward_moves::{MoveOptions, MoveStage, MoveWatcher};
use class_circuits::is_moved_on;
use class_drafts::Drafted;
use std::alloc::Global;
use std::thread::Threads;

/// The most drafts of a run: each but the second has at most half the frames of the one before.
const MOST_DRAFTS: u32 = 33;

/// What the judge says of a draft.
#[derive(Drop)]
pub(crate) enum Trial {
    /// Takes it.
    Shown(Drafted),
    /// Refuses it, which took this many frames.
    Refused(u32),
    /// There is none.
    Nothing,
}

/// Returns the stage in which a draft is made.
fn looking(circuit: &Circuit) -> MoveStage {
    MoveStage::Looking {
        taken: 0,
        latches: circuit.aig().known_latches(),
        gates: circuit.aig().gates().len(),
    }
}

/// Judges a draft.
fn judged(
    alloc: Global,
    circuit: &Circuit,
    keep: &Keep,
    bound: Option<u32>,
    drafted: Drafted,
) -> Result<Trial, NoMemory>
    ensures { IfOk result (IsTrialOf circuit.now keep.now bound) }
{
    match is_moved_on(alloc, circuit, keep, bound, &drafted.after, &drafted.map) {
        Ok(true) => Ok(Trial::Shown(drafted)),
        Ok(false) => {
            let frames = drafted.frames;
            drop(drafted);
            Ok(Trial::Refused(frames))
        }
        Err(error) => {
            drop(drafted);
            Err(error)
        }
    }
}

/// Makes a draft, and judges it.
fn tried<R: Threads + Sync, W: MoveWatcher>(
    rt: &R,
    alloc: Global,
    circuit: &Circuit,
    keep: &Keep,
    options: &MoveOptions,
    merges: bool,
    watcher: &mut W,
) -> Result<Trial, NoMemory>
    ensures { IfOk result (IsTrialOf circuit.now keep.now options.now.levels) }
{
    watcher.begin(looking(circuit));
    match draft(rt, alloc, circuit, keep, options, merges)? {
        Some(drafted) => {
            watcher.begin(MoveStage::Checking);
            judged(alloc, circuit, keep, options.levels, drafted)
        }
        None => Ok(Trial::Nothing),
    }
}

/// A draft that the judge takes, if there is one, and the most frames of those that it refused and
/// that merge no latches.
#[derive(Drop)]
pub(crate) struct Found {
    pub(crate) drafted: Option<Drafted>,
    pub(crate) refused: u32,
}

/// Makes drafts until the judge takes one or no frame is left. Latches are merged in the first one
/// alone. The second has as many frames, and each after it at most half those of the one before.
///
/// # Errors
///
/// `NoMemory` if memory is refused.
pub(crate) fn shown_draft<R: Threads + Sync, W: MoveWatcher>(
    rt: &R,
    alloc: Global,
    circuit: &Circuit,
    keep: &Keep,
    options: &MoveOptions,
    watcher: &mut W,
) -> Result<Found, NoMemory>
    ensures { IfOk result (IsFoundIn circuit.now keep.now options.now.levels) }
{
    let (mut frames, mut merges, mut refused) = (options.frames, true, 0u32);
    for _ in 0..MOST_DRAFTS {
        if frames == 0 {
            break;
        }
        let fewer = MoveOptions {
            frames,
            levels: options.levels,
        };
        match tried(rt, alloc, circuit, keep, &fewer, merges, watcher)? {
            Trial::Shown(drafted) => {
                return Ok(Found {
                    drafted: Some(drafted),
                    refused,
                });
            }
            Trial::Refused(_) if merges => merges = false,
            Trial::Refused(taken) => {
                refused = refused.max(taken);
                frames = taken.min(frames) / 2;
            }
            Trial::Nothing => break,
        }
    }
    Ok(Found {
        drafted: None,
        refused,
    })
}
