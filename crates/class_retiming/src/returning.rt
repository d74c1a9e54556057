//! The call for moves backward: a circuit whose registers are moved from behind gates to before
//! them, past enables and resets too.
ghost use Rattle.std.specs.Prelude.{◌≡◌, IfOk, IsTrue};
ghost use Rattle.class_retiming.specs.Answered.{IsReturn, IsReturned, IsReturnIn};

use crate::drafting::draft_back;
use crate::retiming::MovedOn;
use aig_graph::{Circuit, Keep, NoMemory};
use backward_circuits::is_moved_back;
use backward_classes::ReturnedDraft;
use backward_retiming::{
    Drafted, MoveOptions, MoveStage, MoveWatcher, MovedBack, Moves, draft_moves, move_as_found,
};
use backward_sets::number;
use class_circuits::has_other_latches;
use std::alloc::Global;

/// The most drafts of a run.
const MOST_DRAFTS: u32 = 32;

/// A draft that the judge takes, if there is one, and how many frames were taken in one that it
/// refused.
#[derive(Drop)]
pub(crate) struct Returning {
    pub(crate) drafted: Option<ReturnedDraft>,
    pub(crate) refused: u32,
}

impl Returning {
    /// Returns what was found, after drafts of some frames that were refused.
    fn after(self, refused: u32) -> Returning
        ensures { result.drafted ≡ self.drafted }
    {
        let Returning {
            drafted,
            refused: _refused,
        } = self;
        Returning { drafted, refused }
    }
}

/// Returns the draft of plain frames, if some were taken.
fn plain_draft(moves: &Moves) -> Option<&Drafted> {
    match moves {
        Moves::Drafted(drafted) => Some(drafted),
        Moves::Unmoved(_) => None,
    }
}

/// Returns the stage in which classes are looked for, after plain frames.
fn looking(circuit: &Circuit, plain: Option<&Drafted>) -> MoveStage {
    let aig = circuit.aig();
    match plain {
        Some(drafted) => MoveStage::Looking {
            taken: drafted.frames.len(),
            latches: drafted.known_latches(),
            gates: drafted.gates.len(),
        },
        None => MoveStage::Looking {
            taken: 0,
            latches: aig.known_latches(),
            gates: aig.gates().len(),
        },
    }
}

/// Returns true if a draft is one that the circuit may become.
fn is_returned(
    alloc: Global,
    circuit: &Circuit,
    keep: &Keep,
    bound: Option<u32>,
    drafted: &ReturnedDraft,
) -> Result<bool, NoMemory>
    ensures { IfOk result (λ moved. IsTrue moved
        → IsReturned circuit.now keep.now bound drafted.now.after drafted.now.map) }
{
    if has_other_latches(circuit, &drafted.after) {
        is_moved_back(alloc, circuit, keep, bound, &drafted.after, &drafted.map)
    } else {
        Ok(false)
    }
}

/// Judges a draft.
fn judged(
    alloc: Global,
    circuit: &Circuit,
    keep: &Keep,
    bound: Option<u32>,
    drafted: ReturnedDraft,
) -> Result<Returning, NoMemory>
    ensures { IfOk result (IsReturnIn circuit.now keep.now bound) }
{
    match is_returned(alloc, circuit, keep, bound, &drafted) {
        Ok(true) => Ok(Returning {
            drafted: Some(drafted),
            refused: 0,
        }),
        Ok(false) => {
            let refused = drafted.frames;
            drop(drafted);
            Ok(Returning {
                drafted: None,
                refused,
            })
        }
        Err(error) => {
            drop(drafted);
            Err(error)
        }
    }
}

/// Makes a draft with classes, after plain frames, and judges it.
fn tried<W: MoveWatcher>(
    alloc: Global,
    circuit: &Circuit,
    keep: &Keep,
    options: &MoveOptions,
    plain: Option<&Drafted>,
    masks_first: bool,
    watcher: &mut W,
) -> Result<Returning, NoMemory>
    ensures { IfOk result (IsReturnIn circuit.now keep.now options.now.levels) }
{
    watcher.begin(looking(circuit, plain));
    match draft_back(alloc, circuit, keep, plain, options, masks_first)? {
        Some(drafted) => {
            watcher.begin(MoveStage::Checking);
            judged(alloc, circuit, keep, options.levels, drafted)
        }
        None => Ok(Returning {
            drafted: None,
            refused: 0,
        }),
    }
}

/// Returns the number of frames of a draft of plain frames, if there is one.
fn plain_frames(plain: Option<&Drafted>) -> u32 {
    match plain {
        Some(drafted) => number(drafted.frames.len()),
        None => 0,
    }
}

/// Makes drafts until the judge takes one. In the first one masks are taken off first, and in the
/// second one holds are, since the check settles more of these. Each later one has at most half the
/// frames of the one before, and more than the plain ones.
fn shown_return<W: MoveWatcher>(
    alloc: Global,
    circuit: &Circuit,
    keep: &Keep,
    options: &MoveOptions,
    plain: Option<&Drafted>,
    watcher: &mut W,
) -> Result<Returning, NoMemory>
    ensures { IfOk result (IsReturnIn circuit.now keep.now options.now.levels) }
{
    let (mut frames, mut refused) = (options.frames, 0u32);
    for turn in 0..MOST_DRAFTS {
        if frames <= plain_frames(plain) {
            break;
        }
        let fewer = MoveOptions {
            frames,
            levels: options.levels,
        };
        let found = tried(alloc, circuit, keep, &fewer, plain, turn == 0, watcher)?;
        if found.refused == 0 {
            return Ok(found.after(refused));
        }
        refused = refused.max(found.refused);
        if turn > 0 {
            frames = found.refused.min(frames) / 2;
        }
        drop(found);
    }
    Ok(Returning {
        drafted: None,
        refused,
    })
}

/// Returns what a draft has.
fn moved_by(drafted: ReturnedDraft, refused: u32) -> MovedOn
    ensures circuit { result.circuit ≡ drafted.after }
    ensures map { result.map ≡ drafted.map }
{
    let ReturnedDraft {
        after: circuit,
        map,
        frames,
    } = drafted;
    MovedOn {
        circuit,
        map,
        frames,
        refused,
    }
}

/// Returns what plain frames have. If the judge refuses those too, they count as refused.
fn plainly_moved(moved: MovedBack, refused: u32, plain: u32) -> MovedOn
    ensures circuit { result.circuit ≡ moved.circuit }
    ensures map { result.map ≡ moved.map }
{
    let MovedBack {
        circuit,
        map,
        frames,
        staying: _staying,
        is_shown,
    } = moved;
    let refused = if is_shown {
        refused
    } else {
        refused.max(plain)
    };
    MovedOn {
        circuit,
        map,
        frames: number(frames.len()),
        refused,
    }
}

/// Returns the circuit of plain frames, or the circuit itself. A draft of `refused` frames with
/// classes was refused before.
fn plain_answer(
    alloc: Global,
    circuit: Circuit,
    keep: &Keep,
    bound: Option<u32>,
    moves: Moves,
    refused: u32,
) -> Result<MovedOn, NoMemory>
    ensures { IfOk result (IsReturn circuit keep.now bound) }
{
    let plain = plain_frames(plain_draft(&moves));
    let moved = move_as_found(alloc, circuit, keep, bound, moves)?;
    Ok(plainly_moved(moved, refused, plain))
}

/// Goes on from what plain frames found, with classes, as far as that leaves fewer and is shown.
fn returned<W: MoveWatcher>(
    alloc: Global,
    circuit: Circuit,
    keep: &Keep,
    options: &MoveOptions,
    moves: Moves,
    watcher: &mut W,
) -> Result<MovedOn, NoMemory>
    ensures { IfOk result (IsReturn circuit keep.now options.now.levels) }
{
    match shown_return(alloc, &circuit, keep, options, plain_draft(&moves), watcher) {
        Ok(found) => {
            let Returning { drafted, refused } = found;
            match drafted {
                Some(drafted) => {
                    drop(circuit);
                    drop(moves);
                    Ok(moved_by(drafted, refused))
                }
                None => plain_answer(alloc, circuit, keep, options.levels, moves, refused),
            }
        }
        Err(error) => {
            drop(circuit);
            drop(moves);
            Err(error)
        }
    }
}

/// Moves the latches of a circuit backward that aren't held, past their enables and resets too, as
/// far as that leaves fewer and is shown. The map is one of the new circuit's states to those of
/// the circuit. Else the answer is that of [`move_back`](backward_retiming::move_back). The watcher
/// is notified of each plain frame, of the draft, and of the check.
///
/// # Errors
///
/// `NoMemory` if memory is refused.
pub fn move_back_on<W: MoveWatcher>(
    alloc: Global,
    circuit: Circuit,
    keep: &Keep,
    options: &MoveOptions,
    watcher: &mut W,
) -> Result<MovedOn, NoMemory>
    ensures { IfOk result (IsReturn circuit keep.now options.now.levels) }
{
    match draft_moves(alloc, &circuit, keep, options, watcher) {
        Ok(moves) => returned(alloc, circuit, keep, options, moves, watcher),
        Err(error) => {
            drop(circuit);
            Err(error)
        }
    }
}
