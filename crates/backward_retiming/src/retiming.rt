//! The one call: a circuit whose latches are moved backward, or the circuit itself.
ghost use Rattle.std.specs.Prelude.{ℕ, ◌≡◌, List, Option, IfOk, IfSome};
ghost use Rattle.backward_circuits.specs.MovedBack.{IsMovedBack};
ghost use Rattle.backward_retiming.specs.Answered.{IsDrawnOf, IsAnswerTo};

use aig_graph::{Circuit, Keep, NoMemory};
use backward_circuits::{is_moved_back, wires};
use backward_moves::{Drafted, FrameCounts, MoveOptions, MoveWatcher, Moves, Staying, draft_moves};
use sealed_drafts::{SealError, drawn_circuit, drawn_map};
use std::alloc::Global;

/// What a circuit becomes: the new circuit, the map of its states to those of the first one, and
/// what each frame did.
#[derive(Drop)]
pub struct MovedBack {
    pub circuit: Circuit,
    pub map: Circuit,
    pub frames: Vec<FrameCounts>,
    /// Why no more latches go, as the search found it.
    pub staying: Staying,
    /// Whether nothing was found that the judge refused.
    pub is_shown: bool,
}

/// A circuit and a map that were made of a draft.
#[derive(Drop)]
struct Drawing {
    circuit: Circuit,
    map: Circuit,
}

/// Returns the map of a draft, if the judge takes it.
fn judged_map(
    alloc: Global,
    circuit: &Circuit,
    keep: &Keep,
    bound: Option<u32>,
    after: &Circuit,
    drafted: &Drafted,
) -> Result<Option<Circuit>, NoMemory>
    ensures { IfOk result (λ map. IfSome map (IsMovedBack circuit.now keep.now bound after.now)) }
{
    let gates = drafted.map_gates.as_slice();
    let outputs = drafted.map_outputs.as_slice();
    let map = match drawn_map(alloc, after, circuit, gates, outputs, &[]) {
        Ok(map) => map,
        Err(SealError::NoMemory) => return Err(NoMemory),
        Err(SealError::OutOfRange) => return Ok(None),
    };
    if is_moved_back(alloc, circuit, keep, bound, after, &map)? {
        Ok(Some(map))
    } else {
        Ok(None)
    }
}

/// Returns the circuit and the map of a draft, if the judge takes them.
fn judged(
    alloc: Global,
    circuit: &Circuit,
    keep: &Keep,
    bound: Option<u32>,
    drafted: &Drafted,
) -> Result<Option<Drawing>, NoMemory>
    ensures { IfOk result (λ drawing. IfSome drawing (IsDrawnOf circuit.now keep.now bound)) }
{
    let (latches, gates) = (drafted.latches.as_slice(), drafted.gates.as_slice());
    let after = match drawn_circuit(alloc, circuit, latches, gates, drafted.stands.as_slice()) {
        Ok(after) => after,
        Err(SealError::NoMemory) => return Err(NoMemory),
        Err(SealError::OutOfRange) => return Ok(None),
    };
    match judged_map(alloc, circuit, keep, bound, &after, drafted)? {
        Some(map) => Ok(Some(Drawing {
            circuit: after,
            map,
        })),
        None => Ok(None),
    }
}

/// Returns the circuit itself.
fn unmoved(
    alloc: Global,
    circuit: Circuit,
    staying: Staying,
    is_shown: bool,
) -> Result<MovedBack, NoMemory>
    ensures { IfOk result (λ moved. (held : List ℕ) (bound : Option ℕ)
        → IsAnswerTo circuit held bound moved) }
{
    circuit.known();
    match wires(alloc, &circuit) {
        Ok(map) => Ok(MovedBack {
            circuit,
            map,
            frames: Vec::new(alloc),
            staying,
            is_shown,
        }),
        Err(error) => {
            drop(circuit);
            Err(error)
        }
    }
}

/// Returns a draft as it was drawn, with what its frames did.
fn moved_by(drawing: Drawing, drafted: Drafted) -> MovedBack
    ensures circuit { result.circuit ≡ drawing.circuit }
    ensures map { result.map ≡ drawing.map }
{
    let Drawing { circuit, map } = drawing;
    let staying = drafted.staying;
    MovedBack {
        circuit,
        map,
        frames: drafted.into_frames(),
        staying,
        is_shown: true,
    }
}

/// Returns the circuit of a draft, whoever made it, if the judge takes that, and else the circuit
/// itself.
///
/// # Errors
///
/// `NoMemory` if memory is refused.
pub fn move_as_drafted(
    alloc: Global,
    circuit: Circuit,
    keep: &Keep,
    bound: Option<u32>,
    drafted: Drafted,
) -> Result<MovedBack, NoMemory>
    ensures { IfOk result (IsAnswerTo circuit keep.now bound) }
{
    match judged(alloc, &circuit, keep, bound, &drafted) {
        Ok(Some(drawing)) => {
            drop(circuit);
            Ok(moved_by(drawing, drafted))
        }
        Ok(None) => {
            let staying = drafted.staying;
            drop(drafted);
            unmoved(alloc, circuit, staying, false)
        }
        Err(error) => {
            drop(circuit);
            drop(drafted);
            Err(error)
        }
    }
}

/// Returns the circuit of what was found, if a draft was and the judge takes that, and else the
/// circuit itself.
///
/// # Errors
///
/// `NoMemory` if memory is refused.
pub fn move_as_found(
    alloc: Global,
    circuit: Circuit,
    keep: &Keep,
    bound: Option<u32>,
    moves: Moves,
) -> Result<MovedBack, NoMemory>
    ensures { IfOk result (IsAnswerTo circuit keep.now bound) }
{
    match moves {
        Moves::Drafted(drafted) => move_as_drafted(alloc, circuit, keep, bound, drafted),
        Moves::Unmoved(staying) => unmoved(alloc, circuit, staying, true),
    }
}

/// Moves the latches of a circuit backward that aren't held, as far as that saves some and is
/// shown. The streams are those of the circuit, and the map is one of the new circuit's states to
/// those of the circuit. There are no more latches, and held latches stay with their resets and
/// names. No path is longer than the bound, if there is one, or than the circuit's longest. The
/// watcher is notified of each frame, and of the check.
///
/// # Errors
///
/// `NoMemory` if memory is refused.
pub fn move_back<W: MoveWatcher>(
    alloc: Global,
    circuit: Circuit,
    keep: &Keep,
    options: &MoveOptions,
    watcher: &mut W,
) -> Result<MovedBack, NoMemory>
    ensures { IfOk result (IsAnswerTo circuit keep.now options.now.levels) }
{
    match draft_moves(alloc, &circuit, keep, options, watcher) {
        Ok(moves) => move_as_found(alloc, circuit, keep, options.levels, moves),
        Err(error) => {
            drop(circuit);
            Err(error)
        }
    }
}
