//! Audits of circuits whose latches that always agree were merged before the first frame. A file
//! may say which these are. Then that is judged, and nothing is guessed.
ghost use Rattle.std.specs.Prelude.{◌<◌, All, IfOk, length};
ghost use Rattle.certificate_audits.specs.Replays.{IsGivenReplay, IsGuessedReplay, IsReplay};

use crate::outcome::{End, Replay, refused_by};
use crate::run::replay_blocks;
use aig_graph::{Circuit, Keep, NoMemory};
use certificates::{Certificate, MergedLatch};
use latch_merging::{GivenStart, MergedStart, merged_start, start_by};
use std::alloc::Global;

/// Replays blocks from a merged circuit.
fn replay_of(
    alloc: Global,
    start: MergedStart,
    blocks: &[Certificate],
    bound: Option<u32>,
) -> Result<Replay, NoMemory>
    requires { All (λ j. j < length start.circuit.aig.latches) start.keep }
    ensures { IfOk result (IsReplay bound start.keep start.circuit blocks.now) }
{
    let replay = replay_blocks(alloc, &start.circuit, blocks, &start.keep, bound);
    drop(start);
    replay
}

/// Merges the circuit as `retime` does, and runs [`replay_blocks`](crate::replay_blocks) on the
/// result. This is for certificates of a run that merged latches first, if they don't say which.
///
/// # Errors
///
/// `NoMemory` if memory is refused.
pub fn replay_guessed(
    alloc: Global,
    circuit: &Circuit,
    blocks: &[Certificate],
    keep: &Keep,
    bound: Option<u32>,
) -> Result<Replay, NoMemory>
    requires { All (λ j. j < length circuit.now.aig.latches) keep.now }
    ensures { IfOk result (IsGuessedReplay bound keep.now circuit.now blocks.now) }
{
    let start = merged_start(alloc, circuit, keep)?;
    replay_of(alloc, start, blocks, bound)
}

/// Merges latches of the circuit as `merged` says, if steps are shown to preserve that, and runs
/// [`replay_blocks`](crate::replay_blocks) on the result. This is for certificates that say which
/// latches their run merged first. If one of them is refused, no block is judged.
///
/// # Errors
///
/// `NoMemory` if memory is refused.
pub fn replay_merged(
    alloc: Global,
    circuit: &Circuit,
    merged: &[MergedLatch],
    blocks: &[Certificate],
    keep: &Keep,
    bound: Option<u32>,
) -> Result<Replay, NoMemory>
    requires { All (λ j. j < length circuit.now.aig.latches) keep.now }
    ensures { IfOk result (IsGivenReplay bound keep.now circuit.now merged.now blocks.now) }
{
    match start_by(alloc, circuit, keep, merged) {
        Ok(GivenStart::Merged(start)) => replay_of(alloc, start, blocks, bound),
        Ok(GivenStart::Misread(latch)) => Ok(refused_by(End::Misread(latch))),
        Ok(GivenStart::NotShown(latch)) => Ok(refused_by(End::NotShown(latch))),
        Err(error) => Err(error),
    }
}
