//! The options of a further round.
ghost use Rattle.std.specs.Prelude.{◌≡◌, IfOk};
ghost use Rattle.frame_runs.specs.Bounds.{levels_named};
ghost use Rattle.merging_rounds.specs.Asking.{AreRoundOptions};

use aig_graph::{Keep, NoMemory};
use frame_runs::{Options, PathBound};
use std::alloc::Global;

/// Returns a bound of this many gates.
fn path_bound(bound: Option<u32>) -> PathBound
    ensures { levels_named result ≡ bound }
{
    match bound {
        Some(most) => PathBound::Levels(most),
        None => PathBound::None,
    }
}

/// Returns the positions of held latches as a list of their own.
fn positions_of(alloc: Global, keep: &Keep) -> Result<Vec<u32>, NoMemory>
    ensures { IfOk result (λ positions. positions.items ≡ keep.now) }
{
    let held = keep.positions();
    let mut positions = Vec::with_capacity(alloc, held.len())?;
    positions.extend_from_slice(held)?;
    Ok(positions)
}

/// Returns the options of a further round, which holds these latches, keeps this bound, and takes
/// at most `left` frames.
pub(crate) fn round_options(
    alloc: Global,
    options: &Options,
    bound: Option<u32>,
    keep: &Keep,
    left: u32,
) -> Result<Options, NoMemory>
    ensures { IfOk result (AreRoundOptions options.now bound keep.now left) }
{
    let keep_latches = positions_of(alloc, keep)?;
    Ok(Options {
        spelling: None,
        max_frames: left,
        choice: options.choice,
        certify: options.certify,
        keep: Vec::new(alloc),
        keep_latches,
        merge: true,
        classes: None,
        bound: path_bound(bound),
    })
}
