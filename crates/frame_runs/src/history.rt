//! The reports that frames leave beside the circuit.
ghost use Rattle.std.specs.Prelude.{◌≡◌, ◌++◌, ◌∷◌, ◌<◌, [], length, IfOk};
ghost use Rattle.std.specs.List.{All};
ghost use Rattle.aig_graph.specs.Laws.{composed};

use aig_graph::{NoMemory, Sequence};
use certificates::MergedLatch;
use clean::composed;
use retimed_circuits::{FrameReport, Retimed};
use std::alloc::Global;

/// The places of the free latches that are left, the number of latches that were read, the merged
/// ones, and the reports of the frames.
#[derive(Drop)]
pub(crate) struct History {
    pub kept_free: Sequence<u32>,
    pub read_latches: u32,
    pub merged: Option<Sequence<MergedLatch>>,
    pub frames: Sequence<FrameReport>,
}

/// Returns the history of a retimed circuit, and drops the circuit and its certificates.
pub(crate) fn history_of(retimed: Retimed) -> History
    ensures kept_free { result.kept_free ≡ retimed.kept_free }
    ensures read_latches { result.read_latches ≡ retimed.read_latches }
    ensures merged { result.merged ≡ retimed.merged }
    ensures frames { result.frames ≡ retimed.frames }
{
    let Retimed {
        circuit,
        kept_free,
        read_latches,
        merged,
        frames,
        ..
    } = retimed;
    drop(circuit);
    History {
        kept_free,
        read_latches,
        merged,
        frames,
    }
}

/// Appends a report to the reports.
fn with_report(
    frames: Sequence<FrameReport>,
    report: FrameReport,
) -> Result<Sequence<FrameReport>, NoMemory>
    ensures { IfOk result (λ all. all ≡ frames ++ report ∷ []) }
{
    let mut all = frames.into_vec();
    all.push(report)?;
    Ok(Sequence::from_vec(all))
}

/// Appends a frame to the history. `places` has, for each free latch that the frame leaves, its
/// place among those before.
pub(crate) fn with_frame(
    alloc: Global,
    history: History,
    places: &[u32],
    report: FrameReport,
) -> Result<History, NoMemory>
    requires { All (λ place. place < length history.kept_free) places.now }
    ensures kept_free { IfOk result (λ after. after.kept_free
        ≡ composed history.kept_free places.now) }
    ensures read_latches { IfOk result (λ after. after.read_latches ≡ history.read_latches) }
    ensures merged { IfOk result (λ after. after.merged ≡ history.merged) }
    ensures frames { IfOk result (λ after. after.frames ≡ history.frames ++ report ∷ []) }
{
    let left = composed(alloc, history.kept_free.as_slice(), places)?;
    let frames = with_report(history.frames, report)?;
    Ok(History {
        kept_free: Sequence::from_vec(left),
        read_latches: history.read_latches,
        merged: history.merged,
        frames,
    })
}
