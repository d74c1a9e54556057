//! The report of rounds, from those of their runs.
ghost use Rattle.std.specs.Prelude.{◌≡◌, ◌<◌, ◌∷◌, ◌++◌, [], All, IfOk, length};
ghost use Rattle.merging_rounds.specs.Joining.{IsJoined};
ghost use Rattle.merging_rounds.specs.Rounds.{part_of};

use crate::rounds::Rounds;
use aig_graph::{NoMemory, Sequence};
use certificate_files::CertPart;
use clean::composed;
use retimed_circuits::{FrameReport, Retimed};
use std::alloc::Global;

/// Appends a part to the parts.
fn with_part(parts: Sequence<CertPart>, part: CertPart) -> Result<Sequence<CertPart>, NoMemory>
    ensures { IfOk result (λ all. all ≡ parts ++ part ∷ []) }
{
    let mut all = parts.into_vec();
    all.push(part)?;
    Ok(Sequence::from_vec(all))
}

/// Appends frames to frames.
fn with_frames(
    frames: Sequence<FrameReport>,
    more: &[FrameReport],
) -> Result<Sequence<FrameReport>, NoMemory>
    ensures { IfOk result (λ all. all ≡ frames ++ more.now) }
{
    let mut all = frames.into_vec();
    all.extend_from_slice(more)?;
    Ok(Sequence::from_vec(all))
}

/// Reports a first run.
pub(crate) fn of_first(alloc: Global, run: Retimed) -> Result<Rounds, NoMemory>
    ensures circuit { IfOk result (λ r. r.circuit ≡ run.circuit) }
    ensures kept_free { IfOk result (λ r. r.kept_free ≡ run.kept_free) }
    ensures read_latches { IfOk result (λ r. r.read_latches ≡ run.read_latches) }
    ensures frames { IfOk result (λ r. r.frames ≡ run.frames) }
    ensures parts { IfOk result (λ r. r.parts ≡ part_of run ∷ []) }
{
    let Retimed {
        circuit,
        kept_free,
        read_latches,
        merged,
        frames,
        certificates,
    } = run;
    let part = CertPart {
        merged,
        blocks: certificates,
    };
    match with_part(Sequence::empty(alloc), part) {
        Ok(parts) => Ok(Rounds {
            circuit,
            kept_free,
            read_latches,
            frames,
            parts,
        }),
        Err(error) => {
            drop(circuit);
            Err(error)
        }
    }
}

/// What is reported of rounds, but for the circuit that they came to.
#[derive(Drop)]
pub(crate) struct Report {
    pub kept_free: Sequence<u32>,
    pub read_latches: u32,
    pub frames: Sequence<FrameReport>,
    pub parts: Sequence<CertPart>,
}

/// Returns the report of rounds, and drops their circuit.
pub(crate) fn report_of(rounds: Rounds) -> Report
    ensures kept_free { result.kept_free ≡ rounds.kept_free }
    ensures read_latches { result.read_latches ≡ rounds.read_latches }
    ensures frames { result.frames ≡ rounds.frames }
    ensures parts { result.parts ≡ rounds.parts }
{
    let Rounds {
        circuit,
        kept_free,
        read_latches,
        frames,
        parts,
    } = rounds;
    drop(circuit);
    Report {
        kept_free,
        read_latches,
        frames,
        parts,
    }
}

/// Adds a further run to the report of the rounds before it.
pub(crate) fn with_run(alloc: Global, report: Report, run: Retimed) -> Result<Rounds, NoMemory>
    requires { All (λ place. place < length report.kept_free) run.kept_free }
    ensures { IfOk result (IsJoined report run) }
{
    let left = composed(alloc, report.kept_free.as_slice(), run.kept_free.as_slice())?;
    let frames = with_frames(report.frames, run.frames.as_slice())?;
    let part = CertPart {
        merged: run.merged,
        blocks: run.certificates,
    };
    let parts = with_part(report.parts, part)?;
    Ok(Rounds {
        circuit: run.circuit,
        kept_free: Sequence::from_vec(left),
        read_latches: report.read_latches,
        frames,
        parts,
    })
}
