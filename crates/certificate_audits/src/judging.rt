//! The judgement of one block for its circuit, and whether an audit ends with it.
ghost use Rattle.std.specs.Prelude.{◌<◌, All, IfOk, MatchOption, Some, length};
ghost use Rattle.certificates.specs.Verdicts.{IsVerdict};
ghost use Rattle.path_levels.specs.Bounded.{bounded};
ghost use Rattle.certificate_audits.specs.Audits.{IsVerdictBy, Saves};
ghost use Rattle.certificate_audits.specs.Findings.{EndsWith, GoesOn, IsFinding};

use crate::moving::{Stage, moved_over};
use crate::outcome::{Audit, BlockObjection, End};
use aig_graph::{Circuit, Keep, NoMemory};
use certificates::{Certificate, Verdict, check};
use path_levels::{bounded, levels};
use std::alloc::Global;

#[derive(Clone, Copy)]
pub(crate) enum Finding {
    /// The block isn't confirmed.
    Objected(BlockObjection),
    /// The set is least, the move over it leaves fewer latches with a known reset, and the move
    /// keeps the bound.
    Fewer,
    /// The set is least, and the move over it doesn't leave fewer latches.
    NotFewer,
}

/// Checks a block for the circuit bounded by `most`.
fn bounded_verdict(
    alloc: Global,
    circuit: &Circuit,
    block: &Certificate,
    keep: &Keep,
    most: u32,
) -> Result<Verdict, NoMemory>
    ensures { IfOk result (IsVerdict (bounded most keep.now circuit.now) keep.now block.now) }
{
    let narrowed = bounded(alloc, circuit, keep, most)?;
    let verdict = check(alloc, &narrowed, block, keep);
    drop(narrowed);
    verdict
}

/// Checks a block for the circuit. Under a bound a block passes too if it passes for the bounded
/// circuit.
fn verdict(
    alloc: Global,
    circuit: &Circuit,
    block: &Certificate,
    keep: &Keep,
    bound: Option<u32>,
) -> Result<Verdict, NoMemory>
    ensures { IfOk result (IsVerdictBy bound keep.now circuit.now block.now) }
{
    let whole = check(alloc, circuit, block, keep)?;
    let Some(most) = bound else {
        return Ok(whole);
    };
    match whole {
        Verdict::Yes => Ok(Verdict::Yes),
        Verdict::No(objection) => match bounded_verdict(alloc, circuit, block, keep, most)? {
            Verdict::Yes => Ok(Verdict::Yes),
            Verdict::No(_) => Ok(Verdict::No(objection)),
        },
    }
}

/// Judges a block that saves latches, by the longest path after its move.
fn judge_move(
    alloc: Global,
    stage: &Stage,
    block: &Certificate,
    most: u32,
) -> Result<Finding, NoMemory>
    requires in_range { All (λ j. j < length stage.now.circuit.aig.latches) stage.now.keep }
    requires saves { Saves (Some most) stage.now.keep stage.now.circuit block.now }
    ensures { IfOk result (IsFinding (Some most) stage.now.keep stage.now.circuit block.now) }
{
    let after = moved_over(alloc, stage, block)?;
    let counted = levels(alloc, &after.circuit);
    drop(after);
    match counted {
        Ok(high) if high <= most => Ok(Finding::Fewer),
        Ok(_) => Ok(Finding::Objected(BlockObjection::TooLong)),
        Err(error) => Err(error),
    }
}

/// Judges a block that saves latches. Without a bound that costs nothing.
fn judge_saving(
    alloc: Global,
    stage: &Stage,
    block: &Certificate,
    bound: Option<u32>,
) -> Result<Finding, NoMemory>
    requires in_range { All (λ j. j < length stage.now.circuit.aig.latches) stage.now.keep }
    requires saves { Saves bound stage.now.keep stage.now.circuit block.now }
    ensures { IfOk result (IsFinding bound stage.now.keep stage.now.circuit block.now) }
{
    match bound {
        None => Ok(Finding::Fewer),
        Some(most) => judge_move(alloc, stage, block, most),
    }
}

/// Judges a block for the circuit of `stage`.
fn judge(
    alloc: Global,
    stage: &Stage,
    block: &Certificate,
    bound: Option<u32>,
) -> Result<Finding, NoMemory>
    requires { All (λ j. j < length stage.now.circuit.aig.latches) stage.now.keep }
    ensures { IfOk result (IsFinding bound stage.now.keep stage.now.circuit block.now) }
{
    // Tells the prover that it is a circuit.
    stage.circuit.known();
    let known = stage.circuit.aig().known_latches();
    match verdict(alloc, &stage.circuit, block, &stage.keep, bound)? {
        Verdict::No(objection) => Ok(Finding::Objected(BlockObjection::Fails(objection))),
        Verdict::Yes if block.count < known => judge_saving(alloc, stage, block, bound),
        Verdict::Yes => Ok(Finding::NotFewer),
    }
}

/// Returns the audit of `block` and of the blocks after it, if it ends with this block.
pub(crate) fn end_at(
    alloc: Global,
    stage: &Stage,
    block: &Certificate,
    rest: &[Certificate],
    bound: Option<u32>,
) -> Result<Option<Audit>, NoMemory>
    requires { All (λ j. j < length stage.now.circuit.aig.latches) stage.now.keep }
    ensures { IfOk result (λ found. MatchOption found
        (GoesOn bound stage.now.keep stage.now.circuit block.now rest.now)
        (λ audit. EndsWith bound stage.now.keep stage.now.circuit block.now rest.now
        audit.confirmed audit.end)) }
{
    let (confirmed, end) = match judge(alloc, stage, block, bound)? {
        Finding::Objected(objection) => (0, End::Objected(objection)),
        Finding::Fewer if rest.is_empty() => (1, End::Open),
        Finding::Fewer => return Ok(None),
        Finding::NotFewer if rest.is_empty() => (1, End::Certified),
        Finding::NotFewer => (1, End::BlocksFollow),
    };
    Ok(Some(Audit { confirmed, end }))
}
