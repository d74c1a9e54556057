//! An audit from the first block to the last.
ghost use Rattle.std.specs.Prelude.{ℕ, ◌≡◌, ◌<◌, All, IfOk, OnOk, IsErrOf, Option, length};
ghost use Rattle.aig_graph.specs.Keep.{IsFirstMissing, NoneMissing, held_in, names_of};
ghost use Rattle.aig_graph.specs.declared.holding.KeepError.TheVariants.{NoSuchName};
ghost use Rattle.certificate_audits.specs.Audits.{IsAudit, Saves};
ghost use Rattle.certificate_audits.specs.Findings.{IsLastOf};
ghost use Rattle.certificate_audits.specs.Replays.{IsReplay, Replays};

use crate::judging::end_at;
use crate::moving::{Stage, after_block, stage_of};
use crate::outcome::{Audit, End, Replay, audit_of};
use aig_graph::{Circuit, Keep, KeepError, NoMemory, keep_of};
use certificates::Certificate;
use clean::clean;
use std::alloc::Global;

/// Returns the circuit that blocks end in, and its held latches. `block` is the last of them, for
/// the circuit of `stage`, and the audit ended with `end`.
fn last_stage(
    alloc: Global,
    stage: Stage,
    block: &Certificate,
    end: End,
) -> Result<Option<Stage>, NoMemory>
    requires in_range { All (λ j. j < length stage.circuit.aig.latches) stage.keep }
    requires saves { end ≡ End.Open
        → (bound : Option ℕ) × Saves bound stage.keep stage.circuit block.now }
    ensures { IfOk result (IsLastOf stage.keep stage.circuit block.now end) }
{
    match end {
        End::Open => match after_block(alloc, stage, block) {
            Ok(next) => Ok(Some(next)),
            Err(error) => Err(error),
        },
        End::NoBlocks | End::Certified => Ok(Some(stage)),
        End::BlocksFollow | End::Objected(_) | End::Misread(_) | End::NotShown(_) => {
            drop(stage);
            Ok(None)
        }
    }
}

/// Returns the replay of an audit that ends with `block`, for the circuit of `stage`.
fn ended_with(
    alloc: Global,
    stage: Stage,
    block: &Certificate,
    audit: Audit,
) -> Result<Replay, NoMemory>
    requires in_range { All (λ j. j < length stage.circuit.aig.latches) stage.keep }
    requires saves { audit.end ≡ End.Open
        → (bound : Option ℕ) × Saves bound stage.keep stage.circuit block.now }
    ensures audit { IfOk result (λ replay. replay.audit ≡ audit) }
    ensures last { IfOk result (λ replay. IsLastOf stage.keep stage.circuit block.now
        audit.end replay.last) }
{
    match last_stage(alloc, stage, block, audit.end) {
        Ok(last) => Ok(Replay { audit, last }),
        Err(error) => Err(error),
    }
}

/// Audits blocks, the first of which is for the circuit of `first`. Returns the circuit that they
/// end in too.
fn replay_from(
    alloc: Global,
    first: Stage,
    blocks: &[Certificate],
    bound: Option<u32>,
) -> Result<Replay, NoMemory>
    requires { All (λ j. j < length first.circuit.aig.latches) first.keep }
    ensures { IfOk result (Replays bound first.keep first.circuit blocks.now) }
{
    let mut stage = first;
    for (place, block) in blocks.iter().enumerate() {
        match end_at(alloc, &stage, block, &blocks[place + 1..], bound) {
            Ok(None) => stage = after_block(alloc, stage, block)?,
            Ok(Some(last)) => {
                let audit = Audit {
                    confirmed: place + last.confirmed,
                    end: last.end,
                };
                return ended_with(alloc, stage, block, audit);
            }
            Err(error) => {
                drop(stage);
                return Err(error);
            }
        }
    }
    Ok(Replay {
        audit: Audit {
            confirmed: 0,
            end: End::NoBlocks,
        },
        last: Some(stage),
    })
}

/// Audits blocks as [`audit_blocks`] does, with the latches `keep` held, and returns the circuit
/// that they end in too.
///
/// For the blocks of a run of `retime`, also of one that its limit of frames ended, this is the
/// circuit that the run wrote. If the last block saves latches, it takes one more move and one more
/// cleaning.
///
/// # Errors
///
/// `NoMemory` if memory is refused.
pub fn replay_blocks(
    alloc: Global,
    circuit: &Circuit,
    blocks: &[Certificate],
    keep: &Keep,
    bound: Option<u32>,
) -> Result<Replay, NoMemory>
    requires { All (λ j. j < length circuit.now.aig.latches) keep.now }
    ensures { IfOk result (IsReplay bound keep.now circuit.now blocks.now) }
{
    let first = clean(alloc, circuit, keep)?;
    replay_from(alloc, stage_of(first), blocks, bound)
}

/// Audits blocks with the latches `keep` held.
fn audit_held(
    alloc: Global,
    circuit: &Circuit,
    blocks: &[Certificate],
    keep: &Keep,
    bound: Option<u32>,
) -> Result<Audit, NoMemory>
    requires { All (λ j. j < length circuit.now.aig.latches) keep.now }
    ensures { IfOk result (IsAudit bound keep.now circuit.now blocks.now) }
{
    match replay_blocks(alloc, circuit, blocks, keep, bound) {
        Ok(replay) => Ok(audit_of(replay)),
        Err(error) => Err(error),
    }
}

/// Audits blocks of certificates, frame by frame, as they were made by a retiming of the circuit.
///
/// The first block is judged for the cleaned circuit. Each further block is judged for the circuit
/// after the block before: latches move over its set, and the circuit is cleaned. The latches whose
/// symbol is one of `names` are held.
///
/// The audit ends at the first block that isn't confirmed or that doesn't need fewer latches than
/// there are, and otherwise at the last one.
///
/// `bound` is the bound on path length that the run had. Under a bound a block is confirmed too if
/// its set is least among the sets of gates that arrive within the bound. A block whose move makes
/// a path longer than the bound isn't confirmed.
///
/// Each block takes the time of `check`. A block that another follows also takes one move and one
/// cleaning. Only one circuit is kept at a time.
///
/// # Errors
///
/// `NoSuchName` if no latch of the circuit has a name; this is found first. `NoMemory` if memory is
/// refused.
pub fn audit_blocks(
    alloc: Global,
    circuit: &Circuit,
    blocks: &[Certificate],
    names: &[Vec<u8>],
    bound: Option<u32>,
) -> Result<Audit, KeepError>
    ensures audit { IfOk result (IsAudit bound (held_in (names_of names.now) circuit.now)
        circuit.now blocks.now) }
    ensures none_missing { OnOk result (NoneMissing (names_of names.now) circuit.now) }
    ensures missing { (place : ℕ) → IsErrOf result (NoSuchName place)
        → IsFirstMissing (names_of names.now) circuit.now place }
{
    // Tells the prover that the held latches are among the circuit's.
    circuit.known();
    let keep = keep_of(alloc, circuit, names)?;
    match audit_held(alloc, circuit, blocks, &keep, bound) {
        Ok(audit) => Ok(audit),
        Err(NoMemory) => Err(KeepError::NoMemory),
    }
}
