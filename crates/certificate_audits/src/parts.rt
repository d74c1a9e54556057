//! Replays of the further parts of a file. Each part is about the circuit that the parts before it
//! end in.
ghost use Rattle.std.specs.Prelude.{◌<◌, All, IfOk, IfSome, length};
ghost use Rattle.certificate_audits.specs.Parts.{IsPartReplay, IsStageInRange, ReplaysParts};

use crate::merged::replay_merged;
use crate::moving::Stage;
use crate::outcome::{Audit, Replay};
use crate::run::replay_blocks;
use aig_graph::NoMemory;
use certificate_files::CertPart;
use std::alloc::Global;

/// The outcome of further parts.
#[derive(Drop)]
pub struct PartsReplay {
    /// The audits of the parts that were judged, in order.
    pub audits: Vec<Audit>,
    /// The circuit that the last part ends in. `None` if something speaks against a part.
    pub last: Option<Stage>,
}

/// Replays a part of a file.
fn replay_part(
    alloc: Global,
    stage: &Stage,
    part: &CertPart,
    bound: Option<u32>,
) -> Result<Replay, NoMemory>
    requires { All (λ j. j < length stage.now.circuit.aig.latches) stage.now.keep }
    ensures { IfOk result (IsPartReplay bound stage.now.keep stage.now.circuit part.now) }
{
    let Stage { circuit, keep } = stage;
    let blocks = part.blocks.as_slice();
    match &part.merged {
        Some(lines) => replay_merged(alloc, circuit, lines.as_slice(), blocks, keep, bound),
        None => replay_blocks(alloc, circuit, blocks, keep, bound),
    }
}

/// Replays a part of a file, and drops the circuit that it is about.
fn replay_over(
    alloc: Global,
    stage: Stage,
    part: &CertPart,
    bound: Option<u32>,
) -> Result<Replay, NoMemory>
    requires { All (λ j. j < length stage.circuit.aig.latches) stage.keep }
    ensures { IfOk result (IsPartReplay bound stage.keep stage.circuit part.now) }
{
    let replay = replay_part(alloc, &stage, part, bound);
    drop(stage);
    replay
}

/// Replays the further parts of a file, from the circuit that its first part ends in. If something
/// speaks against a part, those after it aren't judged.
///
/// # Errors
///
/// `NoMemory` if memory is refused.
pub fn replay_parts(
    alloc: Global,
    first: Option<Stage>,
    parts: &[CertPart],
    bound: Option<u32>,
) -> Result<PartsReplay, NoMemory>
    requires { IfSome first IsStageInRange }
    ensures { IfOk result (λ r. ReplaysParts bound first parts.now r.audits.items r.last) }
{
    let mut audits = Vec::with_capacity(alloc, parts.len())?;
    let mut last = first;
    for part in parts {
        let Some(stage) = last else {
            return Ok(PartsReplay { audits, last: None });
        };
        let Replay { audit, last: next } = replay_over(alloc, stage, part, bound)?;
        audits.push(audit)?;
        last = next;
    }
    Ok(PartsReplay { audits, last })
}
