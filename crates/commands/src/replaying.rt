//! The replay of certificates, part by part, and the comparison of a file with the circuit that
//! they end in.
ghost use Rattle.std.specs.Prelude.{◌≡◌, ◌<◌, ◌∷◌, All, IfErr, IfOk, IfSome, List, None, length};
ghost use Rattle.aig_binary.specs.Spellings.{text_in};
ghost use Rattle.reports.specs.Agreements.{IsAgreement};
ghost use Rattle.certificate_audits.specs.Parts.{IsStageInRange, ReplaysParts};
ghost use Rattle.certificate_audits.specs.declared.outcome.Audit.{Audit as PartAudit};
ghost use Rattle.commands.specs.Replaying.{AreRetimedAt, IsAboutRetimed, IsAgreementOn, IsAgreementWith, IsJudgement, IsReplayBy, IsReplayFor, IsUnsaidReplay, ReplaysFile, bytes_in, listed_on, text_like, with_listed};
ghost use Rattle.commands.specs.Replaying as wanted;

use aig_binary::{Spelling, spelling, write};
use aig_graph::{Circuit, Keep, NoMemory, Sequence};
use certificate_audits::{
    PartsReplay, Replay, Stage, replay_blocks, replay_guessed, replay_merged, replay_parts,
};
use certificate_files::{CertFile, CertPart};
use certificates::{Certificate, MergedLatch};
use circuit_files::{Failure, bytes_at};
use command_line::Verification;
use counted_io::{Counted, CountedRead};
use frame_runs::PathBound;
use reports::{Agreement, Judgement, compare};
use std::alloc::Global;
use std::rt::Files;

/// Replays certificates that don't say which latches their run merged, if it merged any.
fn replay_unsaid(
    alloc: Global,
    circuit: &Circuit,
    blocks: &[Certificate],
    keep: &Keep,
    merge: bool,
    most: Option<u32>,
) -> Result<Replay, NoMemory>
    requires { All (λ j. j < length circuit.now.aig.latches) keep.now }
    ensures replay { IfOk result (IsUnsaidReplay most merge keep.now circuit.now blocks.now) }
    ensures in_range { IfOk result (λ replay. IfSome replay.last IsStageInRange) }
{
    if merge {
        replay_guessed(alloc, circuit, blocks, keep, most)
    } else {
        replay_blocks(alloc, circuit, blocks, keep, most)
    }
}

/// Replays the first part of the certificates of a run of `circuit`.
///
/// The run held the latches `keep` and had the bound `most`. It merged latches first if the part
/// says which. If the part doesn't, it did so if `merge` is true.
fn replay_first(
    alloc: Global,
    circuit: &Circuit,
    part: &CertPart,
    keep: &Keep,
    merge: bool,
    most: Option<u32>,
) -> Result<Replay, NoMemory>
    requires { All (λ j. j < length circuit.now.aig.latches) keep.now }
    ensures replay { IfOk result (IsReplayBy part.now.merged most merge keep.now circuit.now
        part.now.blocks) }
    ensures in_range { IfOk result (λ replay. IfSome replay.last IsStageInRange) }
{
    let blocks = part.blocks.as_slice();
    match &part.merged {
        Some(lines) => replay_merged(alloc, circuit, lines.as_slice(), blocks, keep, most),
        None => replay_unsaid(alloc, circuit, blocks, keep, merge, most),
    }
}

/// Replays the parts after the first one, and returns the audits of all.
fn replay_others(
    alloc: Global,
    first: Replay,
    parts: &[CertPart],
    most: Option<u32>,
) -> Result<PartsReplay, NoMemory>
    requires { IfSome first.last IsStageInRange }
    ensures { IfOk result (λ r. (others : List PartAudit)
        × (r.audits.items ≡ first.audit ∷ others)
        × ReplaysParts most first.last parts.now others r.last) }
{
    let Replay { audit, last } = first;
    let mut replay = replay_parts(alloc, last, parts, most)?;
    replay.audits.insert(0, audit)?;
    Ok(replay)
}

/// Replays the parts of certificates.
fn replay_of_parts(
    alloc: Global,
    circuit: &Circuit,
    parts: &[CertPart],
    keep: &Keep,
    merge: bool,
    most: Option<u32>,
) -> Result<PartsReplay, NoMemory>
    requires { All (λ j. j < length circuit.now.aig.latches) keep.now }
    ensures { IfOk result (λ r. ReplaysFile most merge keep.now circuit.now parts.now
        r.audits.items r.last) }
{
    if parts.is_empty() {
        return Ok(PartsReplay {
            audits: Vec::new(alloc),
            last: None,
        });
    }
    let first = replay_first(alloc, circuit, &parts[0], keep, merge, most)?;
    replay_others(alloc, first, &parts[1..], most)
}

/// Replays the certificates of a run of `circuit`, and returns their audits and the circuit that
/// they end in.
///
/// The run held the latches `keep` and had the bound `bound`. It merged latches first if the file
/// says which. If the file doesn't, it did so if `merge` is true.
pub(crate) fn replay_of(
    alloc: Global,
    circuit: &Circuit,
    file: &CertFile,
    keep: &Keep,
    merge: bool,
    bound: PathBound,
) -> Result<PartsReplay, NoMemory>
    requires { All (λ j. j < length circuit.now.aig.latches) keep.now }
    ensures { IfOk result (IsReplayFor bound merge keep.now circuit.now file.now) }
{
    let most = bound.for_circuit(alloc, circuit)?;
    replay_of_parts(alloc, circuit, file.parts.as_slice(), keep, merge, most)
}

/// Adds the merged latches of a part to a number of them, if it lists some.
fn with_listed(counted: Option<u64>, merged: &Option<Sequence<MergedLatch>>) -> Option<u64>
    ensures { result ≡ with_listed counted merged.now }
{
    match merged {
        Some(lines) => Some(counted.unwrap_or(0).saturating_add(lines.len() as u64)),
        None => counted,
    }
}

/// Returns how many merged latches parts list, if one lists some.
fn listed_latches(parts: &[CertPart]) -> Option<u64>
    ensures { result ≡ listed_on None parts.now }
{
    let mut counted = None;
    for part in parts {
        counted = with_listed(counted, &part.merged);
    }
    counted
}

/// Returns how many merged latches a file has, if it says which were merged.
pub(crate) fn merged_count(file: &CertFile) -> Option<u64>
    ensures { result ≡ wanted.merged_count file.now }
{
    listed_latches(file.parts.as_slice())
}

/// Reads the bytes of the file to compare, if there is one.
pub(crate) fn retimed_at<'a, R: Files, I: CountedRead>(
    rt: &R,
    alloc: Global,
    task: &Verification<'a>,
    stdin: &mut I,
) -> Result<Option<Vec<u8>>, Failure<'a>>
    ensures bytes { IfOk result (λ bytes. AreRetimedAt task.now.retimed (I.input stdin.old)
        (I.input stdin.new) (bytes_in bytes)) }
    ensures named { IfErr result (IsAboutRetimed task.now.retimed) }
{
    match task.retimed {
        None => Ok(None),
        Some(source) => match bytes_at(rt, alloc, source, stdin) {
            Ok(bytes) => Ok(Some(bytes)),
            Err(failure) => Err(failure),
        },
    }
}

/// Returns the text of a circuit in `spelling`. The buffer has room for `room` bytes before it
/// grows.
fn text_of(
    alloc: Global,
    circuit: &Circuit,
    spelling: Spelling,
    room: usize,
) -> Result<Vec<u8>, NoMemory>
    ensures { IfOk result (λ text. text.items ≡ text_in spelling circuit.now) }
{
    let mut writer = Counted::new(Vec::with_capacity(alloc, room)?);
    match write(circuit, spelling, &mut writer) {
        Ok(()) => Ok(writer.into_inner()),
        Err(_) => {
            drop(writer);
            Err(NoMemory)
        }
    }
}

/// Compares bytes with the text of a circuit in the spelling of the bytes.
fn compared(alloc: Global, circuit: &Circuit, bytes: &[u8]) -> Result<Agreement, NoMemory>
    ensures { IfOk result (IsAgreement (text_like bytes.now circuit.now) bytes.now) }
{
    let spelling = spelling(bytes).unwrap_or(Spelling::Ascii);
    let text = text_of(alloc, circuit, spelling, bytes.len())?;
    let found = compare(text.as_slice(), bytes);
    drop(text);
    Ok(found)
}

/// Compares bytes with `last`, the circuit that the certificates end in, if there is one.
fn compared_with(
    alloc: Global,
    last: &Option<Stage>,
    bytes: &[u8],
) -> Result<Option<Agreement>, NoMemory>
    ensures { IfOk result (IsAgreementWith last.now bytes.now) }
{
    match last {
        None => Ok(None),
        Some(stage) => match compared(alloc, &stage.circuit, bytes) {
            Ok(found) => Ok(Some(found)),
            Err(error) => Err(error),
        },
    }
}

/// Compares bytes with `last`, the circuit that the certificates end in, if there are both.
fn agreement_of(
    alloc: Global,
    last: &Option<Stage>,
    bytes: &Option<Vec<u8>>,
) -> Result<Option<Agreement>, NoMemory>
    ensures { IfOk result (IsAgreementOn (bytes_in bytes.now) last.now) }
{
    match bytes {
        None => Ok(None),
        Some(bytes) => compared_with(alloc, last, bytes.as_slice()),
    }
}

/// Judges a replay under `bound`, if there is one, and compares the circuit at its end with
/// `bytes`. The file has `merged` merged latches, if it says which they are.
pub(crate) fn judged(
    alloc: Global,
    replay: PartsReplay,
    bytes: &Option<Vec<u8>>,
    bound: Option<u32>,
    merged: Option<u64>,
) -> Result<Judgement, NoMemory>
    ensures { IfOk result (IsJudgement bound merged (bytes_in bytes.now) replay) }
{
    let PartsReplay { audits, last } = replay;
    let found = agreement_of(alloc, &last, bytes);
    drop(last);
    match found {
        Ok(agreement) => Ok(Judgement {
            bound,
            merged,
            audits: Sequence::from_vec(audits),
            agreement,
        }),
        Err(error) => {
            drop(audits);
            Err(error)
        }
    }
}
