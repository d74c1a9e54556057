//! The command `verify`.
ghost use Rattle.std.specs.Prelude.{◌≡◌, IfErr, IfOk};
ghost use Rattle.reports.specs.Audits.{audit_text};
ghost use Rattle.counted_io.specs.Streams.{source_name};
ghost use Rattle.circuit_files.specs.Outcomes.{IsAbout};
ghost use Rattle.command_endings.specs.Printing.{EndsPrinting, Prints, ending};
ghost use Rattle.command_endings.specs.Sources.{AreCertificatesAt, IsCircuitAt};
ghost use Rattle.commands.specs.Replaying.{bytes_in};
ghost use Rattle.commands.specs.Verifying.{EndsWithAudit, EndsWithObject, IsJudgedBy, IsReplayOf, PrintsAudit, PrintsAuditBeside, PrintsAuditFor, PrintsAuditOf, outcome_of_end, outcome_of_judgement};

use crate::replaying::{judged, merged_count, replay_of, retimed_at};
use aig_graph::Circuit;
use certificate_audits::{End, PartsReplay};
use certificate_files::{CertFile, CertPart};
use circuit_files::{Failure, Outcome, certificates_at, circuit_at};
use command_endings::{ended, held_latches};
use command_line::Verification;
use counted_io::{CountedRead, CountedWrite};
use reports::{Agreement, Judgement, last_end, print_audit};
use std::alloc::Global;
use std::fmt::Write;
use std::rt::Files;

/// Replays the certificates for the circuit with the latches that the task holds.
fn replayed<'a>(
    alloc: Global,
    circuit: &Circuit,
    file: &CertFile,
    task: &Verification<'a>,
) -> Result<PartsReplay, Failure<'a>>
    ensures { IfOk result (IsReplayOf task.now circuit.now file.now) }
{
    let options = &task.options;
    match held_latches(alloc, circuit, task.input, options) {
        Ok(keep) => {
            let replay = replay_of(alloc, circuit, file, &keep, options.merge, options.bound);
            drop(keep);
            match replay {
                Ok(replay) => Ok(replay),
                Err(_) => Err(Failure::Memory),
            }
        }
        Err(failure) => Err(failure),
    }
}

/// Judges the certificates, and compares the circuit that they end in with `bytes`.
fn judged_by<'a>(
    alloc: Global,
    circuit: &Circuit,
    file: &CertFile,
    bytes: &Option<Vec<u8>>,
    task: &Verification<'a>,
) -> Result<Judgement, Failure<'a>>
    ensures { IfOk result (IsJudgedBy task.now circuit.now file.now (bytes_in bytes.now)) }
{
    let Ok(bound) = task.options.bound.for_circuit(alloc, circuit) else {
        return Err(Failure::Memory);
    };
    match replayed(alloc, circuit, file, task) {
        Ok(replay) => match judged(alloc, replay, bytes, bound, merged_count(file)) {
            Ok(judgement) => Ok(judgement),
            Err(_) => Err(Failure::Memory),
        },
        Err(failure) => Err(failure),
    }
}

/// Returns how a run ends by the end of its audit.
fn outcome_at(end: End) -> Outcome
    ensures { result ≡ outcome_of_end end }
{
    match end {
        End::NoBlocks | End::Certified | End::Open => Outcome::Done,
        End::BlocksFollow | End::Objected(_) | End::Misread(_) | End::NotShown(_) => {
            Outcome::Unconfirmed
        }
    }
}

/// Returns how a run ends by the audit and by the comparison with a file.
fn outcome_of(judgement: &Judgement) -> Outcome
    ensures { result ≡ outcome_of_judgement judgement.now }
{
    match judgement.agreement {
        Some(Agreement::DiffersAt(_)) => Outcome::Unconfirmed,
        Some(Agreement::Same) | None => outcome_at(last_end(judgement.audits.as_slice())),
    }
}

fn print_outcome<'a, O: CountedWrite>(
    parts: &[CertPart],
    judgement: &Judgement,
    out: &mut O,
) -> Result<Outcome, Failure<'a>>
    ensures { EndsPrinting (outcome_of_judgement judgement.now)
        (audit_text parts.now judgement.now)
        (O.output out.old) (O.output out.new) result }
{
    let printed = print_audit(parts, judgement, out);
    ended(printed, outcome_of(judgement))
}

/// Prints a judgement of certificates as an object of JSON.
fn print_object<'a, O: CountedWrite>(
    alloc: Global,
    parts: &[CertPart],
    judgement: &Judgement,
    out: &mut O,
) -> Result<Outcome, Failure<'a>>
    ensures { EndsWithObject parts.now judgement.now (outcome_of_judgement judgement.now)
        (O.output out.old) (O.output out.new) result }
{
    command_endings::print_audit(alloc, parts, judgement, outcome_of(judgement), out)
}

/// Prints a judgement of certificates as an object of JSON or in lines.
fn print_as<'a, O: CountedWrite>(
    alloc: Global,
    parts: &[CertPart],
    judgement: &Judgement,
    json: bool,
    out: &mut O,
) -> Result<Outcome, Failure<'a>>
    ensures audit { IfOk result (EndsWithAudit json parts.now judgement.now (O.output out.old)
        (O.output out.new)) }
    ensures prints { Prints (ending result) (O.output out.old) (O.output out.new) }
{
    if json {
        print_object(alloc, parts, judgement, out)
    } else {
        print_outcome(parts, judgement, out)
    }
}

/// Prints what the certificates show, and how `bytes` compare with the circuit that they end in.
fn print_judged<'a, O: CountedWrite>(
    alloc: Global,
    circuit: &Circuit,
    file: &CertFile,
    bytes: &Option<Vec<u8>>,
    task: &Verification<'a>,
    out: &mut O,
) -> Result<Outcome, Failure<'a>>
    ensures audit { IfOk result (λ ended. PrintsAudit task.now circuit.now file.now
        (bytes_in bytes.now) ended (O.output out.old) (O.output out.new)) }
    ensures prints { Prints (ending result) (O.output out.old) (O.output out.new) }
{
    let judgement = judged_by(alloc, circuit, file, bytes, task)?;
    let printed = print_as(alloc, file.parts.as_slice(), &judgement, task.json, out);
    drop(judgement);
    printed
}

/// Reads the file to compare, if there is one. Prints what the certificates show, and whether they
/// end in that file's circuit.
fn print_beside<'a, R: Files, I: CountedRead, O: CountedWrite>(
    rt: &R,
    alloc: Global,
    circuit: &Circuit,
    file: &CertFile,
    task: &Verification<'a>,
    stdin: &mut I,
    out: &mut O,
) -> Result<Outcome, Failure<'a>>
    ensures audit { IfOk result (PrintsAuditBeside task.now circuit.now file.now
        (I.input stdin.old) (I.input stdin.new) (O.output out.old) (O.output out.new)) }
    ensures prints { Prints (ending result) (O.output out.old) (O.output out.new) }
{
    match retimed_at(rt, alloc, task, stdin) {
        Ok(bytes) => {
            let printed = print_judged(alloc, circuit, file, &bytes, task, out);
            drop(bytes);
            printed
        }
        Err(failure) => Err(failure),
    }
}

/// Reads the circuit that the certificates are about.
fn circuit_of<'a, R: Files, I: CountedRead>(
    rt: &R,
    alloc: Global,
    task: &Verification<'a>,
    stdin: &mut I,
) -> Result<aig_binary::SpeltCircuit, Failure<'a>>
    ensures circuit { IfOk result (IsCircuitAt task.now.input (I.input stdin.old)
        (I.input stdin.new)) }
    ensures named { IfErr result (IsAbout (source_name task.now.input)) }
{
    circuit_at(rt, alloc, task.input, stdin)
}

/// Reads the certificates to check.
fn certificates_of<'a, R: Files, I: CountedRead>(
    rt: &R,
    alloc: Global,
    task: &Verification<'a>,
    stdin: &mut I,
) -> Result<CertFile, Failure<'a>>
    ensures certificates { IfOk result (AreCertificatesAt task.now.certificates
        (I.input stdin.old) (I.input stdin.new)) }
    ensures named { IfErr result (IsAbout (source_name task.now.certificates)) }
{
    certificates_at(rt, alloc, task.certificates, stdin)
}

/// Returns true if no part of a file has a block.
fn has_no_block(file: &CertFile) -> bool {
    file.parts
        .as_slice()
        .iter()
        .all(|part| part.blocks.is_empty())
}

/// Returns true if a part of a file lists merged latches.
fn lists_latches(file: &CertFile) -> bool {
    file.parts
        .as_slice()
        .iter()
        .any(|part| part.merged.is_some())
}

/// Says that a file has no certificate, and what was checked then. A failed write changes nothing.
fn tell_of_none<M: Write>(task: &Verification<'_>, file: &CertFile, message: &mut M) {
    let _ = message.write_str(task.certificates.name());
    let _ = message.write_str(": no certificate: ");
    let _ = message.write_str(if task.retimed.is_some() | lists_latches(file) {
        "no frame was checked\n"
    } else {
        "nothing was checked\n"
    });
}

/// Reads the certificates, and prints what they show. If there is none, `message` gets a line that
/// says so at the end.
fn print_file<'a, R: Files, I: CountedRead, O: CountedWrite, M: Write>(
    rt: &R,
    alloc: Global,
    circuit: &Circuit,
    task: &Verification<'a>,
    stdin: &mut I,
    out: &mut O,
    message: &mut M,
) -> Result<Outcome, Failure<'a>>
    ensures audit { IfOk result (PrintsAuditFor task.now circuit.now (I.input stdin.old)
        (I.input stdin.new) (O.output out.old) (O.output out.new)) }
    ensures prints { Prints (ending result) (O.output out.old) (O.output out.new) }
{
    match certificates_of(rt, alloc, task, stdin) {
        Ok(file) => {
            let printed = print_beside(rt, alloc, circuit, &file, task, stdin, out);
            if printed.is_ok() & has_no_block(&file) {
                tell_of_none(task, &file, message);
            }
            drop(file);
            printed
        }
        Err(failure) => Err(failure),
    }
}

/// Reads a circuit, then certificates, and then the circuit that they should end in, if one is
/// given.
///
/// Prints whether merged latches are shown and each certificate is confirmed, as an object of JSON
/// or in lines. If nothing speaks against one, it prints whether they end in that circuit, byte for
/// byte. A name that no latch has is found once all is read.
///
/// If there is no certificate, `message` gets a line that says so; a failed write there changes
/// nothing.
pub fn print_verification<'a, R: Files, I: CountedRead, O: CountedWrite, M: Write>(
    rt: &R,
    alloc: Global,
    task: &Verification<'a>,
    stdin: &mut I,
    out: &mut O,
    message: &mut M,
) -> Result<Outcome, Failure<'a>>
    ensures audit { IfOk result (PrintsAuditOf task.now (I.input stdin.old) (I.input stdin.new)
        (O.output out.old) (O.output out.new)) }
    ensures prints { Prints (ending result) (O.output out.old) (O.output out.new) }
{
    match circuit_of(rt, alloc, task, stdin) {
        Ok(spelt) => {
            let printed = print_file(rt, alloc, &spelt.circuit, task, stdin, out, message);
            drop(spelt);
            printed
        }
        Err(failure) => Err(failure),
    }
}
