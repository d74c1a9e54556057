//! Merged latches that are given to `retime`, as certificates list them.
ghost use Rattle.std.specs.Prelude.{◌≡◌, IfErr, IfOk};
ghost use Rattle.circuit_files.specs.Outcomes.{IsAbout};
ghost use Rattle.commands.specs.Classes.{AreClassesAt, ListsLatches, first_listed};
ghost use Rattle.commands.specs.Classes as wanted;
ghost use Rattle.commands.specs.RetimingTasks.{classes_source};
ghost use Rattle.counted_io.specs.Streams.{source_name};

use aig_graph::Sequence;
use certificate_files::{CertError, CertFile, CertPart};
use certificates::MergedLatch;
use circuit_files::{Failure, certificates_at};
use command_line::Retiming;
use counted_io::{CountedRead, Source};
use frame_runs::Options;
use std::alloc::Global;
use std::mem;
use std::rt::Files;

/// Returns the merged latches of the first part, if it lists them.
fn first_listed(parts: Sequence<CertPart>) -> Option<Sequence<MergedLatch>>
    ensures { result ≡ first_listed parts }
{
    let mut parts = parts.into_vec();
    if parts.is_empty() {
        return None;
    }
    let CertPart { merged, blocks } = parts.remove(0);
    drop(blocks);
    drop(parts);
    merged
}

/// Returns the merged latches of a file's first part. A file that lists none is refused as one with
/// another first line.
fn listed<'a>(
    file: CertFile,
    source: Source<'a>,
) -> Result<Option<Sequence<MergedLatch>>, Failure<'a>>
    ensures classes { IfOk result (λ classes. (classes ≡ first_listed file.parts)
        × ListsLatches classes) }
    ensures named { IfErr result (IsAbout (source_name source.entry)) }
{
    match first_listed(file.parts) {
        Some(lines) => Ok(Some(lines)),
        None => Err(Failure::RefusedCertificates(source.name(), CertError::BadHeader(0))),
    }
}

/// Reads the merged latches that are given to a task, if any are.
pub(crate) fn classes_at<'a, R: Files, I: CountedRead>(
    rt: &R,
    alloc: Global,
    task: &Retiming<'a>,
    stdin: &mut I,
) -> Result<Option<Sequence<MergedLatch>>, Failure<'a>>
    ensures classes { IfOk result (AreClassesAt task.now.classes (I.input stdin.old)
        (I.input stdin.new)) }
    ensures named { IfErr result (IsAbout (source_name (classes_source task.now))) }
{
    let Some(source) = task.classes else {
        return Ok(None);
    };
    match certificates_at(rt, alloc, source, stdin) {
        Ok(file) => listed(file, source),
        Err(failure) => Err(failure),
    }
}

/// Returns the options with these classes in place of theirs.
pub(crate) fn with_classes(options: Options, classes: Option<Sequence<MergedLatch>>) -> Options
    ensures { result ≡ wanted.with_classes classes options }
{
    let mut options = options;
    drop(mem::replace(&mut options.classes, classes));
    options
}
