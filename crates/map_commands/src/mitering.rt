//! The command `miter`.
ghost use Rattle.std.specs.Prelude.{◌≡◌, Err, IfErr, IfOk};
ghost use Rattle.map_checks.specs.Answers.{AreFitting, IsMap};
ghost use Rattle.map_miters.specs.Miters.{IsMiter};
ghost use Rattle.circuit_files.specs.WrittenFiles.{IsFileGiven};
ghost use Rattle.circuit_files.specs.declared.outcome.Failure.TheVariants.{NotAMap};
ghost use Rattle.command_endings.specs.HeldNames.{OfSource};
ghost use Rattle.command_endings.specs.Printing.{Prints, ending};
ghost use Rattle.map_commands.specs.Asking.{IsFailureToAsk, IsMadeOf, PrintsMiter};
ghost use Rattle.map_commands.specs.Fitting.{IsMisfit};
ghost use Rattle.map_commands.specs.Products.{PrintsAsked};

use crate::fitting::{Fit, fit_of};
use crate::given::{Mapped, mapped_at};
use crate::made::{Made, write_made};
use crate::products::write_product;
use aig_graph::Circuit;
use circuit_files::{Failure, Outcome, OutputFiles};
use command_line::Asking;
use counted_io::{CountedRead, CountedWrite};
use file_words::ReadError;
use map_miters::{MiterError, miter};
use std::alloc::Global;
use std::rt::Files;

/// Returns the miter of circuits and a map that fit together.
fn miter_by<'a>(alloc: Global, mapped: &Mapped, task: &Asking<'a>) -> Result<Circuit, Failure<'a>>
    requires map { IsMap mapped.now.map.circuit }
    requires fitting { AreFitting mapped.now.pair.first.circuit mapped.now.pair.second.circuit
        mapped.now.map.circuit }
    ensures made { IfOk result (IsMiter mapped.now.pair.first.circuit
        mapped.now.pair.second.circuit mapped.now.map.circuit) }
    ensures failed { IfErr result (IsFailureToAsk task.now mapped.now) }
{
    let first = &mapped.pair.first.circuit;
    match miter(
        alloc,
        first,
        &mapped.pair.second.circuit,
        &mapped.map.circuit,
    ) {
        Ok(circuit) => Ok(circuit),
        Err(MiterError::NoMemory) => Err(Failure::Memory),
        Err(MiterError::TooLarge) => {
            Err(Failure::Refused(task.output.name(), ReadError::TooLarge(0)))
        }
    }
}

/// Returns what is made of the circuits and the map that are read. A map that isn't one of theirs
/// is refused.
fn miter_for<'a>(alloc: Global, mapped: &Mapped, task: &Asking<'a>) -> Result<Made, Failure<'a>>
    ensures made { IfOk result (IsMadeOf mapped.now) }
    ensures failed { IfErr result (IsFailureToAsk task.now mapped.now) }
    ensures not_a_map { (IsMap mapped.now.map.circuit → ⊥) → OfSource task.now.map
        (λ path. result ≡ Err (NotAMap path)) }
    ensures misfit { IsMap mapped.now.map.circuit → IsMisfit mapped.now.pair.first.circuit
        mapped.now.pair.second.circuit mapped.now.map.circuit → OfSource task.now.map
        (λ path. result ≡ Err (NotAMap path)) }
{
    let (first, second) = (&mapped.pair.first.circuit, &mapped.pair.second.circuit);
    match fit_of(first, second, &mapped.map.circuit) {
        Fit::Fits => match miter_by(alloc, mapped, task) {
            Ok(circuit) => Ok(Made::Circuit(circuit)),
            Err(failure) => Err(failure),
        },
        Fit::ShapesDiffer => Ok(Made::ShapesDiffer),
        Fit::NotAMap => Err(Failure::NotAMap(task.map.name())),
    }
}

/// Reads a circuit, the one that was made of it, and a map of the states of the first to those of
/// the second. They come in this order. Writes the miter of the map. A file is made once all that
/// can be refused was found right.
fn write_questions<'a, R: Files + OutputFiles, I: CountedRead, O: CountedWrite>(
    rt: &R,
    alloc: Global,
    task: &Asking<'a>,
    stdin: &mut I,
    out: &mut O,
) -> Result<Outcome, Failure<'a>>
    ensures miter { IfOk result
        (PrintsMiter (IsFileGiven R.Output.contents R.is_made R.is_let_go) task.now
        (I.input stdin.old) (I.input stdin.new) (O.output out.old) (O.output out.new)) }
    ensures prints { Prints (ending result) (O.output out.old) (O.output out.new) }
{
    let mapped = mapped_at(rt, alloc, task.input, task.retimed, task.map, stdin)?;
    let spelling = task.spelling.unwrap_or(mapped.map.spelling);
    let found = miter_for(alloc, &mapped, task);
    drop(mapped);
    match found {
        Ok(made) => {
            let written = write_made(rt, &made, spelling, task.output, out);
            drop(made);
            written
        }
        Err(failure) => Err(failure),
    }
}

/// Writes the miter of a map or, if a certificate is asked for, both circuits side by side with
/// that.
pub fn write_miter<'a, R: Files + OutputFiles, I: CountedRead, O: CountedWrite>(
    rt: &R,
    alloc: Global,
    task: &Asking<'a>,
    stdin: &mut I,
    out: &mut O,
) -> Result<Outcome, Failure<'a>>
    ensures miter { IfOk result (PrintsAsked (IsFileGiven R.Output.contents R.is_made R.is_let_go)
        task.now.certificate task.now (I.input stdin.old) (I.input stdin.new) (O.output out.old)
        (O.output out.new)) }
    ensures prints { Prints (ending result) (O.output out.old) (O.output out.new) }
{
    match task.certificate {
        Some(certificate) => write_product(rt, alloc, task, certificate, stdin, out),
        None => write_questions(rt, alloc, task, stdin, out),
    }
}
