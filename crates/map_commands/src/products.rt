//! The command `miter` with a certificate: both circuits side by side as a model, and a witness
//! circuit for it.
ghost use Rattle.std.specs.Prelude.{◌≡◌, Err, IfErr, IfOk};
ghost use Rattle.map_checks.specs.Answers.{AreFitting, IsMap};
ghost use Rattle.map_miters.specs.Products.{IsProduct};
ghost use Rattle.circuit_files.specs.WrittenFiles.{IsFileGiven};
ghost use Rattle.circuit_files.specs.declared.outcome.Failure.TheVariants.{NotAMap};
ghost use Rattle.command_endings.specs.HeldNames.{OfSource};
ghost use Rattle.command_endings.specs.Printing.{Prints, ending};
ghost use Rattle.map_commands.specs.Fitting.{IsMisfit};
ghost use Rattle.map_commands.specs.Products.{AreMachinesOf, EndsShowing, EndsWritingBoth, IsFailureToMake, AreMadeSideBySide, PrintsProduct, target_for};
ghost use Rattle.counted_io.specs.Streams.{target_name};

use crate::fitting::{Fit, fit_of};
use crate::given::{Mapped, mapped_at};
use aig_binary::Spelling;
use aig_graph::Circuit;
use circuit_files::{Failure, Outcome, OutputFiles};
use command_endings::{ended, write_circuit};
use command_line::Asking;
use counted_io::{CountedRead, CountedWrite, Target};
use file_words::ReadError;
use map_miters::{Goal, MiterError, product_machine};
use reports::print_shapes_differ;
use std::alloc::Global;
use std::rt::Files;

/// Both circuits side by side: the model, and the witness circuit for it.
#[derive(Drop)]
struct Machines {
    model: Circuit,
    witness: Circuit,
}

/// What is made of circuits and a map.
#[derive(Drop)]
enum Shown {
    /// These.
    Machines(Machines),
    /// Nothing: the circuits differ in their inputs or properties.
    ShapesDiffer,
}

/// Returns the name of the file that a machine is written to.
fn name_for<'a>(goal: Goal, task: &Asking<'a>, certificate: Target<'a>) -> &'a str
    ensures { result.now ≡ target_name (target_for goal task.now certificate.entry) }
{
    match goal {
        Goal::Agree => task.output.name(),
        Goal::Mapped => certificate.name(),
    }
}

/// Returns a product machine of circuits and a map that fit together.
fn machine_by<'a>(
    alloc: Global,
    goal: Goal,
    mapped: &Mapped,
    task: &Asking<'a>,
    certificate: Target<'a>,
) -> Result<Circuit, Failure<'a>>
    requires map { IsMap mapped.now.map.circuit }
    requires fitting { AreFitting mapped.now.pair.first.circuit mapped.now.pair.second.circuit
        mapped.now.map.circuit }
    ensures made { IfOk result (IsProduct goal mapped.now.pair.first.circuit
        mapped.now.pair.second.circuit mapped.now.map.circuit) }
    ensures failed { IfErr result (IsFailureToMake task.now certificate.entry mapped.now) }
{
    let first = &mapped.pair.first.circuit;
    let second = &mapped.pair.second.circuit;
    match product_machine(alloc, goal, first, second, &mapped.map.circuit) {
        Ok(circuit) => Ok(circuit),
        Err(MiterError::NoMemory) => Err(Failure::Memory),
        Err(MiterError::TooLarge) => {
            let name = name_for(goal, task, certificate);
            Err(Failure::Refused(name, ReadError::TooLarge(0)))
        }
    }
}

/// Returns the model, and the witness circuit for it, of circuits and a map that fit together.
fn machines_by<'a>(
    alloc: Global,
    mapped: &Mapped,
    task: &Asking<'a>,
    certificate: Target<'a>,
) -> Result<Machines, Failure<'a>>
    requires map { IsMap mapped.now.map.circuit }
    requires fitting { AreFitting mapped.now.pair.first.circuit mapped.now.pair.second.circuit
        mapped.now.map.circuit }
    ensures made { IfOk result (AreMachinesOf mapped.now) }
    ensures failed { IfErr result (IsFailureToMake task.now certificate.entry mapped.now) }
{
    let model = machine_by(alloc, Goal::Agree, mapped, task, certificate)?;
    match machine_by(alloc, Goal::Mapped, mapped, task, certificate) {
        Ok(witness) => Ok(Machines { model, witness }),
        Err(failure) => {
            drop(model);
            Err(failure)
        }
    }
}

/// Returns what is made of the circuits and the map that are read. A map that isn't one of theirs
/// is refused.
fn shown_for<'a>(
    alloc: Global,
    mapped: &Mapped,
    task: &Asking<'a>,
    certificate: Target<'a>,
) -> Result<Shown, Failure<'a>>
    ensures made { IfOk result (AreMadeSideBySide mapped.now) }
    ensures failed { IfErr result (IsFailureToMake task.now certificate.entry mapped.now) }
    ensures not_a_map { (IsMap mapped.now.map.circuit → ⊥) → OfSource task.now.map
        (λ path. result ≡ Err (NotAMap path)) }
    ensures misfit { IsMap mapped.now.map.circuit → IsMisfit mapped.now.pair.first.circuit
        mapped.now.pair.second.circuit mapped.now.map.circuit → OfSource task.now.map
        (λ path. result ≡ Err (NotAMap path)) }
{
    let (first, second) = (&mapped.pair.first.circuit, &mapped.pair.second.circuit);
    match fit_of(first, second, &mapped.map.circuit) {
        Fit::Fits => match machines_by(alloc, mapped, task, certificate) {
            Ok(machines) => Ok(Shown::Machines(machines)),
            Err(failure) => Err(failure),
        },
        Fit::ShapesDiffer => Ok(Shown::ShapesDiffer),
        Fit::NotAMap => Err(Failure::NotAMap(task.map.name())),
    }
}

/// Writes the model, and then the witness circuit.
fn write_both<'a, R: OutputFiles, O: CountedWrite>(
    rt: &R,
    machines: &Machines,
    spelling: Spelling,
    output: Target<'a>,
    certificate: Target<'a>,
    out: &mut O,
) -> Result<Outcome, Failure<'a>>
    ensures written { IfOk result
        (EndsWritingBoth (IsFileGiven R.Output.contents R.is_made R.is_let_go)
        machines.now spelling output.entry certificate.entry (O.output out.old)
        (O.output out.new)) }
    ensures prints { Prints (ending result) (O.output out.old) (O.output out.new) }
{
    match write_circuit(rt, &machines.model, spelling, output, out) {
        Ok(()) => match write_circuit(rt, &machines.witness, spelling, certificate, out) {
            Ok(()) => Ok(Outcome::Done),
            Err(failure) => Err(failure),
        },
        Err(failure) => Err(failure),
    }
}

/// Writes what is made, or prints that the shapes of the circuits differ.
fn write_shown<'a, R: OutputFiles, O: CountedWrite>(
    rt: &R,
    shown: &Shown,
    spelling: Spelling,
    output: Target<'a>,
    certificate: Target<'a>,
    out: &mut O,
) -> Result<Outcome, Failure<'a>>
    ensures written { IfOk result
        (EndsShowing (IsFileGiven R.Output.contents R.is_made R.is_let_go) shown.now
        spelling output.entry certificate.entry (O.output out.old) (O.output out.new)) }
    ensures prints { Prints (ending result) (O.output out.old) (O.output out.new) }
{
    match shown {
        Shown::Machines(machines) => {
            write_both(rt, machines, spelling, output, certificate, out)
        }
        Shown::ShapesDiffer => ended(print_shapes_differ(out), Outcome::ShapesDiffer),
    }
}

/// Reads a circuit, the one that was made of it, and a map of the states of the first to those of
/// the second. They come in this order. Writes both side by side as a model, and the witness
/// circuit for it. Files are made once all that can be refused was found right.
pub(crate) fn write_product<'a, R: Files + OutputFiles, I: CountedRead, O: CountedWrite>(
    rt: &R,
    alloc: Global,
    task: &Asking<'a>,
    certificate: Target<'a>,
    stdin: &mut I,
    out: &mut O,
) -> Result<Outcome, Failure<'a>>
    ensures product { IfOk result
        (PrintsProduct (IsFileGiven R.Output.contents R.is_made R.is_let_go)
        certificate.entry task.now (I.input stdin.old) (I.input stdin.new) (O.output out.old)
        (O.output out.new)) }
    ensures prints { Prints (ending result) (O.output out.old) (O.output out.new) }
{
    let mapped = mapped_at(rt, alloc, task.input, task.retimed, task.map, stdin)?;
    let spelling = task.spelling.unwrap_or(mapped.map.spelling);
    let found = shown_for(alloc, &mapped, task, certificate);
    drop(mapped);
    match found {
        Ok(shown) => {
            let written = write_shown(rt, &shown, spelling, task.output, certificate, out);
            drop(shown);
            written
        }
        Err(failure) => Err(failure),
    }
}
