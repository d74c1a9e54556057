//! The command `lift`.
ghost use Rattle.std.specs.Prelude.{◌≡◌, IfErr, IfOk, Err, false};
ghost use Rattle.witness_circuits.specs.Witnesses.{IsSharing};
ghost use Rattle.map_checks.specs.Answers.{AreFitting, IsMap};
ghost use Rattle.circuit_files.specs.WrittenFiles.{IsFileGiven};
ghost use Rattle.circuit_files.specs.declared.outcome.Failure.TheVariants.{NotAMap};
ghost use Rattle.command_endings.specs.HeldNames.{OfSource};
ghost use Rattle.command_endings.specs.Printing.{Prints, ending};
ghost use Rattle.map_commands.specs.Lifted.{IsFailureToLift, IsLiftOf, IsLiftedBy, IsLiftedOf, IsMisfitToLift, PrintsLift};

use crate::back_lift::lifted_back;
use crate::fitting::{Fit, fit_of};
use crate::given::{Given, given_for};
use crate::made::{Made, write_made};
use aig_graph::Circuit;
use circuit_files::{Failure, Outcome, OutputFiles};
use command_line::Lifting;
use counted_io::{CountedRead, CountedWrite};
use file_words::ReadError;
use std::alloc::Global;
use std::rt::Files;
use witness_circuits::{LiftError, Sharing, SharingError, lift_law, lifted_witness, sharing_of};

/// Returns the witness circuit for the first circuit, by what the one for the second shares with
/// that.
fn lifted_by<'a>(
    alloc: Global,
    given: &Given,
    sharing: &Sharing,
    task: &Lifting<'a>,
) -> Result<Circuit, Failure<'a>>
    requires map { IsMap given.now.mapped.map.circuit }
    requires fitting { AreFitting
        given.now.mapped.pair.first.circuit given.now.mapped.pair.second.circuit
        given.now.mapped.map.circuit }
    requires shares { IsSharing given.now.mapped.pair.second.circuit given.now.witness.circuit
        sharing.now }
    ensures lifted { IfOk result (IsLiftedBy given.now.mapped.pair.first.circuit
        given.now.mapped.pair.second.circuit given.now.mapped.map.circuit given.now.witness.circuit
        sharing.now) }
    ensures failed { IfErr result (IsFailureToLift false task.now given.now) }
{
    lift_law();
    let first = &given.mapped.pair.first.circuit;
    first.known();
    match lifted_witness(
        alloc,
        first,
        &given.mapped.map.circuit,
        &given.witness.circuit,
        sharing,
    ) {
        Ok(lifted) => {
            lifted.known();
            Ok(lifted)
        }
        Err(LiftError::NoMemory) => Err(Failure::Memory),
        Err(LiftError::TooLarge) => {
            Err(Failure::Refused(task.output.name(), ReadError::TooLarge(0)))
        }
    }
}

/// Returns the witness circuit for the first circuit, of circuits and a map that fit together.
fn lifted_of<'a>(alloc: Global, given: &Given, task: &Lifting<'a>) -> Result<Circuit, Failure<'a>>
    requires map { IsMap given.now.mapped.map.circuit }
    requires fitting { AreFitting
        given.now.mapped.pair.first.circuit given.now.mapped.pair.second.circuit
        given.now.mapped.map.circuit }
    ensures lifted { IfOk result (IsLiftOf given.now.mapped.pair.first.circuit
        given.now.mapped.pair.second.circuit given.now.mapped.map.circuit
        given.now.witness.circuit) }
    ensures failed { IfErr result (IsFailureToLift false task.now given.now) }
{
    match sharing_of(
        alloc,
        &given.mapped.pair.second.circuit,
        &given.witness.circuit,
    ) {
        Ok(sharing) => {
            let lifted = lifted_by(alloc, given, &sharing, task);
            drop(sharing);
            lifted
        }
        Err(SharingError::NoMemory) => Err(Failure::Memory),
        Err(SharingError::NoSuchLiteral) => Err(Failure::NoSuchLiteral(task.witness.name())),
    }
}

/// Returns what is made of the witness circuit that is read, by a map from the first circuit to the
/// second.
fn lifted_forth<'a>(alloc: Global, given: &Given, task: &Lifting<'a>) -> Result<Made, Failure<'a>>
    ensures lifted { IfOk result (IsLiftedOf false given.now) }
    ensures failed { IfErr result (IsFailureToLift false task.now given.now) }
    ensures not_a_map { (IsMap given.now.mapped.map.circuit → ⊥) → OfSource task.now.map
        (λ path. result ≡ Err (NotAMap path)) }
    ensures misfit { IsMap given.now.mapped.map.circuit → IsMisfitToLift false given.now
        → OfSource task.now.map (λ path. result ≡ Err (NotAMap path)) }
{
    let pair = &given.mapped.pair;
    match fit_of(
        &pair.first.circuit,
        &pair.second.circuit,
        &given.mapped.map.circuit,
    ) {
        Fit::Fits => match lifted_of(alloc, given, task) {
            Ok(circuit) => Ok(Made::Circuit(circuit)),
            Err(failure) => Err(failure),
        },
        Fit::ShapesDiffer => Ok(Made::ShapesDiffer),
        Fit::NotAMap => Err(Failure::NotAMap(task.map.name())),
    }
}

/// Returns what is made of the witness circuit that is read. A map that isn't one of the circuits
/// is refused.
fn lifted_for<'a>(alloc: Global, given: &Given, task: &Lifting<'a>) -> Result<Made, Failure<'a>>
    ensures lifted { IfOk result (IsLiftedOf task.now.back given.now) }
    ensures failed { IfErr result (IsFailureToLift task.now.back task.now given.now) }
    ensures not_a_map { (IsMap given.now.mapped.map.circuit → ⊥) → OfSource task.now.map
        (λ path. result ≡ Err (NotAMap path)) }
{
    if task.back {
        lifted_back(alloc, given, task)
    } else {
        lifted_forth(alloc, given, task)
    }
}

/// Reads a circuit, the one that was made of it, a map of their states, and a witness circuit for
/// the second. They come in this order. Writes the witness circuit for the first. A file is made
/// once all that can be refused was found right.
pub fn write_lifted<'a, R: Files + OutputFiles, I: CountedRead, O: CountedWrite>(
    rt: &R,
    alloc: Global,
    task: &Lifting<'a>,
    stdin: &mut I,
    out: &mut O,
) -> Result<Outcome, Failure<'a>>
    ensures lift { IfOk result
        (PrintsLift (IsFileGiven R.Output.contents R.is_made R.is_let_go) task.now
        (I.input stdin.old) (I.input stdin.new) (O.output out.old) (O.output out.new)) }
    ensures prints { Prints (ending result) (O.output out.old) (O.output out.new) }
{
    let given = given_for(rt, alloc, task, stdin)?;
    let spelling = task.spelling.unwrap_or(given.witness.spelling);
    let found = lifted_for(alloc, &given, task);
    drop(given);
    match found {
        Ok(lifted) => {
            let written = write_made(rt, &lifted, spelling, task.output, out);
            drop(lifted);
            written
        }
        Err(failure) => Err(failure),
    }
}
