//! The command `lift --back`.
ghost use Rattle.std.specs.Prelude.{◌≡◌, Err, IfErr, IfOk, true};
ghost use Rattle.aig_graph.specs.Graph.{free_latches};
ghost use Rattle.map_checks.specs.Answers.{AreFitting, IsMap};
ghost use Rattle.circuit_files.specs.declared.outcome.Failure.TheVariants.{NotAMap};
ghost use Rattle.command_endings.specs.HeldNames.{OfSource};
ghost use Rattle.map_commands.specs.Lifted.{IsBackLiftOf, IsFailureToLift, IsLiftedBackBy, IsLiftedOf, IsMisfitToLift};
ghost use Rattle.witness_circuits.specs.Witnesses.{IsSharing};

use crate::fitting::{Fit, fit_of};
use crate::given::Given;
use crate::made::Made;
use aig_graph::Circuit;
use circuit_files::Failure;
use command_line::Lifting;
use file_words::ReadError;
use map_miters::{back_lift_law, witness_lifted_back};
use std::alloc::Global;
use witness_circuits::{LiftError, Sharing, SharingError, sharing_of};

/// Returns the witness circuit for the first circuit, by what the one for the second shares with
/// that.
fn lifted_back_by<'a>(
    alloc: Global,
    given: &Given,
    sharing: &Sharing,
    task: &Lifting<'a>,
) -> Result<Circuit, Failure<'a>>
    requires map { IsMap given.now.mapped.map.circuit }
    requires fitting { AreFitting
        given.now.mapped.pair.second.circuit given.now.mapped.pair.first.circuit
        given.now.mapped.map.circuit }
    requires known { free_latches given.now.mapped.pair.first.circuit.aig ≡ 0 }
    requires shares { IsSharing given.now.mapped.pair.second.circuit given.now.witness.circuit
        sharing.now }
    ensures lifted { IfOk result (IsLiftedBackBy given.now.mapped.pair.first.circuit
        given.now.mapped.pair.second.circuit given.now.mapped.map.circuit given.now.witness.circuit
        sharing.now) }
    ensures failed { IfErr result (IsFailureToLift true task.now given.now) }
{
    back_lift_law();
    let first = &given.mapped.pair.first.circuit;
    let second = &given.mapped.pair.second.circuit;
    first.known();
    second.known();
    match witness_lifted_back(
        alloc,
        first,
        second,
        &given.mapped.map.circuit,
        &given.witness.circuit,
        sharing,
    ) {
        Ok(lifted) => Ok(lifted),
        Err(LiftError::NoMemory) => Err(Failure::Memory),
        Err(LiftError::TooLarge) => {
            Err(Failure::Refused(task.output.name(), ReadError::TooLarge(0)))
        }
    }
}

/// Returns the witness circuit for the first circuit, of circuits and a map that fit together.
fn lifted_back_of<'a>(
    alloc: Global,
    given: &Given,
    task: &Lifting<'a>,
) -> Result<Circuit, Failure<'a>>
    requires map { IsMap given.now.mapped.map.circuit }
    requires fitting { AreFitting
        given.now.mapped.pair.second.circuit given.now.mapped.pair.first.circuit
        given.now.mapped.map.circuit }
    requires known { free_latches given.now.mapped.pair.first.circuit.aig ≡ 0 }
    ensures lifted { IfOk result (IsBackLiftOf given.now.mapped.pair.first.circuit
        given.now.mapped.pair.second.circuit given.now.mapped.map.circuit
        given.now.witness.circuit) }
    ensures failed { IfErr result (IsFailureToLift true task.now given.now) }
{
    match sharing_of(
        alloc,
        &given.mapped.pair.second.circuit,
        &given.witness.circuit,
    ) {
        Ok(sharing) => {
            let lifted = lifted_back_by(alloc, given, &sharing, task);
            drop(sharing);
            lifted
        }
        Err(SharingError::NoMemory) => Err(Failure::Memory),
        Err(SharingError::NoSuchLiteral) => Err(Failure::NoSuchLiteral(task.witness.name())),
    }
}

/// Returns what is made of the witness circuit that is read, by a map from the second circuit to
/// the first.
pub(crate) fn lifted_back<'a>(
    alloc: Global,
    given: &Given,
    task: &Lifting<'a>,
) -> Result<Made, Failure<'a>>
    ensures lifted { IfOk result (IsLiftedOf true given.now) }
    ensures failed { IfErr result (IsFailureToLift true task.now given.now) }
    ensures not_a_map { (IsMap given.now.mapped.map.circuit → ⊥) → OfSource task.now.map
        (λ path. result ≡ Err (NotAMap path)) }
    ensures misfit { IsMap given.now.mapped.map.circuit → IsMisfitToLift true given.now
        → OfSource task.now.map (λ path. result ≡ Err (NotAMap path)) }
{
    let pair = &given.mapped.pair;
    let first = &pair.first.circuit;
    match fit_of(&pair.second.circuit, first, &given.mapped.map.circuit) {
        Fit::Fits => {
            if first.aig().free_latches() > 0 {
                return Ok(Made::ShapesDiffer);
            }
            match lifted_back_of(alloc, given, task) {
                Ok(circuit) => Ok(Made::Circuit(circuit)),
                Err(failure) => Err(failure),
            }
        }
        Fit::ShapesDiffer => Ok(Made::ShapesDiffer),
        Fit::NotAMap => Err(Failure::NotAMap(task.map.name())),
    }
}
