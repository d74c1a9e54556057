//! A map of states that follows a run of frames.
ghost use Rattle.std.specs.Prelude.{◌≡◌, ◌<◌, All, IfOk, length};
ghost use Rattle.retiming_maps.specs.Mapping.{IsMapTo, IsSomeMapTo};
ghost use Rattle.retiming_maps.specs.Merging.{IsStartAlong};

use crate::errors::FollowError;
use aig_graph::{Circuit, ClosedSet, Keep};
use certificates::MergedLatch;
use clean::Cleaned;
use frame_runs::{GivenCircuit, Options, RunFollower};
use latch_merging::{GivenStart, MergedStart};
use rebuild::MoveMarks;
use retiming_maps::{MapParts, cleaned_along, follow_move, start_along, start_along_by};
use std::alloc::Global;

/// The map of states from the circuit that was read to the one that a run has come to.
#[derive(Drop)]
pub(crate) struct GrowingMap {
    pub(crate) parts: MapParts,
}

/// Cleans the circuit and merges its latches that always agree, and follows it with the map.
fn started(
    alloc: Global,
    parts: &mut MapParts,
    circuit: &Circuit,
    keep: &Keep,
) -> Result<MergedStart, FollowError>
    requires map { IsSomeMapTo circuit.now parts.old }
    requires in_range { All (λ j. j < length circuit.now.aig.latches) keep.now }
    ensures { IfOk result (IsStartAlong keep.now circuit.now parts.old parts.new) }
{
    match start_along(alloc, parts, circuit, keep) {
        Ok(start) => Ok(start),
        Err(error) => Err(FollowError::Map(error)),
    }
}

/// Cleans the circuit and merges it by lines, and follows it with the map.
fn started_by(
    alloc: Global,
    parts: &mut MapParts,
    circuit: &Circuit,
    keep: &Keep,
    lines: &[MergedLatch],
) -> Result<MergedStart, FollowError>
    requires map { IsSomeMapTo circuit.now parts.old }
    requires in_range { All (λ j. j < length circuit.now.aig.latches) keep.now }
    ensures start { IfOk result (IsStartAlong keep.now circuit.now parts.old parts.new) }
    ensures given { IfOk result (λ m. m.merged ≡ lines.now) }
{
    match start_along_by(alloc, parts, circuit, keep, lines) {
        Ok(GivenStart::Merged(start)) => Ok(start),
        Ok(GivenStart::Misread(latch)) => Err(FollowError::Misread(latch)),
        Ok(GivenStart::NotShown(latch)) => Err(FollowError::NotShown(latch)),
        Err(error) => Err(FollowError::Map(error)),
    }
}

impl RunFollower for GrowingMap {
    type Stop = FollowError;

    ghost has_come = { λ map c d kept. IsMapTo c d kept map.parts };

    fn clean(
        &mut self,
        alloc: Global,
        given: GivenCircuit<'_>,
        keep: &Keep,
    ) -> Result<Cleaned, FollowError> {
        let lent = given.circuit();
        let cleaned = cleaned_along(alloc, &mut self.parts, lent, keep);
        drop(given);
        Ok(cleaned?)
    }

    fn clean_and_merge(
        &mut self,
        alloc: Global,
        circuit: &Circuit,
        keep: &Keep,
        options: &Options,
    ) -> Result<MergedStart, FollowError> {
        let parts = &mut self.parts;
        match &options.classes {
            Some(lines) => started_by(alloc, parts, circuit, keep, lines.as_slice()),
            None => started(alloc, parts, circuit, keep),
        }
    }

    fn see_move(
        &mut self,
        circuit: &Circuit,
        set: &ClosedSet,
        keep: &Keep,
        marks: &MoveMarks,
    ) -> Result<(), FollowError> {
        follow_move(&mut self.parts, circuit, set, keep, marks)?;
        Ok(())
    }
}
