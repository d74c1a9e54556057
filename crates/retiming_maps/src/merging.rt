//! A map that follows a merging of latches. That each latch is equal to its reading is a
//! constraint, and the latch then has the function of its reading. The cleaning before it comes
//! first, so these constraints are of the functions that the cleaned circuit's latches have.
ghost use Rattle.std.specs.Prelude.{◌<◌, All, OnOk, IfOk, length};
ghost use Rattle.latch_merging.specs.Merging.{IsMergedCircuit};
ghost use Rattle.merged_circuits.specs.Inductive.{IsInductive};
ghost use Rattle.retiming_maps.specs.Mapping.{IsSomeMapTo};
ghost use Rattle.retiming_maps.specs.Merging.{IsGivenAfter, IsGivenAlong, IsGivenStartAlong, IsMergedAfter, IsMergedAlong, IsStartAlong, LeadsMerged};

use crate::parts::MapParts;
use crate::passes::cleaned_along;
use aig_graph::{Circuit, Keep, Lit, NoMemory};
use certificates::MergedLatch;
use clean::Cleaned;
use latch_merging::{
    GivenMerging, GivenStart, MergedCircuit, MergedStart, merge_by, merge_latches,
};
use map_circuits::{LatchFunctions, MapError, add_readings, read_functions};
use std::alloc::Global;

/// Follows a merging that was made with these latches held, by what the latches read as.
fn follow_merging(
    alloc: Global,
    parts: &mut MapParts,
    circuit: &Circuit,
    keep: &Keep,
    reads: &[Lit],
) -> Result<(), MapError>
    requires map { IsSomeMapTo circuit.now parts.old }
    requires inductive { IsInductive circuit.now.aig keep.now reads.now }
    ensures { OnOk result (LeadsMerged keep.now reads.now circuit.now parts.old parts.new) }
{
    let _keep = keep;
    circuit.known();
    let functions = parts.functions.as_slice();
    let aig = circuit.aig();
    add_readings(
        &mut parts.gates,
        &mut parts.constraints,
        functions,
        aig,
        reads,
    )?;
    let new = read_functions(alloc, functions, aig, reads)?;
    parts.functions = LatchFunctions::of(new);
    Ok(())
}

/// Returns the circuit in which latches that always agree are one, and follows it with the map.
fn merged_along(
    alloc: Global,
    parts: &mut MapParts,
    circuit: &Circuit,
    keep: &Keep,
) -> Result<MergedCircuit, MapError>
    requires { IsSomeMapTo circuit.now parts.old }
    ensures { IfOk result (IsMergedAlong keep.now circuit.now parts.old parts.new) }
{
    let merged = merge_latches(alloc, circuit, keep)?;
    follow_merging(alloc, parts, circuit, keep, merged.reads.as_slice())?;
    Ok(merged)
}

/// Merges a circuit that was cleaned, and follows it with the map.
fn merged_after(
    alloc: Global,
    parts: &mut MapParts,
    cleaned: Cleaned,
) -> Result<MergedStart, MapError>
    requires { IsSomeMapTo cleaned.circuit parts.old }
    ensures { IfOk result (IsMergedAfter cleaned parts.old parts.new) }
{
    let Cleaned {
        circuit: before,
        keep,
        kept_free,
        ..
    } = cleaned;
    let merging = merged_along(alloc, parts, &before, &keep);
    drop(before);
    match merging {
        Ok(
            MergedCircuit {
                circuit,
                merged,
                ..
            },
        ) => Ok(MergedStart {
            circuit,
            keep,
            kept_free,
            merged,
        }),
        Err(error) => Err(error),
    }
}

/// Cleans the circuit and merges its latches that always agree, as [`latch_merging::merged_start`]
/// does, and follows it with the map. The map's constraints are those of the cleaning, and then one
/// for each latch with another reading than itself.
///
/// # Errors
///
/// `NoMemory` if memory is refused, `TooLarge` if the map would have more variables than a graph
/// may have.
pub fn start_along(
    alloc: Global,
    parts: &mut MapParts,
    circuit: &Circuit,
    keep: &Keep,
) -> Result<MergedStart, MapError>
    requires map { IsSomeMapTo circuit.now parts.old }
    requires in_range { All (λ j. j < length circuit.now.aig.latches) keep.now }
    ensures { IfOk result (IsStartAlong keep.now circuit.now parts.old parts.new) }
{
    // That it is a circuit is what its readers ensure.
    circuit.known();
    let cleaned = cleaned_along(alloc, parts, circuit, keep)?;
    merged_after(alloc, parts, cleaned)
}

/// Follows a merging by lines with the map.
fn followed(
    alloc: Global,
    parts: &mut MapParts,
    circuit: &Circuit,
    keep: &Keep,
    merged: MergedCircuit,
) -> Result<GivenMerging, MapError>
    requires map { IsSomeMapTo circuit.now parts.old }
    requires merged { IsMergedCircuit keep.now circuit.now merged }
    ensures { IfOk result (IsGivenAlong keep.now circuit.now merged.merged parts.old parts.new) }
{
    follow_merging(alloc, parts, circuit, keep, merged.reads.as_slice())?;
    Ok(GivenMerging::Merged(merged))
}

/// Follows a merging by lines, if they are shown, with the map.
fn given_along(
    alloc: Global,
    parts: &mut MapParts,
    circuit: &Circuit,
    keep: &Keep,
    lines: &[MergedLatch],
) -> Result<GivenMerging, MapError>
    requires { IsSomeMapTo circuit.now parts.old }
    ensures { IfOk result (IsGivenAlong keep.now circuit.now lines.now parts.old parts.new) }
{
    match merge_by(alloc, circuit, keep, lines) {
        Ok(GivenMerging::Merged(merged)) => followed(alloc, parts, circuit, keep, merged),
        Ok(GivenMerging::Misread(latch)) => Ok(GivenMerging::Misread(latch)),
        Ok(GivenMerging::NotShown(latch)) => Ok(GivenMerging::NotShown(latch)),
        Err(NoMemory) => Err(MapError::NoMemory),
    }
}

/// Merges a circuit that was cleaned by lines, if they are shown, and follows it with the map.
fn given_after(
    alloc: Global,
    parts: &mut MapParts,
    cleaned: Cleaned,
    lines: &[MergedLatch],
) -> Result<GivenStart, MapError>
    requires { IsSomeMapTo cleaned.circuit parts.old }
    ensures { IfOk result (IsGivenAfter cleaned lines.now parts.old parts.new) }
{
    let Cleaned {
        circuit: before,
        keep,
        kept_free,
        ..
    } = cleaned;
    let merging = given_along(alloc, parts, &before, &keep, lines);
    drop(before);
    match merging? {
        GivenMerging::Merged(
            MergedCircuit {
                circuit,
                merged,
                ..
            },
        ) => Ok(GivenStart::Merged(MergedStart {
            circuit,
            keep,
            kept_free,
            merged,
        })),
        GivenMerging::Misread(latch) => Ok(GivenStart::Misread(latch)),
        GivenMerging::NotShown(latch) => Ok(GivenStart::NotShown(latch)),
    }
}

/// Cleans the circuit and merges the latches that lines name, as [`latch_merging::start_by`] does,
/// and follows it with the map. The map is that of [`start_along`] for these lines; if they are
/// refused, nothing is said of it.
///
/// # Errors
///
/// `NoMemory` if memory is refused, `TooLarge` if the map would have more variables than a graph
/// may have.
pub fn start_along_by(
    alloc: Global,
    parts: &mut MapParts,
    circuit: &Circuit,
    keep: &Keep,
    lines: &[MergedLatch],
) -> Result<GivenStart, MapError>
    requires map { IsSomeMapTo circuit.now parts.old }
    requires in_range { All (λ j. j < length circuit.now.aig.latches) keep.now }
    ensures { IfOk result (IsGivenStartAlong keep.now circuit.now lines.now parts.old parts.new) }
{
    // That it is a circuit is what its readers ensure.
    circuit.known();
    let cleaned = cleaned_along(alloc, parts, circuit, keep)?;
    given_after(alloc, parts, cleaned, lines)
}
