//! The frames of a retiming.
ghost use Rattle.std.specs.Prelude.{◌≡◌, ◌++◌, IfOk, OnOk, option_map};
ghost use Rattle.serde_json.specs.Data.{no_members, object};
ghost use Rattle.serde_json.specs.View.{members_view, view};
ghost use Rattle.json_reports.specs.Members.{array_of, count};
ghost use Rattle.json_reports.specs.Retimings.{before_data, frame_data, held_back_data, retiming_data};
ghost use Rattle.json_reports.specs.Retimings as told;

use crate::counts::{MapCounts, ReadLevels, circuit_object, map_value, merged_value};
use crate::members::{Scalar, put_made, put_scalars, scalars_object, wide};
use crate::times::{Times, times_value};
use certificate_files::CertPart;
use certificates::MergedLatch;
use merged_circuits::{MergeCounts, counts_of};
use merging_rounds::Rounds;
use reports::{HeldBack, Remaining};
use retimed_circuits::FrameReport;
use serde_json::{Map, Value};
use std::alloc::{AllocError, Global};

fn frame_object(alloc: Global, frame: FrameReport) -> Result<Value, AllocError>
    ensures { IfOk result (λ v. view v ≡ frame_data frame) }
{
    scalars_object(
        alloc,
        &[
            ("after", Scalar::Count(u64::from(frame.after))),
            ("before", Scalar::Count(u64::from(frame.before))),
            ("gates", Scalar::Count(u64::from(frame.moved))),
        ],
    )
}

fn frames_array(alloc: Global, frames: &[FrameReport]) -> Result<Value, AllocError>
    ensures { IfOk result (λ v. view v ≡ array_of frame_data frames.now) }
{
    let mut list = Vec::new(alloc);
    for frame in frames {
        let object = frame_object(alloc, *frame)?;
        serde_json::push(&mut list, object)?;
    }
    Ok(Value::Array(list))
}

fn numbers_array(alloc: Global, numbers: &[u32]) -> Result<Value, AllocError>
    ensures { IfOk result (λ v. view v ≡ array_of count numbers.now) }
{
    let mut list = Vec::new(alloc);
    for number in numbers {
        serde_json::push(&mut list, Value::from(*number))?;
    }
    Ok(Value::Array(list))
}

fn before_object(alloc: Global, latches: u32, levels: Option<u32>) -> Result<Value, AllocError>
    ensures { IfOk result (λ v. view v ≡ before_data latches levels) }
{
    scalars_object(
        alloc,
        &[
            ("latches", Scalar::Count(u64::from(latches))),
            ("levels", Scalar::CountIfAny(wide(levels))),
        ],
    )
}

fn held_back_object(
    alloc: Global,
    held_back: &HeldBack,
    is_least: bool,
) -> Result<Value, AllocError>
    ensures { IfOk result (λ v. view v ≡ held_back_data held_back.now is_least) }
{
    let elsewhere = u64::from(held_back.read_elsewhere);
    scalars_object(
        alloc,
        &[
            ("free", Scalar::Count(u64::from(held_back.free))),
            ("held", Scalar::Count(u64::from(held_back.held))),
            ("least", Scalar::Flag(is_least)),
            ("passable", Scalar::Count(u64::from(held_back.passable))),
            ("read_elsewhere", Scalar::Count(elsewhere)),
            ("too_long", Scalar::CountIfAny(wide(held_back.too_long))),
        ],
    )
}

/// Returns how many sets a network found, if that was measured.
fn networks_of(times: Option<&Times>) -> Option<u32>
    ensures { result ≡ told.networks_of (option_map (λ t. t.now) times.entry) }
{
    match times {
        Some(times) => Some(times.networks),
        None => None,
    }
}

/// Appends the latches that a round merged.
fn with_lines(lines: Vec<MergedLatch>, part: &CertPart) -> Result<Vec<MergedLatch>, AllocError>
    ensures { IfOk result (λ all. all.items ≡ lines.items ++ told.lines_in part.now) }
{
    let mut all = lines;
    if let Some(more) = &part.merged {
        all.extend_from_slice(more.as_slice())?;
    }
    Ok(all)
}

/// Returns the latches that all rounds merged.
fn merged_lines(alloc: Global, parts: &[CertPart]) -> Result<Vec<MergedLatch>, AllocError>
    ensures { IfOk result (λ lines. lines.items ≡ told.merged_lines parts.now) }
{
    let mut all = Vec::new(alloc);
    for part in parts {
        all = with_lines(all, part)?;
    }
    Ok(all)
}

/// Returns true if latches were to be merged: the first round says which were.
fn are_merged(parts: &[CertPart]) -> bool
    ensures { result ≡ told.are_merged parts.now }
{
    match parts.first() {
        Some(part) => part.merged.is_some(),
        None => false,
    }
}

/// Counts the merged latches of all rounds, if latches were to be merged.
fn counts_of_merged(alloc: Global, parts: &[CertPart]) -> Result<Option<MergeCounts>, AllocError>
    ensures { IfOk result (λ counts. counts ≡ told.merged_counts parts.now) }
{
    if are_merged(parts) {
        let lines = merged_lines(alloc, parts)?;
        Ok(Some(counts_of(lines.as_slice())))
    } else {
        Ok(None)
    }
}

/// Puts the members of a retiming into an object that has none.
fn put_retiming(
    members: &mut Map<String, Value>,
    alloc: Global,
    rounds: &Rounds,
    levels: ReadLevels,
    remaining: &Remaining,
    times: Option<&Times>,
    map: Option<MapCounts>,
) -> Result<(), AllocError>
    ensures { OnOk result (members_view members.old.entries ≡ no_members
        → object (members_view members.new.entries)
        ≡ retiming_data rounds.now levels remaining.now (option_map (λ t. t.now) times.entry) map) }
{
    let frames = rounds.frames.as_slice();
    let free_kept = rounds.kept_free.as_slice();
    let after = &remaining.counts;
    put_made(members, alloc, "after", circuit_object(alloc, after))?;
    let before = before_object(alloc, rounds.read_latches, levels.counted);
    put_made(members, alloc, "before", before)?;
    put_made(members, alloc, "frames", frames_array(alloc, frames))?;
    put_made(members, alloc, "free_kept", numbers_array(alloc, free_kept))?;
    let held_back = held_back_object(alloc, &remaining.held_back, remaining.is_least);
    put_made(members, alloc, "held_back", held_back)?;
    put_made(members, alloc, "map", map_value(alloc, map))?;
    let merged = counts_of_merged(alloc, rounds.parts.as_slice())?;
    put_made(members, alloc, "merged", merged_value(alloc, merged))?;
    put_made(members, alloc, "microseconds", times_value(alloc, times))?;
    put_scalars(
        members,
        alloc,
        &[
            ("bound", Scalar::CountIfAny(wide(levels.bound))),
            ("command", Scalar::Text("retime")),
            ("network", Scalar::CountIfAny(wide(networks_of(times)))),
            ("status", Scalar::Count(0)),
        ],
    )
}

/// Returns what `retime` prints. It has each frame, the levels of the circuit that was read and the
/// bound on levels. It has what the written one has and why no more latches go. The free latches
/// that stayed have their places among those of the circuit that was read. If they were asked for,
/// it has what the map of states has and the number of merged latches. If it was measured, it has
/// the time of the parts of the run and the number of sets that a network found.
///
/// # Errors
///
/// Memory is refused.
pub fn retiming_object(
    alloc: Global,
    rounds: &Rounds,
    levels: ReadLevels,
    remaining: &Remaining,
    times: Option<&Times>,
    map: Option<MapCounts>,
) -> Result<Value, AllocError>
    ensures { IfOk result (λ v. view v
        ≡ retiming_data rounds.now levels remaining.now (option_map (λ t. t.now) times.entry) map) }
{
    let mut members = Map::new(alloc);
    put_retiming(&mut members, alloc, rounds, levels, remaining, times, map)?;
    Ok(Value::Object(members))
}
