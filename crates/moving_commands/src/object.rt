//! A move as an object of JSON. The object that grows is borrowed, so that no member waits while
//! another is made.
ghost use Rattle.std.specs.Prelude.{◌≡◌, IfOk, OnOk};
ghost use Rattle.serde_json.specs.Data.{no_members, object, put};
ghost use Rattle.serde_json.specs.View.{members_view, view};
ghost use Rattle.json_reports.specs.Members.{array_of, count};
ghost use Rattle.moving_commands.specs.Printing.{backward_frame_data, frames_data, held_back_data, map_circuit_data, map_data_for, moves_data, staying_data};
ghost use Rattle.moving_commands.specs.Printing as wanted;

use crate::answering::Answer;
use crate::engines::Report;
use backward_moves::{FrameCounts, Staying};
use command_line::Moving;
use frame_runs::PathBound;
use json_reports::{circuit_object, count_value, wide};
use reports::Counts;
use serde_json::{Map, Value};
use std::alloc::{AllocError, Global};

/// Puts a number.
fn put_count(
    members: &mut Map<String, Value>,
    alloc: Global,
    name: &str,
    number: u64,
) -> Result<(), AllocError>
    ensures { OnOk result (members_view members.new.entries
        ≡ put name.now (count number) (members_view members.old.entries)) }
{
    serde_json::put(members, alloc, name, Value::from(number))
}

/// Puts the members of a frame into an object that has none.
fn put_frame(
    members: &mut Map<String, Value>,
    alloc: Global,
    frame: FrameCounts,
) -> Result<(), AllocError>
    ensures { OnOk result (members_view members.old.entries ≡ no_members
        → object (members_view members.new.entries) ≡ backward_frame_data frame) }
{
    put_count(members, alloc, "after", u64::from(frame.after))?;
    put_count(members, alloc, "before", u64::from(frame.before))?;
    put_count(members, alloc, "doubled", u64::from(frame.doubled))?;
    put_count(members, alloc, "gates", u64::from(frame.gates))
}

fn frame_object(alloc: Global, frame: FrameCounts) -> Result<Value, AllocError>
    ensures { IfOk result (λ v. view v ≡ backward_frame_data frame) }
{
    let mut members = Map::new(alloc);
    put_frame(&mut members, alloc, frame)?;
    Ok(Value::Object(members))
}

fn frames_array(alloc: Global, frames: &[FrameCounts]) -> Result<Value, AllocError>
    ensures { IfOk result (λ v. view v ≡ array_of backward_frame_data frames.now) }
{
    let mut list = Vec::new(alloc);
    for frame in frames {
        let object = frame_object(alloc, *frame)?;
        serde_json::push(&mut list, object)?;
    }
    Ok(Value::Array(list))
}

/// Puts how many constraints and gates the map has into an object that has no member.
fn put_map(
    members: &mut Map<String, Value>,
    alloc: Global,
    answer: &Answer,
) -> Result<(), AllocError>
    ensures { OnOk result (members_view members.old.entries ≡ no_members
        → object (members_view members.new.entries) ≡ map_circuit_data answer.now.moved.map) }
{
    let map = &answer.moved.map;
    put_count(
        members,
        alloc,
        "constraints",
        map.props().constraints.len() as u64,
    )?;
    put_count(members, alloc, "gates", map.aig().gates().len() as u64)
}

/// Returns what the map has, or null if none is written.
fn map_value(alloc: Global, task: &Moving<'_>, answer: &Answer) -> Result<Value, AllocError>
    ensures { IfOk result (λ v. view v ≡ map_data_for task.now.map answer.now.moved.map) }
{
    match task.map {
        Some(_) => {
            let mut members = Map::new(alloc);
            put_map(&mut members, alloc, answer)?;
            Ok(Value::Object(members))
        }
        None => Ok(Value::Null),
    }
}

/// Returns the bound on paths that is reported.
fn reported_bound(task: &Moving<'_>, answer: &Answer) -> Option<u64>
    ensures { result ≡ wanted.reported_bound task.now.options.bound answer.now.before }
{
    match task.options.bound {
        PathBound::None => None,
        PathBound::NoLonger => Some(answer.before.levels),
        PathBound::Levels(levels) => Some(u64::from(levels)),
    }
}

/// Puts how many latches stay, and for what, into an object that has no member.
fn put_staying(
    members: &mut Map<String, Value>,
    alloc: Global,
    staying: &Staying,
) -> Result<(), AllocError>
    ensures { OnOk result (members_view members.old.entries ≡ no_members
        → object (members_view members.new.entries) ≡ staying_data staying.now) }
{
    let behind_none = u64::from(staying.behind_no_gate);
    let elsewhere = u64::from(staying.read_elsewhere);
    put_count(members, alloc, "behind_no_gate", behind_none)?;
    put_count(members, alloc, "could_move", u64::from(staying.could_move))?;
    put_count(members, alloc, "free", u64::from(staying.free))?;
    put_count(members, alloc, "held", u64::from(staying.held))?;
    serde_json::put(members, alloc, "least", Value::from(staying.is_least))?;
    put_count(members, alloc, "movable", u64::from(staying.movable))?;
    put_count(members, alloc, "read_elsewhere", elsewhere)?;
    let too_long = count_value(wide(staying.too_long));
    serde_json::put(members, alloc, "too_long", too_long)
}

fn staying_object(alloc: Global, staying: &Staying) -> Result<Value, AllocError>
    ensures { IfOk result (λ v. view v ≡ staying_data staying.now) }
{
    let mut members = Map::new(alloc);
    put_staying(&mut members, alloc, staying)?;
    Ok(Value::Object(members))
}

/// Returns the frames that were taken.
fn frames_value(alloc: Global, report: &Report) -> Result<Value, AllocError>
    ensures { IfOk result (λ v. view v ≡ frames_data report.now) }
{
    match report {
        Report::OfBackward(frames, _, _) => frames_array(alloc, frames.as_slice()),
        Report::OfEnables(frames, _) => Ok(Value::from(u64::from(*frames))),
    }
}

/// Returns why no more latches go, or null if that isn't told.
fn held_back_value(alloc: Global, report: &Report) -> Result<Value, AllocError>
    ensures { IfOk result (λ v. view v ≡ held_back_data report.now) }
{
    match report {
        Report::OfBackward(_, staying, _) => staying_object(alloc, staying),
        Report::OfEnables(_, _) => Ok(Value::Null),
    }
}

/// Puts the members of a move into an object that has none; `after` is what the written circuit
/// has.
fn put_moves(
    members: &mut Map<String, Value>,
    alloc: Global,
    task: &Moving<'_>,
    answer: &Answer,
    after: &Counts,
) -> Result<(), AllocError>
    ensures { OnOk result (members_view members.old.entries ≡ no_members
        → object (members_view members.new.entries)
        ≡ moves_data task.now answer.now after.now) }
{
    let report = &answer.moved.report;
    serde_json::put(members, alloc, "after", circuit_object(alloc, after)?)?;
    serde_json::put(
        members,
        alloc,
        "before",
        circuit_object(alloc, &answer.before)?,
    )?;
    let bound = count_value(reported_bound(task, answer));
    serde_json::put(members, alloc, "bound", bound)?;
    serde_json::put(
        members,
        alloc,
        "command",
        Value::try_from_str(alloc, task.kind.command())?,
    )?;
    serde_json::put(members, alloc, "frames", frames_value(alloc, report)?)?;
    serde_json::put(members, alloc, "held_back", held_back_value(alloc, report)?)?;
    serde_json::put(members, alloc, "map", map_value(alloc, task, answer)?)?;
    serde_json::put(members, alloc, "shown", Value::from(report.is_shown()))?;
    put_count(members, alloc, "status", 0)
}

/// Returns what is printed of a move, if the written circuit has this.
///
/// # Errors
///
/// Memory is refused.
pub(crate) fn moves_object(
    alloc: Global,
    task: &Moving<'_>,
    answer: &Answer,
    after: &Counts,
) -> Result<Value, AllocError>
    ensures { IfOk result (λ v. view v ≡ moves_data task.now answer.now after.now) }
{
    let mut members = Map::new(alloc);
    put_moves(&mut members, alloc, task, answer, after)?;
    Ok(Value::Object(members))
}
