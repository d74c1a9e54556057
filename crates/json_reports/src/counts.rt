//! What a circuit has.
ghost use Rattle.std.specs.Prelude.{◌≡◌, IfOk, OnOk};
ghost use Rattle.serde_json.specs.Data.{no_members, object};
ghost use Rattle.serde_json.specs.View.{members_view, view};
ghost use Rattle.json_reports.specs.Counts.{circuit_data, map_data, merge_data, statistics_data};
ghost use Rattle.json_reports.specs.Members.{or_null};

use crate::members::{Scalar, put_made, put_scalars, scalars_object};
use merged_circuits::MergeCounts;
use reports::{Counts, Statistics};
use serde_json::{Map, Value};
use std::alloc::{AllocError, Global};

/// Returns the counts of each kind in a circuit, and its levels.
///
/// # Errors
///
/// Memory is refused.
pub fn circuit_object(alloc: Global, counts: &Counts) -> Result<Value, AllocError>
    ensures { IfOk result (λ v. view v ≡ circuit_data counts.now) }
{
    scalars_object(
        alloc,
        &[
            ("bad", Scalar::Count(counts.bad)),
            ("constraints", Scalar::Count(counts.constraints)),
            ("fairness", Scalar::Count(counts.fairness)),
            ("free", Scalar::Count(counts.free)),
            ("gates", Scalar::Count(counts.gates)),
            ("inputs", Scalar::Count(counts.inputs)),
            ("justice", Scalar::Count(counts.justice)),
            ("known", Scalar::Count(counts.known)),
            ("latches", Scalar::Count(counts.latches)),
            ("levels", Scalar::Count(counts.levels)),
            ("outputs", Scalar::Count(counts.outputs)),
        ],
    )
}

fn merge_object(alloc: Global, counts: MergeCounts) -> Result<Value, AllocError>
    ensures { IfOk result (λ v. view v ≡ merge_data counts) }
{
    scalars_object(
        alloc,
        &[
            ("constant", Scalar::Count(counts.constant)),
            ("latches", Scalar::Count(counts.merged)),
        ],
    )
}

/// What is told of the levels of the circuit that was read.
#[derive(Clone, Copy)]
pub struct ReadLevels {
    /// Its levels, if they were counted.
    pub counted: Option<u32>,
    /// The bound on levels that its run has, if there is one.
    pub bound: Option<u32>,
}

/// How many gates and constraints a map of states has.
#[derive(Clone, Copy)]
pub struct MapCounts {
    pub gates: u64,
    pub constraints: u64,
}

fn map_object(alloc: Global, counts: MapCounts) -> Result<Value, AllocError>
    ensures { IfOk result (λ v. view v ≡ map_data counts) }
{
    scalars_object(
        alloc,
        &[
            ("constraints", Scalar::Count(counts.constraints)),
            ("gates", Scalar::Count(counts.gates)),
        ],
    )
}

/// Returns what a map has, or null if none was written.
pub(crate) fn map_value(alloc: Global, map: Option<MapCounts>) -> Result<Value, AllocError>
    ensures { IfOk result (λ v. view v ≡ or_null map_data map) }
{
    match map {
        Some(counts) => map_object(alloc, counts),
        None => Ok(Value::Null),
    }
}

/// Returns the number of latches that are merged, and of these with a constant, or null if none
/// were to be.
pub(crate) fn merged_value(alloc: Global, merged: Option<MergeCounts>) -> Result<Value, AllocError>
    ensures { IfOk result (λ v. view v ≡ or_null merge_data merged) }
{
    match merged {
        Some(counts) => merge_object(alloc, counts),
        None => Ok(Value::Null),
    }
}

/// Puts what `stat` tells into an object that has no member.
fn put_statistics(
    members: &mut Map<String, Value>,
    alloc: Global,
    statistics: &Statistics,
    merged: Option<MergeCounts>,
) -> Result<(), AllocError>
    ensures { OnOk result (members_view members.old.entries ≡ no_members
        → object (members_view members.new.entries) ≡ statistics_data statistics.now merged) }
{
    let circuit = circuit_object(alloc, &statistics.counts);
    put_made(members, alloc, "circuit", circuit)?;
    put_made(members, alloc, "merged", merged_value(alloc, merged))?;
    put_scalars(
        members,
        alloc,
        &[
            ("command", Scalar::Text("stat")),
            ("passable", Scalar::Count(statistics.passable)),
            ("status", Scalar::Count(0)),
        ],
    )
}

/// Returns what `stat` tells of a circuit, and the number of its latches that are merged, if that
/// was asked for.
///
/// # Errors
///
/// Memory is refused.
pub fn statistics_object(
    alloc: Global,
    statistics: &Statistics,
    merged: Option<MergeCounts>,
) -> Result<Value, AllocError>
    ensures { IfOk result (λ v. view v ≡ statistics_data statistics.now merged) }
{
    let mut members = Map::new(alloc);
    put_statistics(&mut members, alloc, statistics, merged)?;
    Ok(Value::Object(members))
}
