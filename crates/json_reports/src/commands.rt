//! What each command prints.
ghost use Rattle.std.specs.Prelude.{option_map};
ghost use Rattle.json_reports.specs.Audits.{audit_data};
ghost use Rattle.json_reports.specs.Batches.{batch_data};
ghost use Rattle.json_reports.specs.Counts.{statistics_data};
ghost use Rattle.json_reports.specs.Differences.{difference_data, shapes_data};
ghost use Rattle.json_reports.specs.Lines.{PrintsLine};
ghost use Rattle.json_reports.specs.Refusals.{refusal_data};
ghost use Rattle.json_reports.specs.Retimings.{retiming_data};

use crate::audit::audit_object;
use crate::batch::batch_object;
use crate::counts::{MapCounts, ReadLevels, statistics_object};
use crate::difference::{difference_object, shapes_object};
use crate::printing::{PrintError, print_made};
use crate::refusal::{Refusal, refusal_object};
use crate::retiming::retiming_object;
use crate::times::Times;
use certificate_files::CertPart;
use counted_io::CountedWrite;
use lane_sim::Place;
use merged_circuits::MergeCounts;
use merging_rounds::Rounds;
use reports::{JobReport, Judgement, Remaining, Statistics};
use std::alloc::Global;

/// Prints what [`retiming_object`] makes, on a line.
///
/// # Errors
///
/// Those of [`print_object`](crate::print_object), and `NoMemory` if there is no room for the
/// object.
pub fn print_retiming<W: CountedWrite>(
    alloc: Global,
    rounds: &Rounds,
    levels: ReadLevels,
    remaining: &Remaining,
    times: Option<&Times>,
    map: Option<MapCounts>,
    writer: &mut W,
) -> Result<(), PrintError>
    ensures { PrintsLine
        (retiming_data rounds.now levels remaining.now (option_map (λ t. t.now) times.entry) map)
        (W.output writer.old) (W.output writer.new) result }
{
    print_made(
        alloc,
        retiming_object(alloc, rounds, levels, remaining, times, map),
        writer,
    )
}

/// Prints what [`statistics_object`] makes, on a line.
///
/// # Errors
///
/// Those of [`print_object`](crate::print_object), and `NoMemory` if there is no room for the
/// object.
pub fn print_statistics<W: CountedWrite>(
    alloc: Global,
    statistics: &Statistics,
    merged: Option<MergeCounts>,
    writer: &mut W,
) -> Result<(), PrintError>
    ensures { PrintsLine (statistics_data statistics.now merged)
        (W.output writer.old) (W.output writer.new) result }
{
    print_made(alloc, statistics_object(alloc, statistics, merged), writer)
}

/// Prints what [`difference_object`] makes, on a line.
///
/// # Errors
///
/// Those of [`print_object`](crate::print_object), and `NoMemory` if there is no room for the
/// object.
pub fn print_difference<W: CountedWrite>(
    alloc: Global,
    found: Option<Place>,
    writer: &mut W,
) -> Result<(), PrintError>
    ensures { PrintsLine (difference_data found) (W.output writer.old) (W.output writer.new) result }
{
    print_made(alloc, difference_object(alloc, found), writer)
}

/// Prints what [`shapes_object`] makes, on a line.
///
/// # Errors
///
/// Those of [`print_object`](crate::print_object), and `NoMemory` if there is no room for the
/// object.
pub fn print_shapes_differ<W: CountedWrite>(alloc: Global, writer: &mut W) -> Result<(), PrintError>
    ensures { PrintsLine shapes_data (W.output writer.old) (W.output writer.new) result }
{
    print_made(alloc, shapes_object(alloc), writer)
}

/// Prints what [`audit_object`] makes, on a line.
///
/// # Errors
///
/// Those of [`print_object`](crate::print_object), and `NoMemory` if there is no room for the
/// object.
pub fn print_audit<W: CountedWrite>(
    alloc: Global,
    parts: &[CertPart],
    judgement: &Judgement,
    status: u8,
    writer: &mut W,
) -> Result<(), PrintError>
    ensures { PrintsLine (audit_data parts.now judgement.now status)
        (W.output writer.old) (W.output writer.new) result }
{
    print_made(alloc, audit_object(alloc, parts, judgement, status), writer)
}

/// Prints what [`batch_object`] makes, on a line.
///
/// # Errors
///
/// Those of [`print_object`](crate::print_object), and `NoMemory` if there is no room for the
/// object.
pub fn print_batch<W: CountedWrite>(
    alloc: Global,
    reports: &[JobReport],
    status: u8,
    writer: &mut W,
) -> Result<(), PrintError>
    ensures { PrintsLine (batch_data reports.now status)
        (W.output writer.old) (W.output writer.new) result }
{
    print_made(alloc, batch_object(alloc, reports, status), writer)
}

/// Prints what [`refusal_object`] makes, on a line.
///
/// # Errors
///
/// Those of [`print_object`](crate::print_object), and `NoMemory` if there is no room for the
/// object.
pub fn print_refusal<W: CountedWrite>(
    alloc: Global,
    refusal: &Refusal<'_>,
    writer: &mut W,
) -> Result<(), PrintError>
    ensures { PrintsLine (refusal_data refusal.now)
        (W.output writer.old) (W.output writer.new) result }
{
    print_made(alloc, refusal_object(alloc, refusal), writer)
}
