//! What a command found, as an object of JSON.
ghost use Rattle.std.specs.Prelude.{◌≡◌, option_map};
ghost use Rattle.json_reports.specs.Audits.{audit_data};
ghost use Rattle.json_reports.specs.Batches.{batch_data};
ghost use Rattle.json_reports.specs.Counts.{statistics_data};
ghost use Rattle.json_reports.specs.Differences.{difference_data, shapes_data};
ghost use Rattle.json_reports.specs.Retimings.{retiming_data};
ghost use Rattle.circuit_files.specs.Codes.{status_of};
ghost use Rattle.circuit_files.specs.declared.outcome.Outcome.TheVariants.{Done, ShapesDiffer};
ghost use Rattle.command_endings.specs.Objects.{EndsBy, EndsPrintingObject};
ghost use Rattle.command_endings.specs.Objects as wanted;

use certificate_files::CertPart;
use circuit_files::{Failure, Outcome};
use counted_io::CountedWrite;
use json_reports::{MapCounts, PrintError, ReadLevels, Times};
use lane_sim::Place;
use merged_circuits::MergeCounts;
use merging_rounds::Rounds;
use reports::{JobReport, Judgement, Remaining, Statistics};
use std::alloc::Global;

/// Returns the end of a command that has printed an object, if there was room for it and standard
/// output took all of it.
fn ended<'a>(printed: Result<(), PrintError>, outcome: Outcome) -> Result<Outcome, Failure<'a>>
    ensures { EndsBy printed outcome result }
{
    match printed {
        Ok(()) => Ok(outcome),
        Err(PrintError::NoMemory) => Err(Failure::Memory),
        Err(PrintError::Device) => Err(Failure::Device("stdout")),
    }
}

/// Prints the frames of a retiming, the levels of the circuit that was read and the bound on
/// levels. Prints what the written one has and why no more latches go, the free latches that
/// stayed, and what the map of states has. Prints the time of the parts of the run, if that was
/// measured.
pub fn print_retiming<'a, W: CountedWrite>(
    alloc: Global,
    rounds: &Rounds,
    levels: ReadLevels,
    remaining: &Remaining,
    times: Option<&Times>,
    map: Option<MapCounts>,
    writer: &mut W,
) -> Result<Outcome, Failure<'a>>
    ensures { EndsPrintingObject Done
        (retiming_data rounds.now levels remaining.now (option_map (λ t. t.now) times.entry) map)
        (W.output writer.old) (W.output writer.new) result }
{
    let printed = json_reports::print_retiming(
        alloc, rounds, levels, remaining, times, map, writer,
    );
    ended(printed, Outcome::Done)
}

/// Prints what `stat` tells of a circuit, and the number of its latches that are merged, if that
/// was asked for.
pub fn print_statistics<'a, W: CountedWrite>(
    alloc: Global,
    statistics: &Statistics,
    merged: Option<MergeCounts>,
    writer: &mut W,
) -> Result<Outcome, Failure<'a>>
    ensures { EndsPrintingObject Done (statistics_data statistics.now merged)
        (W.output writer.old) (W.output writer.new) result }
{
    let printed = json_reports::print_statistics(alloc, statistics, merged, writer);
    ended(printed, Outcome::Done)
}

fn outcome_of_difference(found: Option<Place>) -> Outcome
    ensures { result ≡ wanted.outcome_of_difference found }
{
    match found {
        Some(_) => Outcome::Differ,
        None => Outcome::Done,
    }
}

/// Prints the first place at which two circuits differ, or that there is none.
pub fn print_difference<'a, W: CountedWrite>(
    alloc: Global,
    found: Option<Place>,
    writer: &mut W,
) -> Result<Outcome, Failure<'a>>
    ensures { EndsPrintingObject (wanted.outcome_of_difference found) (difference_data found)
        (W.output writer.old) (W.output writer.new) result }
{
    let printed = json_reports::print_difference(alloc, found, writer);
    ended(printed, outcome_of_difference(found))
}

/// Prints that two circuits can't be compared.
pub fn print_shapes_differ<'a, W: CountedWrite>(
    alloc: Global,
    writer: &mut W,
) -> Result<Outcome, Failure<'a>>
    ensures { EndsPrintingObject ShapesDiffer shapes_data (W.output writer.old)
        (W.output writer.new) result }
{
    let printed = json_reports::print_shapes_differ(alloc, writer);
    ended(printed, Outcome::ShapesDiffer)
}

/// Prints a judgement of a file's parts. The run then ends so.
pub fn print_audit<'a, W: CountedWrite>(
    alloc: Global,
    parts: &[CertPart],
    judgement: &Judgement,
    outcome: Outcome,
    writer: &mut W,
) -> Result<Outcome, Failure<'a>>
    ensures { EndsPrintingObject outcome (audit_data parts.now judgement.now (status_of outcome))
        (W.output writer.old) (W.output writer.new) result }
{
    let status = outcome.status();
    let printed = json_reports::print_audit(alloc, parts, judgement, status, writer);
    ended(printed, outcome)
}

/// Prints the files of a batch that ends so.
pub fn print_batch<'a, W: CountedWrite>(
    alloc: Global,
    reports: &[JobReport],
    outcome: Outcome,
    writer: &mut W,
) -> Result<Outcome, Failure<'a>>
    ensures { EndsPrintingObject outcome (batch_data reports.now (status_of outcome))
        (W.output writer.old) (W.output writer.new) result }
{
    let printed = json_reports::print_batch(alloc, reports, outcome.status(), writer);
    ended(printed, outcome)
}
