//! The command `stat`.
ghost use Rattle.std.specs.Prelude.{IfOk};
ghost use Rattle.reports.specs.Counts.{counts_text};
ghost use Rattle.circuit_files.specs.declared.outcome.Outcome.TheVariants.{Done};
ghost use Rattle.command_endings.specs.Printing.{EndsPrinting, EndsWith, Prints, ending};
ghost use Rattle.commands.specs.Statistics.{AreMergeCounts, AreMergeCountsFor, PrintsCounts, PrintsStatistics, statistics_text};

use aig_graph::{Circuit, Keep, NoMemory};
use circuit_files::{Failure, Outcome, circuit_at};
use command_endings::ended;
use command_line::Counting;
use counted_io::{CountedRead, CountedWrite};
use latch_merging::merged_start;
use merged_circuits::{MergeCounts, counts_of};
use reports::{Statistics, print_counts};
use std::alloc::Global;
use std::rt::Files;

/// Counts the latches of the cleaned circuit that are merged if none is held.
fn merge_counts(alloc: Global, circuit: &Circuit) -> Result<MergeCounts, NoMemory>
    ensures { IfOk result (AreMergeCounts circuit.now) }
{
    let start = merged_start(alloc, circuit, &Keep::none())?;
    let counts = counts_of(start.merged.as_slice());
    drop(start);
    Ok(counts)
}

/// Counts the latches that are merged, if the task asks for that.
fn merge_counts_for(
    alloc: Global,
    circuit: &Circuit,
    merge: bool,
) -> Result<Option<MergeCounts>, NoMemory>
    ensures { IfOk result (AreMergeCountsFor merge circuit.now) }
{
    if merge {
        match merge_counts(alloc, circuit) {
            Ok(counts) => Ok(Some(counts)),
            Err(error) => Err(error),
        }
    } else {
        Ok(None)
    }
}

fn print_lines<'a, O: CountedWrite>(
    statistics: &Statistics,
    merged: Option<MergeCounts>,
    out: &mut O,
) -> Result<Outcome, Failure<'a>>
    ensures { EndsPrinting Done (counts_text statistics.now merged) (O.output out.old)
        (O.output out.new) result }
{
    ended(print_counts(statistics, merged, out), Outcome::Done)
}

/// Prints the counts of a circuit, as an object of JSON or in lines. `merged` counts the merged
/// latches, if the task asks for that.
fn print_merged<'a, O: CountedWrite>(
    alloc: Global,
    circuit: &Circuit,
    merged: Option<MergeCounts>,
    json: bool,
    out: &mut O,
) -> Result<Outcome, Failure<'a>>
    ensures statistics { IfOk result (EndsWith Done (statistics_text json circuit.now merged)
        (O.output out.old) (O.output out.new)) }
    ensures prints { Prints (ending result) (O.output out.old) (O.output out.new) }
{
    match Statistics::of(alloc, circuit) {
        Ok(statistics) => {
            if json {
                command_endings::print_statistics(alloc, &statistics, merged, out)
            } else {
                print_lines(&statistics, merged, out)
            }
        }
        Err(_) => Err(Failure::Memory),
    }
}

/// Prints the counts of a circuit as the task asks.
fn print_circuit<'a, O: CountedWrite>(
    alloc: Global,
    circuit: &Circuit,
    task: &Counting<'_>,
    out: &mut O,
) -> Result<Outcome, Failure<'a>>
    ensures statistics { IfOk result (PrintsCounts task.now circuit.now (O.output out.old)
        (O.output out.new)) }
    ensures prints { Prints (ending result) (O.output out.old) (O.output out.new) }
{
    match merge_counts_for(alloc, circuit, task.merge) {
        Ok(merged) => print_merged(alloc, circuit, merged, task.json, out),
        Err(NoMemory) => Err(Failure::Memory),
    }
}

/// Reads a circuit, and prints its counts, as an object of JSON or in lines.
pub fn print_statistics<'a, R: Files, I: CountedRead, O: CountedWrite>(
    rt: &R,
    alloc: Global,
    task: &Counting<'a>,
    stdin: &mut I,
    out: &mut O,
) -> Result<Outcome, Failure<'a>>
    ensures statistics { IfOk result (PrintsStatistics task.now (I.input stdin.old)
        (I.input stdin.new) (O.output out.old) (O.output out.new)) }
    ensures prints { Prints (ending result) (O.output out.old) (O.output out.new) }
{
    match circuit_at(rt, alloc, task.input, stdin) {
        Ok(spelt) => {
            let printed = print_circuit(alloc, &spelt.circuit, task, out);
            drop(spelt);
            printed
        }
        Err(failure) => Err(failure),
    }
}
