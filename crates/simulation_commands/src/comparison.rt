//! The command `same`.
ghost use Rattle.std.specs.Prelude.{IfOk};
ghost use Rattle.command_endings.specs.Objects.{EndsPrintingObject};
ghost use Rattle.simulation_commands.specs.Comparing.{IsFinding, IsFindingBy, IsFindingOf, IsFindingUnder, PrintsFinding, finding_object, finding_text, outcome_of_finding, printed_finding};
ghost use Rattle.simulation_commands.specs.declared.kept.Shared.TheVariants.{Each, Kept};
ghost use Rattle.command_endings.specs.Printing.{EndsPrinting, EndsWith, Prints, ending};

use crate::kept::{Shared, shared_by};
use crate::reading::pair_at;
use crate::stimuli::stimuli_for;
use aig_graph::{Circuit, Sequence};
use circuit_files::{Failure, Outcome};
use command_endings::ended;
use command_line::Comparison;
use counted_io::{CountedRead, CountedWrite};
use lane_sim::{Place, SimError, Stimulus, first_difference, first_difference_kept};
use reports::{print_difference, print_shapes_differ};
use std::alloc::Global;
use std::rt::Files;
use std::thread::Threads;

/// What comparing two circuits finds.
#[derive(Clone, Copy)]
enum Finding {
    Same,
    /// They differ first at this place.
    Differ(Place),
    /// They can't be compared.
    ShapesDiffer,
}

fn compare<'a, R: Threads + Sync>(
    rt: &R,
    alloc: Global,
    first: &Circuit,
    second: &Circuit,
    stimulus: &Stimulus,
) -> Result<Finding, Failure<'a>>
    ensures { IfOk result (IsFinding Each first.now second.now stimulus.now) }
{
    match first_difference(rt, alloc, first, second, stimulus) {
        Ok(None) => Ok(Finding::Same),
        Ok(Some(place)) => Ok(Finding::Differ(place)),
        Err(SimError::Shape) => Ok(Finding::ShapesDiffer),
        Err(SimError::NoMemory) => Err(Failure::Memory),
    }
}

/// Compares two circuits, the second of which has the free latches of the first at these places.
fn compare_kept<'a, R: Threads + Sync>(
    rt: &R,
    alloc: Global,
    first: &Circuit,
    second: &Circuit,
    kept: &Sequence<u32>,
    stimulus: &Stimulus,
) -> Result<Finding, Failure<'a>>
    ensures { IfOk result (IsFinding (Kept kept.now) first.now second.now stimulus.now) }
{
    match first_difference_kept(rt, alloc, first, second, stimulus, kept.as_slice()) {
        Ok(None) => Ok(Finding::Same),
        Ok(Some(place)) => Ok(Finding::Differ(place)),
        Err(SimError::Shape) => Ok(Finding::ShapesDiffer),
        Err(SimError::NoMemory) => Err(Failure::Memory),
    }
}

fn compare_shared<'a, R: Threads + Sync>(
    rt: &R,
    alloc: Global,
    first: &Circuit,
    second: &Circuit,
    shared: &Shared,
    stimulus: &Stimulus,
) -> Result<Finding, Failure<'a>>
    ensures { IfOk result (IsFinding shared.now first.now second.now stimulus.now) }
{
    match shared {
        Shared::Each => compare(rt, alloc, first, second, stimulus),
        Shared::Kept(kept) => compare_kept(rt, alloc, first, second, kept, stimulus),
    }
}

/// Compares two circuits under what the task asks for. The second one has these free latches of the
/// first.
fn compared_by<'a, R: Files + Threads + Sync, I: CountedRead>(
    rt: &R,
    alloc: Global,
    first: &Circuit,
    second: &Circuit,
    shared: &Shared,
    task: &Comparison<'a>,
    stdin: &mut I,
) -> Result<Finding, Failure<'a>>
    ensures { IfOk result (IsFindingBy shared.now first.now second.now task.now.stimuli
        (I.input stdin.old) (I.input stdin.new)) }
{
    match stimuli_for(rt, alloc, task.stimuli, first, task.first, stdin) {
        Ok(stimulus) => {
            let found = compare_shared(rt, alloc, first, second, shared, &stimulus);
            drop(stimulus);
            found
        }
        Err(failure) => Err(failure),
    }
}

/// Compares two circuits under what the task asks for.
fn compared_under<'a, R: Files + Threads + Sync, I: CountedRead>(
    rt: &R,
    alloc: Global,
    first: &Circuit,
    second: &Circuit,
    task: &Comparison<'a>,
    stdin: &mut I,
) -> Result<Finding, Failure<'a>>
    ensures { IfOk result (IsFindingUnder first.now second.now task.now (I.input stdin.old)
        (I.input stdin.new)) }
{
    match shared_by(rt, alloc, task.kept, first, second, stdin) {
        Ok(shared) => {
            let found = compared_by(rt, alloc, first, second, &shared, task, stdin);
            drop(shared);
            found
        }
        Err(failure) => Err(failure),
    }
}

fn compared<'a, R: Files + Threads + Sync, I: CountedRead>(
    rt: &R,
    alloc: Global,
    task: &Comparison<'a>,
    stdin: &mut I,
) -> Result<Finding, Failure<'a>>
    ensures { IfOk result (IsFindingOf task.now (I.input stdin.old) (I.input stdin.new)) }
{
    match pair_at(rt, alloc, task.first, task.second, stdin) {
        Ok(pair) => {
            let found = compared_under(
                rt,
                alloc,
                &pair.first.circuit,
                &pair.second.circuit,
                task,
                stdin,
            );
            drop(pair);
            found
        }
        Err(failure) => Err(failure),
    }
}

fn print_finding<'a, O: CountedWrite>(finding: Finding, out: &mut O) -> Result<Outcome, Failure<'a>>
    ensures { EndsPrinting (outcome_of_finding finding) (finding_text finding) (O.output out.old)
        (O.output out.new) result }
{
    match finding {
        Finding::Same => ended(print_difference(None, out), Outcome::Done),
        Finding::Differ(place) => ended(print_difference(Some(place), out), Outcome::Differ),
        Finding::ShapesDiffer => ended(print_shapes_differ(out), Outcome::ShapesDiffer),
    }
}

fn print_finding_object<'a, O: CountedWrite>(
    alloc: Global,
    finding: Finding,
    out: &mut O,
) -> Result<Outcome, Failure<'a>>
    ensures { EndsPrintingObject (outcome_of_finding finding) (finding_object finding)
        (O.output out.old) (O.output out.new) result }
{
    match finding {
        Finding::Same => command_endings::print_difference(alloc, None, out),
        Finding::Differ(place) => command_endings::print_difference(alloc, Some(place), out),
        Finding::ShapesDiffer => command_endings::print_shapes_differ(alloc, out),
    }
}

/// Prints a finding as an object of JSON or in a line.
fn print_finding_as<'a, O: CountedWrite>(
    alloc: Global,
    finding: Finding,
    json: bool,
    out: &mut O,
) -> Result<Outcome, Failure<'a>>
    ensures finding { IfOk result (EndsWith (outcome_of_finding finding)
        (printed_finding json finding) (O.output out.old) (O.output out.new)) }
    ensures prints { Prints (ending result) (O.output out.old) (O.output out.new) }
{
    if json {
        print_finding_object(alloc, finding, out)
    } else {
        print_finding(finding, out)
    }
}

/// Reads two circuits, then the list of kept free latches if the task has one, and then a stimulus
/// unless it has random sequences. Prints the first difference of the circuits under it, as an
/// object of JSON or in a line. The widths of a stimulus are those of the first circuit.
pub fn print_comparison<'a, R: Files + Threads + Sync, I: CountedRead, O: CountedWrite>(
    rt: &R,
    alloc: Global,
    task: &Comparison<'a>,
    stdin: &mut I,
    out: &mut O,
) -> Result<Outcome, Failure<'a>>
    ensures finding { IfOk result (PrintsFinding task.now (I.input stdin.old) (I.input stdin.new)
        (O.output out.old) (O.output out.new)) }
    ensures prints { Prints (ending result) (O.output out.old) (O.output out.new) }
{
    match compared(rt, alloc, task, stdin) {
        Ok(found) => print_finding_as(alloc, found, task.json, out),
        Err(failure) => Err(failure),
    }
}
