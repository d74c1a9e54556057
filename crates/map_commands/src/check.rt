//! The command `check`.
ghost use Rattle.std.specs.Prelude.{◌≡◌, Err, IfOk};
ghost use Rattle.map_checks.specs.Answers.{IsMap};
ghost use Rattle.circuit_files.specs.declared.outcome.Failure.TheVariants.{NotAMap};
ghost use Rattle.command_endings.specs.Printing.{EndsPrinting, Prints, ending};
ghost use Rattle.map_commands.specs.Checking.{IsFoundBy, IsVerdict, IsVerdictOf, PrintsCheck, outcome_of_check, check_text};

use crate::given::mapped_at;
use crate::obligations::{print_equal, print_obligation, print_retiming};
use crate::pair_check::pair_verdict_of;
use aig_graph::Circuit;
use circuit_files::{Failure, Outcome};
use command_endings::ended;
use command_line::Checking;
use counted_io::{CountedRead, CountedWrite, Source};
use file_words::ReadError;
use map_checks::{Answer, CheckError, Obligation, check_map};
use reports::print_shapes_differ;
use std::alloc::Global;
use std::fmt::Write;
use std::rt::Files;

/// What a check finds.
#[derive(Clone, Copy)]
pub(crate) enum Verdict {
    /// The second circuit is a retiming of the first, by the map.
    Retiming,
    /// Without a map, the properties of both are shown to be the same.
    Equal,
    /// This isn't shown.
    NotShown(Obligation),
    /// Without a map, this property isn't shown. Then how many are shown, and how many there are.
    Open(Obligation, usize, usize),
    /// The circuits don't have one shape.
    ShapesDiffer,
}

/// Returns what a check of a map with this name finds. A map that isn't one for these circuits is
/// refused. If the circuits and the map have too many gates together, that is a fault of the map.
fn verdict_on<'a>(
    alloc: Global,
    first: &Circuit,
    second: &Circuit,
    map: &Circuit,
    name: &'a str,
) -> Result<Verdict, Failure<'a>>
    ensures verdict { IfOk result (IsVerdict first.now second.now map.now) }
    ensures not_a_map { (IsMap map.now → ⊥) → result ≡ Err (NotAMap name.entry) }
{
    match check_map(alloc, first, second, map) {
        Ok(Answer::Retiming(_)) => Ok(Verdict::Retiming),
        Ok(Answer::NotShown(obligation)) => Ok(Verdict::NotShown(obligation)),
        Err(CheckError::ShapesDiffer) => Ok(Verdict::ShapesDiffer),
        Err(CheckError::NotAMap) | Err(CheckError::DoesNotFit) => Err(Failure::NotAMap(name)),
        Err(CheckError::TooLarge) => Err(Failure::Refused(name, ReadError::TooLarge(0))),
        Err(CheckError::NoMemory) => Err(Failure::Memory),
    }
}

/// Checks the circuits and the map that are read.
fn verdict_of<'a, R: Files, I: CountedRead>(
    rt: &R,
    alloc: Global,
    first: Source<'a>,
    second: Source<'a>,
    map: Source<'a>,
    stdin: &mut I,
) -> Result<Verdict, Failure<'a>>
    ensures { IfOk result (IsVerdictOf first.entry second.entry map.entry (I.input stdin.old)
        (I.input stdin.new)) }
{
    match mapped_at(rt, alloc, first, second, map, stdin) {
        Ok(mapped) => {
            let found = verdict_on(
                alloc,
                &mapped.pair.first.circuit,
                &mapped.pair.second.circuit,
                &mapped.map.circuit,
                map.name(),
            );
            drop(mapped);
            found
        }
        Err(failure) => Err(failure),
    }
}

fn print_verdict<'a, O: CountedWrite>(verdict: Verdict, out: &mut O) -> Result<Outcome, Failure<'a>>
    ensures { EndsPrinting (outcome_of_check verdict) (check_text verdict) (O.output out.old)
        (O.output out.new) result }
{
    match verdict {
        Verdict::Retiming => ended(print_retiming(out), Outcome::Done),
        Verdict::Equal => ended(print_equal(out), Outcome::Done),
        Verdict::NotShown(obligation) | Verdict::Open(obligation, _, _) => ended(
            print_obligation(obligation, out),
            Outcome::Unconfirmed,
        ),
        Verdict::ShapesDiffer => ended(print_shapes_differ(out), Outcome::ShapesDiffer),
    }
}

/// Says how far a check without a map came, and what may settle the rest.
fn tell_open<M: Write>(verdict: Verdict, message: &mut M) {
    if let Verdict::Open(_, shown, all) = verdict {
        let _ = writeln!(message, "{shown} of {all} properties were shown");
        let _ = message.write_str(
            "with a map of states: 'check IN OUT MAP'; with a solver: 'miter' or 'product'; for a difference: 'same'\n",
        );
    }
}

/// Returns what is found of the circuits that are read, by the map that is read or without one.
fn found_by<'a, R: Files, I: CountedRead>(
    rt: &R,
    alloc: Global,
    task: &Checking<'a>,
    stdin: &mut I,
) -> Result<Verdict, Failure<'a>>
    ensures { IfOk result (IsFoundBy task.now.map task.now (I.input stdin.old)
        (I.input stdin.new)) }
{
    match task.map {
        Some(map) => verdict_of(rt, alloc, task.input, task.retimed, map, stdin),
        None => pair_verdict_of(rt, alloc, task, stdin),
    }
}

/// Reads a circuit, the one that was made of it, and the map of states or the list of kept free
/// latches, in this order.
///
/// Prints whether it is shown that the second has the properties of the first, or what isn't shown.
/// `message` gets what a person may want to know of what isn't.
pub fn print_check<'a, R: Files, I: CountedRead, O: CountedWrite, M: Write>(
    rt: &R,
    alloc: Global,
    task: &Checking<'a>,
    stdin: &mut I,
    out: &mut O,
    message: &mut M,
) -> Result<Outcome, Failure<'a>>
    ensures check { IfOk result (PrintsCheck task.now (I.input stdin.old) (I.input stdin.new)
        (O.output out.old) (O.output out.new)) }
    ensures prints { Prints (ending result) (O.output out.old) (O.output out.new) }
{
    let verdict = found_by(rt, alloc, task, stdin)?;
    let printed = print_verdict(verdict, out);
    tell_open(verdict, message);
    printed
}
