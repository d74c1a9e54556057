//! The command `check` without a map.
ghost use Rattle.std.specs.Prelude.{IfOk};
ghost use Rattle.aig_graph.specs.Streams.{AreKept};
ghost use Rattle.simulation_commands.specs.declared.kept.Shared.TheVariants.{Each};
ghost use Rattle.map_commands.specs.Checking.{IsPairVerdict, IsPairVerdictOf, IsPairVerdictUnder, MayShare, IsVerdictKept};

use crate::check::Verdict;
use aig_graph::Circuit;
use circuit_files::Failure;
use clean::all_places;
use command_line::Checking;
use counted_io::CountedRead;
use file_words::ReadError;
use pair_checks::{PairAnswer, PairError, check_pair};
use simulation_commands::{Shared, pair_at, shared_by};
use std::alloc::Global;
use std::rt::Files;

/// Returns what a check of two circuits finds, if the second, with this name, has these free
/// latches of the first.
fn verdict_kept<'a>(
    alloc: Global,
    first: &Circuit,
    second: &Circuit,
    name: &'a str,
    kept: &[u32],
) -> Result<Verdict, Failure<'a>>
    requires { AreKept first.now second.now kept.now }
    ensures { IfOk result (IsVerdictKept first.now second.now kept.now) }
{
    match check_pair(alloc, first, second, kept) {
        Ok(PairAnswer::Equal) => Ok(Verdict::Equal),
        Ok(PairAnswer::NotShown(obligation, shown, all)) => {
            Ok(Verdict::Open(obligation, shown, all))
        }
        Err(PairError::ShapesDiffer) => Ok(Verdict::ShapesDiffer),
        Err(PairError::TooLarge) => Err(Failure::Refused(name, ReadError::TooLarge(0))),
        Err(PairError::NoMemory) => Err(Failure::Memory),
    }
}

/// Returns what is found if the second circuit has each free latch of the first.
#[tactic(auto, using(crate::proofs::PairLaws::kept_all, crate::proofs::PairLaws::each_verdict))]
fn verdict_each<'a>(
    alloc: Global,
    first: &Circuit,
    second: &Circuit,
    name: &'a str,
) -> Result<Verdict, Failure<'a>>
    ensures { IfOk result (IsPairVerdict Each first.now second.now) }
{
    if second.aig().free_latches() != first.aig().free_latches() {
        return Ok(Verdict::ShapesDiffer);
    }
    let Ok(kept) = all_places(alloc, first.aig()) else {
        return Err(Failure::Memory);
    };
    let verdict = verdict_kept(alloc, first, second, name, kept.as_slice())?;
    Ok(verdict)
}

/// Returns what is found if the second circuit has these free latches of the first.
fn verdict_by<'a>(
    alloc: Global,
    first: &Circuit,
    second: &Circuit,
    name: &'a str,
    shared: &Shared,
) -> Result<Verdict, Failure<'a>>
    requires { MayShare shared.now first.now second.now }
    ensures { IfOk result (IsPairVerdict shared.now first.now second.now) }
{
    match shared {
        Shared::Each => verdict_each(alloc, first, second, name),
        Shared::Kept(kept) => verdict_kept(alloc, first, second, name, kept.as_slice()),
    }
}

/// Reads the list of kept free latches, where there is one, and checks both circuits.
fn pair_verdict_under<'a, R: Files, I: CountedRead>(
    rt: &R,
    alloc: Global,
    first: &Circuit,
    second: &Circuit,
    task: &Checking<'a>,
    stdin: &mut I,
) -> Result<Verdict, Failure<'a>>
    ensures { IfOk result (IsPairVerdictUnder first.now second.now task.now.kept
        (I.input stdin.old) (I.input stdin.new)) }
{
    match shared_by(rt, alloc, task.kept, first, second, stdin) {
        Ok(shared) => {
            let found = verdict_by(alloc, first, second, task.retimed.name(), &shared);
            drop(shared);
            found
        }
        Err(failure) => Err(failure),
    }
}

/// Reads two circuits, and checks them without a map.
pub(crate) fn pair_verdict_of<'a, R: Files, I: CountedRead>(
    rt: &R,
    alloc: Global,
    task: &Checking<'a>,
    stdin: &mut I,
) -> Result<Verdict, Failure<'a>>
    ensures { IfOk result (IsPairVerdictOf task.now (I.input stdin.old) (I.input stdin.new)) }
{
    match pair_at(rt, alloc, task.input, task.retimed, stdin) {
        Ok(pair) => {
            let (first, second) = (&pair.first.circuit, &pair.second.circuit);
            let found = pair_verdict_under(rt, alloc, first, second, task, stdin);
            drop(pair);
            found
        }
        Err(failure) => Err(failure),
    }
}
