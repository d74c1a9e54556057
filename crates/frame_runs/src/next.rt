//! The set that the next frame of a run takes, for a caller that shows it. It is looked for as the
//! frames do, and no latch moves.
ghost use Rattle.std.specs.Prelude.{◌≡◌, IfOk};
ghost use Rattle.frame_runs.specs.Retiming.{IsNextSet};

use crate::helping::{Helping, helping_set};
use crate::options::Options;
use crate::run::Run;
use aig_graph::{ClosedSet, NoMemory};
use chosen_cuts::Records;
use pulse::{Crew, PhaseGate};
use retimed_circuits::Retimed;
use std::alloc::Global;
use std::thread::Threads;

/// Returns the set of `found` and drops the rest.
fn set_of(found: Helping) -> ClosedSet
    ensures { result ≡ found.set }
{
    let Helping { set, prepared, .. } = found;
    drop(prepared);
    set
}

/// Finds the set over which the next frame of `run` moves latches, or returns `None` if no set
/// leaves fewer.
///
/// It is the chosen least set. If that breaks the run's bound, it is the chosen least one of the
/// closed sets whose gates arrive within the bound.
///
/// # Errors
///
/// `NoMemory` if memory is refused.
pub fn next_set<F, G: PhaseGate>(
    rt: &(impl Threads + Sync),
    alloc: Global,
    run: &Run<Retimed, F>,
    options: &Options,
    crew: &Crew<G>,
) -> Result<Option<ClosedSet>, NoMemory>
    ensures { IfOk result (IsNextSet options.now run.now.bound run.now.keep
        run.now.retimed.circuit) }
{
    let mut records = Records::new(alloc, false);
    match helping_set(rt, alloc, run, options, crew, &mut records)? {
        Some(found) => Ok(Some(set_of(found))),
        None => Ok(None),
    }
}
