//! Whole retimings in rounds, without a follower.
ghost use Rattle.std.specs.Prelude.{ℕ, ◌≡◌, ◌∷◌, [], IfOk, OnOk, IsErrOf, List};
ghost use Rattle.aig_graph.specs.Circuits.{Netlist};
ghost use Rattle.frame_runs.specs.Bounds.{bound_in};
ghost use Rattle.frame_runs.specs.Given.{circuit_of};
ghost use Rattle.frame_runs.specs.Named.{AreLatchesBy, IsFirstMissingBy, IsFirstNoLatchBy, NoneMissingBy};
ghost use Rattle.frame_runs.specs.declared.errors.RetimeError.TheVariants.{NoSuchLatch, NoSuchName};
ghost use Rattle.frame_runs.specs.Stages.{Cleaning};
ghost use Rattle.merging_rounds.specs.Following.{AreRoundsBegun, AreRoundsOf, AreRoundsSeen};
ghost use Rattle.retimed_circuits.specs.RetimingLevels.{KeepsLevels};

use aig_graph::Circuit;
use frame_runs::{
    FrameWatcher, GivenCircuit, NoFollower, NoWatcher, Options, RetimeError, Run, RunError,
    RunFollower, Stage, begin, hold_by,
};
use merging_rounds::{Rounds, finish_rounds};
use pulse::{Crew, PhaseGate};
use retimed_circuits::Retimed;
use std::alloc::Global;
use std::thread::Threads;

/// Begins a run without a follower, if the latches can be held.
fn begin_plain(
    alloc: Global,
    given: GivenCircuit<'_>,
    options: &Options,
) -> Result<Run<Retimed, NoFollower>, RetimeError>
    ensures begun { IfOk result (AreRoundsBegun ⟦<NoFollower as RunFollower>⟧.has_come options.now
        (circuit_of given.entry)) }
    ensures latches { OnOk result (AreLatchesBy options.now (circuit_of given.entry)) }
    ensures none_missing { OnOk result (NoneMissingBy options.now (circuit_of given.entry)) }
    ensures no_latch { (place : ℕ) → IsErrOf result (NoSuchLatch place)
        → IsFirstNoLatchBy options.now (circuit_of given.entry) place }
    ensures missing { (place : ℕ) → IsErrOf result (NoSuchName place)
        → IsFirstMissingBy options.now (circuit_of given.entry) place }
{
    let lent = given.circuit();
    // Tells the prover that it is a circuit.
    lent.known();
    match hold_by(alloc, lent, options) {
        Ok(keep) => {
            let begun = begin(alloc, given, &keep, options, NoFollower)?;
            Ok(begun)
        }
        Err(error) => {
            drop(given);
            Err(error)
        }
    }
}

/// Takes the rounds of a run without a follower.
fn finish_plain<G: PhaseGate, V: FrameWatcher>(
    rt: &(impl Threads + Sync),
    alloc: Global,
    begun: Run<Retimed, NoFollower>,
    options: &Options,
    crew: &Crew<G>,
    watcher: &mut V,
) -> Result<Run<Rounds, NoFollower>, RunError>
    requires { (c : Netlist)
        × AreRoundsBegun ⟦<NoFollower as RunFollower>⟧.has_come options.now c begun }
    ensures { IfOk result (λ run. (c : Netlist)
        → AreRoundsBegun ⟦<NoFollower as RunFollower>⟧.has_come options.now c begun
        → AreRoundsSeen V.was_notified [] [] options.now c run.retimed run.keep watcher.old
        watcher.new) }
{
    let end = finish_rounds(rt, alloc, begun, options, crew, watcher)?;
    Ok(end)
}

/// Returns the report of rounds that ended, and drops the held latches.
pub(crate) fn rounds_of(run: Run<Rounds, NoFollower>) -> Rounds
    ensures { result ≡ run.retimed }
{
    let Run { retimed, keep, .. } = run;
    drop(keep);
    retimed
}

/// Cleans a circuit and retimes it forward in rounds. In each round latches are merged, if the
/// options ask for it, and frames are taken. In a frame latches move over the chosen least set, and
/// the circuit is cleaned again.
///
/// A round ends if no closed set needs fewer latches than there are, or at the limit of frames.
/// Under a bound on path length a frame may not take a set that makes a longer path. It then takes
/// the chosen least one among the closed sets whose gates arrive within the bound.
///
/// The latches whose names or positions the options have stay. The answer doesn't depend on the
/// crew, but for the routes of certificates.
///
/// # Errors
///
/// `NoSuchLatch` if a position of the options is no latch's, and `NoSuchName` if no latch has a
/// name; these are found first. `Misread` or `NotShown` for a line of given classes. `NoMemory` if
/// memory is refused.
pub fn retime<G: PhaseGate>(
    rt: &(impl Threads + Sync),
    alloc: Global,
    circuit: &Circuit,
    options: &Options,
    crew: &Crew<G>,
) -> Result<Rounds, RetimeError>
    ensures retimed { IfOk result (λ r. (now : List ℕ) × AreRoundsOf options.now circuit.now r now) }
    ensures levels { IfOk result (λ r. KeepsLevels (bound_in options.now circuit.now) circuit.now
        r.circuit) }
    ensures latches { OnOk result (AreLatchesBy options.now circuit.now) }
    ensures none_missing { OnOk result (NoneMissingBy options.now circuit.now) }
    ensures no_latch { (place : ℕ) → IsErrOf result (NoSuchLatch place)
        → IsFirstNoLatchBy options.now circuit.now place }
    ensures missing { (place : ℕ) → IsErrOf result (NoSuchName place)
        → IsFirstMissingBy options.now circuit.now place }
{
    let lent = GivenCircuit::Lent(circuit);
    match run_watched(rt, alloc, lent, options, crew, &mut NoWatcher) {
        Ok(run) => Ok(rounds_of(run)),
        Err(error) => Err(error),
    }
}

/// Retimes as [`retime`] does, and returns the held latches of the retimed circuit too. A circuit
/// that is owned is let go before the first frame.
///
/// The watcher doesn't change the answer. It is notified of each cleaning, of each look for a set,
/// and of each move over one. The last look of a round finds that no set helps, unless the limit
/// of frames ends the run. After it a cleaning may find no latch to merge.
///
/// # Errors
///
/// Those of [`retime`].
pub fn run_watched<G: PhaseGate, V: FrameWatcher>(
    rt: &(impl Threads + Sync),
    alloc: Global,
    given: GivenCircuit<'_>,
    options: &Options,
    crew: &Crew<G>,
    watcher: &mut V,
) -> Result<Run<Rounds, NoFollower>, RetimeError>
    ensures retimed { IfOk result (λ run. AreRoundsSeen V.was_notified (Cleaning ∷ []) []
        options.now (circuit_of given.entry) run.retimed run.keep watcher.old watcher.new) }
    ensures latches { OnOk result (AreLatchesBy options.now (circuit_of given.entry)) }
    ensures none_missing { OnOk result (NoneMissingBy options.now (circuit_of given.entry)) }
    ensures no_latch { (place : ℕ) → IsErrOf result (NoSuchLatch place)
        → IsFirstNoLatchBy options.now (circuit_of given.entry) place }
    ensures missing { (place : ℕ) → IsErrOf result (NoSuchName place)
        → IsFirstMissingBy options.now (circuit_of given.entry) place }
{
    watcher.enter(Stage::Cleaning);
    let begun = begin_plain(alloc, given, options)?;
    let run = finish_plain(rt, alloc, begun, options, crew, watcher)?;
    Ok(run)
}
