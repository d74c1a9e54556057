//! Rounds, one after another. Each takes the circuit of the one before, and gives it up.
ghost use Rattle.std.specs.Prelude.{ℕ, ◌≡◌, ◌-◌, ◌<◌, ◌≤◌, ◌∷◌, [], false, true, All, IfOk, List, Option, length};
ghost use Rattle.aig_graph.specs.Circuits.{Netlist};
ghost use Rattle.frame_runs.specs.Beginning.{IsRunBegun};
ghost use Rattle.frame_runs.specs.declared.options.Options.{Options};
ghost use Rattle.retimed_circuits.specs.declared.report.Retimed.{Retimed};
ghost use Rattle.merging_rounds.specs.Asking.{AreRoundOptions, Guesses};
ghost use Rattle.merging_rounds.specs.Following.{AreRoundsBegun, AreRoundsFollowed, EndInRounds, IsFirstRun};
ghost use Rattle.merging_rounds.specs.Joining.{IsJoined};
ghost use Rattle.merging_rounds.specs.Rounds.{MergesNone, MergesSome};
ghost use Rattle.merging_rounds.specs.Steps.{EndsInMoreRounds, IsBegunAgain, IsFinishedAgain, IsFurther, IsRoundAsked};

use crate::asking::round_options;
use crate::joining::{Report, of_first, report_of, with_run};
use crate::rounds::Rounds;
use aig_graph::NoMemory;
use frame_runs::{FrameWatcher, GivenCircuit, Options, Run, RunFollower, Stage, begin, finish};
use pulse::{Crew, PhaseGate};
use retimed_circuits::Retimed;
use std::alloc::Global;
use std::thread::Threads;

/// Returns true if latches were merged before the first frame.
fn merges_some(retimed: &Retimed) -> bool
    ensures some { result ≡ true → MergesSome retimed.now }
    ensures none { result ≡ false → MergesNone retimed.now }
{
    match &retimed.merged {
        Some(lines) => !lines.is_empty(),
        None => false,
    }
}

/// Makes a first round of a run.
fn first_round<F: RunFollower + Drop>(
    alloc: Global,
    run: Run<Retimed, F>,
    options: &Options,
) -> Result<Run<Rounds, F>, F::Stop>
    ensures { IfOk result (λ state. (c : Netlist)
        → IsFirstRun F.has_come options.now c run
        → AreRoundsFollowed F.has_come options.now c (run.retimed ∷ []) state) }
{
    let _options = options;
    let Run {
        retimed,
        keep,
        follower,
        bound,
    } = run;
    match of_first(alloc, retimed) {
        Ok(rounds) => Ok(Run {
            retimed: rounds,
            keep,
            follower,
            bound,
        }),
        Err(error) => {
            drop(keep);
            drop(follower);
            Err(F::Stop::from(error))
        }
    }
}

/// Returns the options of the round after `state`.
fn options_after<F>(
    alloc: Global,
    state: &Run<Rounds, F>,
    options: &Options,
) -> Result<Options, NoMemory>
    requires { length state.now.retimed.frames ≤ options.now.max_frames }
    ensures { IfOk result (λ asked. AreRoundOptions options.now state.now.bound state.now.keep
        (options.now.max_frames - length state.now.retimed.frames) asked) }
{
    let left = options.max_frames - state.retimed.frames.len() as u32;
    round_options(alloc, options, state.bound, &state.keep, left)
}

/// Adds a run to the rounds before it.
fn joined<F: RunFollower + Drop>(
    alloc: Global,
    report: Report,
    run: Run<Retimed, F>,
) -> Result<Run<Rounds, F>, F::Stop>
    requires { All (λ place. place < length report.kept_free) run.retimed.kept_free }
    ensures { IfOk result (λ state. IsJoined report run.retimed state.retimed
        × (state.keep ≡ run.keep) × (state.follower ≡ run.follower)
        × (state.bound ≡ run.bound)) }
{
    let Run {
        retimed,
        keep,
        follower,
        bound,
    } = run;
    match with_run(alloc, report, retimed) {
        Ok(rounds) => Ok(Run {
            retimed: rounds,
            keep,
            follower,
            bound,
        }),
        Err(error) => {
            drop(keep);
            drop(follower);
            Err(F::Stop::from(error))
        }
    }
}

/// Takes the frames of a run that was begun after other rounds and merged a latch, and adds the run
/// to their report.
fn finished<F: RunFollower + Drop, G: PhaseGate, V: FrameWatcher>(
    rt: &(impl Threads + Sync),
    alloc: Global,
    report: Report,
    begun: Run<Retimed, F>,
    asked: &Options,
    crew: &Crew<G>,
    watcher: &mut V,
) -> Result<Run<Rounds, F>, F::Stop>
    requires begun { (b : Netlist) × (c : Netlist)
        × IsRunBegun F.has_come asked.now b report.kept_free c begun }
    requires merges { MergesSome begun.retimed }
    ensures { IfOk result (λ next. (b c : Netlist)
        → IsRunBegun F.has_come asked.now b report.kept_free c begun
        → IsFinishedAgain F.has_come V.was_notified asked.now b report c next watcher.old
        watcher.new) }
{
    match finish(rt, alloc, begun, asked, crew, watcher) {
        Ok(run) => joined(alloc, report, run),
        Err(error) => {
            drop(report);
            Err(error)
        }
    }
}

/// A further round that was begun.
#[derive(Drop)]
enum BegunAgain<F> {
    /// It merged a latch. Of the rounds before it the report is left.
    Merges(Report, Run<Retimed, F>),
    /// It found no latch to merge, so it is given up: the rounds before it.
    Nothing(Run<Rounds, F>),
}

/// Returns the follower of a run that was begun, and gives the run up.
fn follower_of<F>(begun: Run<Retimed, F>) -> F
    ensures { result ≡ begun.follower }
{
    let Run {
        retimed,
        keep,
        follower,
        ..
    } = begun;
    drop(retimed);
    drop(keep);
    follower
}

/// Begins a further round by options of its own.
fn begun_again<F: RunFollower + Drop>(
    alloc: Global,
    state: Run<Rounds, F>,
    asked: &Options,
) -> Result<BegunAgain<F>, F::Stop>
    requires { (options : Options) × (c : Netlist) × (runs : List Retimed)
        × IsRoundAsked F.has_come options c runs state asked.now }
    ensures { IfOk result (λ again. (options : Options) (c : Netlist) (runs : List Retimed)
        → IsRoundAsked F.has_come options c runs state asked.now
        → IsBegunAgain F.has_come options c runs state asked.now again) }
{
    let Run {
        retimed: rounds,
        keep,
        follower,
        bound,
    } = state;
    let lent = GivenCircuit::Lent(&rounds.circuit);
    match begin(alloc, lent, &keep, asked, follower) {
        Ok(begun) => {
            if merges_some(&begun.retimed) {
                drop(keep);
                Ok(BegunAgain::Merges(report_of(rounds), begun))
            } else {
                let follower = follower_of(begun);
                Ok(BegunAgain::Nothing(Run {
                    retimed: rounds,
                    keep,
                    follower,
                    bound,
                }))
            }
        }
        Err(error) => {
            drop(keep);
            drop(rounds);
            Err(error)
        }
    }
}

/// What became of a further round.
#[derive(Drop)]
enum Further<F> {
    /// It merged a latch: the rounds with it.
    Round(Run<Rounds, F>),
    /// It found no latch to merge: the rounds before it.
    Ended(Run<Rounds, F>),
}

/// Takes a further round by options of its own, if it finds a latch to merge.
fn taken_by<F: RunFollower + Drop, G: PhaseGate, V: FrameWatcher>(
    rt: &(impl Threads + Sync),
    alloc: Global,
    state: Run<Rounds, F>,
    asked: &Options,
    crew: &Crew<G>,
    watcher: &mut V,
) -> Result<Further<F>, F::Stop>
    requires { (options : Options) × (c : Netlist) × (runs : List Retimed)
        × IsRoundAsked F.has_come options c runs state asked.now }
    ensures { IfOk result (λ further. (options : Options) (c : Netlist) (runs : List Retimed)
        → IsRoundAsked F.has_come options c runs state asked.now
        → IsFurther F.has_come V.was_notified options c runs further watcher.old watcher.new) }
{
    watcher.enter(Stage::Cleaning);
    match begun_again(alloc, state, asked) {
        Ok(BegunAgain::Merges(report, begun)) => {
            match finished(rt, alloc, report, begun, asked, crew, watcher) {
                Ok(next) => Ok(Further::Round(next)),
                Err(error) => Err(error),
            }
        }
        Ok(BegunAgain::Nothing(state)) => Ok(Further::Ended(state)),
        Err(error) => Err(error),
    }
}

/// Takes a further round, if it finds a latch to merge.
fn taken<F: RunFollower + Drop, G: PhaseGate, V: FrameWatcher>(
    rt: &(impl Threads + Sync),
    alloc: Global,
    state: Run<Rounds, F>,
    options: &Options,
    crew: &Crew<G>,
    watcher: &mut V,
) -> Result<Further<F>, F::Stop>
    requires guesses { Guesses options.now }
    requires rounds { (c : Netlist) × (runs : List Retimed)
        × AreRoundsFollowed F.has_come options.now c runs state }
    ensures { IfOk result (λ further. (c : Netlist) (runs : List Retimed)
        → AreRoundsFollowed F.has_come options.now c runs state
        → IsFurther F.has_come V.was_notified options.now c runs further watcher.old
        watcher.new) }
{
    match options_after(alloc, &state, options) {
        Ok(asked) => taken_by(rt, alloc, state, &asked, crew, watcher),
        Err(error) => {
            drop(state);
            Err(F::Stop::from(error))
        }
    }
}

/// Takes further rounds as long as the one before took a frame and a latch can be merged.
fn further_rounds<F: RunFollower + Drop, G: PhaseGate, V: FrameWatcher>(
    rt: &(impl Threads + Sync),
    alloc: Global,
    first: Run<Rounds, F>,
    options: &Options,
    crew: &Crew<G>,
    watcher: &mut V,
) -> Result<Run<Rounds, F>, F::Stop>
    requires guesses { Guesses options.now }
    requires rounds { (c : Netlist) × (runs : List Retimed)
        × AreRoundsFollowed F.has_come options.now c runs first }
    ensures { IfOk result (λ end. (c : Netlist) (runs : List Retimed)
        → AreRoundsFollowed F.has_come options.now c runs first
        → EndsInMoreRounds F.has_come V.was_notified options.now c runs end watcher.old
        watcher.new) }
{
    let mut state = first;
    let mut before = 0;
    for _ in 0..options.max_frames {
        let frames = state.retimed.frames.len();
        if frames == before {
            return Ok(state);
        }
        before = frames;
        match taken(rt, alloc, state, options, crew, watcher)? {
            Further::Round(next) => state = next,
            Further::Ended(last) => return Ok(last),
        }
    }
    Ok(state)
}

/// Takes the rounds after the first, if the options ask for a guess which latches agree.
fn rounds_after<F: RunFollower + Drop, G: PhaseGate, V: FrameWatcher>(
    rt: &(impl Threads + Sync),
    alloc: Global,
    first: Run<Rounds, F>,
    options: &Options,
    crew: &Crew<G>,
    watcher: &mut V,
) -> Result<Run<Rounds, F>, F::Stop>
    requires { (c : Netlist) × (runs : List Retimed)
        × AreRoundsFollowed F.has_come options.now c runs first }
    ensures { IfOk result (λ end. (c : Netlist) (runs : List Retimed)
        → AreRoundsFollowed F.has_come options.now c runs first
        → EndsInMoreRounds F.has_come V.was_notified options.now c runs end watcher.old
        watcher.new) }
{
    if options.merge && options.classes.is_none() {
        further_rounds(rt, alloc, first, options, crew, watcher)
    } else {
        Ok(first)
    }
}

/// Takes the frames of a run that was begun, and then further rounds. Latches are merged where the
/// frames end, if the options ask for merging, and frames are taken from there. That goes on as
/// long as a round takes a frame and a guess finds a latch to merge. There is one round if the
/// options have the latches that are merged.
///
/// All rounds together take at most the frames of the options. A further round holds the latches
/// that the first one held, and has the same bound. The answer holds for every circuit that the run
/// may have begun with.
///
/// The watcher is notified of each look for a set and each move, and of the cleaning before a
/// further round. That one may find nothing to merge.
///
/// # Errors
///
/// An error of the follower; `NoMemory` if memory is refused.
pub fn finish_rounds<F: RunFollower + Drop, G: PhaseGate, V: FrameWatcher>(
    rt: &(impl Threads + Sync),
    alloc: Global,
    begun: Run<Retimed, F>,
    options: &Options,
    crew: &Crew<G>,
    watcher: &mut V,
) -> Result<Run<Rounds, F>, F::Stop>
    requires { (c : Netlist) × AreRoundsBegun F.has_come options.now c begun }
    ensures { IfOk result (λ end. (c : Netlist)
        → AreRoundsBegun F.has_come options.now c begun
        → EndInRounds F.has_come V.was_notified options.now c end watcher.old watcher.new) }
{
    let run = finish(rt, alloc, begun, options, crew, watcher)?;
    let first = first_round(alloc, run, options)?;
    rounds_after(rt, alloc, first, options, crew, watcher)
}
