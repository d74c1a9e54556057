//! The loop over frames: each starts from the circuit that the frame before left.
ghost use Rattle.std.specs.Prelude.{ℕ, ◌≡◌, suc, List, [], ◌∷◌, ◌++◌, length, IfOk, Option};
ghost use Rattle.aig_graph.specs.Circuits.{Netlist};
ghost use Rattle.aig_graph.specs.Graph.{known_latches};
ghost use Rattle.aig_graph.specs.Laws.{composed};
ghost use Rattle.frame_runs.specs.Beginning.{IsRunBegun};
ghost use Rattle.frame_runs.specs.Following.{EndsFollowed, IsFollowed, IsReady, IsRetimedFollowed};
ghost use Rattle.frame_runs.specs.Merging.{ReadCircuit};
ghost use Rattle.frame_runs.specs.Found.{Moves};
ghost use Rattle.frame_runs.specs.Stages.{Looking, Notifies, looks_of};
ghost use Rattle.frame_runs.specs.Underway.{IsUnderway};

use crate::follower::RunFollower;
use crate::frame::{Frame, next_frame};
use crate::history::{history_of, with_frame};
use crate::options::Options;
use crate::run::Run;
use crate::watcher::{FrameWatcher, Stage};
use aig_graph::{Keep, NoMemory, Sequence};
use chosen_cuts::Records;
use pulse::{Crew, PhaseGate};
use retimed_circuits::Retimed;
use std::alloc::Global;
use std::thread::Threads;

/// Adds `frame` to the report of `retimed`, and returns it with the latches held in the frame's
/// circuit. The circuit before and the frame's set are dropped.
fn after_frame(
    alloc: Global,
    retimed: Retimed,
    frame: Frame,
    options: &Options,
) -> Result<(Retimed, Keep), NoMemory>
    requires { (bound : Option ℕ) × (c : Netlist) × (read : Option ReadCircuit) × (held : List ℕ)
        × (n : ℕ) × (now : List ℕ) × IsUnderway options.now bound c read held n retimed now
        × Moves options.now bound now retimed.circuit frame }
    ensures underway { IfOk result (λ after. (bound : Option ℕ) (c : Netlist)
        (read : Option ReadCircuit) (held : List ℕ) (n : ℕ) (now : List ℕ)
        → IsUnderway options.now bound c read held n retimed now
        → Moves options.now bound now retimed.circuit frame
        → IsUnderway options.now bound c read held (suc n) after.0 after.1) }
    ensures frames { IfOk result (λ after. after.0.frames
        ≡ retimed.frames ++ frame.report ∷ []) }
{
    let Frame {
        cleaned,
        report,
        set,
    } = frame;
    drop(set);
    let places = cleaned.kept_free.as_slice();
    match with_frame(alloc, history_of(retimed), places, report) {
        Ok(after) => {
            let retimed = Retimed {
                circuit: cleaned.circuit,
                kept_free: after.kept_free,
                read_latches: after.read_latches,
                merged: after.merged,
                frames: after.frames,
                certificates: Sequence::empty(alloc),
            };
            Ok((retimed, cleaned.keep))
        }
        Err(error) => {
            drop(cleaned);
            Err(error)
        }
    }
}

/// Takes `frame`, which was followed, into the run.
fn taken<F: RunFollower + Drop>(
    alloc: Global,
    run: Run<Retimed, F>,
    frame: Frame,
    options: &Options,
) -> Result<Run<Retimed, F>, F::Stop>
    requires underway { (d : Netlist) × (read : Option ReadCircuit) × (held : List ℕ) × (n : ℕ)
        × IsUnderway options.now run.bound d read held n run.retimed run.keep }
    requires moves { Moves options.now run.bound run.keep run.retimed.circuit frame }
    ensures followed { IfOk result (λ after. (c d : Netlist) (read : Option ReadCircuit)
        (held before : List ℕ) (n : ℕ)
        → IsUnderway options.now run.bound d read held n run.retimed run.keep
        → F.has_come run.follower c frame.cleaned.circuit
        (composed (composed before run.retimed.kept_free) frame.cleaned.kept_free)
        → IsFollowed F.has_come options.now c d read held before (suc n) after) }
    ensures frames { IfOk result (λ after. after.retimed.frames
        ≡ run.retimed.frames ++ frame.report ∷ []) }
    ensures bound { IfOk result (λ after. after.bound ≡ run.bound) }
{
    let Run {
        retimed,
        keep,
        follower,
        bound,
    } = run;
    drop(keep);
    match after_frame(alloc, retimed, frame, options) {
        Ok((retimed, keep)) => Ok(Run {
            retimed,
            keep,
            follower,
            bound,
        }),
        Err(error) => {
            drop(follower);
            Err(F::Stop::from(error))
        }
    }
}

/// Notifies the watcher that the set of the next frame is looked for.
fn enter_looking<V: FrameWatcher>(retimed: &Retimed, watcher: &mut V)
    ensures { Notifies V.was_notified watcher.old watcher.new
        (Looking (length retimed.now.frames) (known_latches retimed.now.circuit.aig) ∷ []) }
{
    watcher.enter(Stage::Looking {
        taken: retimed.frames.len(),
        aig: retimed.circuit.aig(),
    });
}

/// Takes frames from a cleaned circuit until none helps or the limit is reached.
///
/// The records get a certificate of each circuit that is looked at, if certificates are wanted. The
/// circuit that was read isn't needed.
fn all_frames<F: RunFollower + Drop, G: PhaseGate, V: FrameWatcher>(
    rt: &(impl Threads + Sync),
    alloc: Global,
    start: Run<Retimed, F>,
    options: &Options,
    crew: &Crew<G>,
    records: &mut Records,
    watcher: &mut V,
) -> Result<Run<Retimed, F>, F::Stop>
    requires begun { (c : Netlist)
        × IsReady F.has_come options.now c start }
    requires wanted { records.old.certify ≡ options.now.certify }
    requires none_yet { records.old.certificates.items ≡ [] }
    ensures run { IfOk result (λ end. (c d : Netlist) (read : Option ReadCircuit)
        (held before : List ℕ)
        → IsFollowed F.has_come options.now c d read held before 0 start
        → EndsFollowed F.has_come options.now c d read held before records.new end) }
    ensures bound { IfOk result (λ end. end.bound ≡ start.bound) }
    ensures notified { IfOk result (λ end. Notifies V.was_notified watcher.old watcher.new
        (looks_of options.now.max_frames end.retimed)) }
{
    let mut run = start;
    for _ in 0..options.max_frames {
        enter_looking(&run.retimed, watcher);
        match next_frame(rt, alloc, &mut run, options, crew, records, watcher) {
            Ok(Some(frame)) => run = taken(alloc, run, frame, options)?,
            Ok(None) => return Ok(run),
            Err(error) => {
                drop(run);
                return Err(error);
            }
        }
    }
    Ok(run)
}

/// Puts the recorded certificates into the run. Takes no memory.
fn certified<F>(run: Run<Retimed, F>, records: Records) -> Run<Retimed, F>
    ensures circuit { result.retimed.circuit ≡ run.retimed.circuit }
    ensures kept_free { result.retimed.kept_free ≡ run.retimed.kept_free }
    ensures read_latches { result.retimed.read_latches ≡ run.retimed.read_latches }
    ensures merged { result.retimed.merged ≡ run.retimed.merged }
    ensures frames { result.retimed.frames ≡ run.retimed.frames }
    ensures keep { result.keep ≡ run.keep }
    ensures certificates { result.retimed.certificates ≡ records.certificates.items }
    ensures follower { result.follower ≡ run.follower }
    ensures bound { result.bound ≡ run.bound }
{
    let Run {
        retimed,
        keep,
        follower,
        bound,
    } = run;
    let Retimed {
        circuit,
        kept_free,
        read_latches,
        merged,
        frames,
        ..
    } = retimed;
    let Records { certificates, .. } = records;
    Run {
        retimed: Retimed {
            circuit,
            kept_free,
            read_latches,
            merged,
            frames,
            certificates: Sequence::from_vec(certificates),
        },
        keep,
        follower,
        bound,
    }
}

/// Takes the frames of a run that was begun, with certificates if they are wanted. The answer holds
/// for every circuit that the run may have begun with.
///
/// The watcher is notified of each look for a set and of each move over one.
///
/// # Errors
///
/// An error of the follower; `NoMemory` if memory is refused.
pub fn finish<F: RunFollower + Drop, G: PhaseGate, V: FrameWatcher>(
    rt: &(impl Threads + Sync),
    alloc: Global,
    start: Run<Retimed, F>,
    options: &Options,
    crew: &Crew<G>,
    watcher: &mut V,
) -> Result<Run<Retimed, F>, F::Stop>
    requires { (b : Netlist) × (before : List ℕ) × (c : Netlist)
        × IsRunBegun F.has_come options.now b before c start }
    ensures retimed { IfOk result (λ end. (b : Netlist) (before : List ℕ) (c : Netlist)
        → IsRunBegun F.has_come options.now b before c start
        → IsRetimedFollowed F.has_come options.now b before c end.retimed
        end.keep end.follower) }
    ensures merged { IfOk result (λ end. end.retimed.merged ≡ start.retimed.merged) }
    ensures bound { IfOk result (λ end. end.bound ≡ start.bound) }
    ensures notified { IfOk result (λ end. Notifies V.was_notified watcher.old watcher.new
        (looks_of options.now.max_frames end.retimed)) }
{
    let mut records = Records::new(alloc, options.certify);
    match all_frames(rt, alloc, start, options, crew, &mut records, watcher) {
        Ok(run) => {
            watcher.count_networks(records.networks);
            Ok(certified(run, records))
        }
        Err(error) => {
            drop(records);
            Err(error)
        }
    }
}
