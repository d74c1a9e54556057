//! One frame: the latches of a cleaned circuit move over the set that is found, and the circuit is
//! cleaned again.
ghost use Rattle.std.specs.Prelude.{◌≡◌, ◌<◌, [], ◌∷◌, All, IfOk, OnOk, MatchOption, length};
ghost use Rattle.frame_runs.specs.Certified.{AddsFound};
ghost use Rattle.frame_runs.specs.Following.{HasComeTo, IsMovedFollowed, MovesFollowed};
ghost use Rattle.frame_runs.specs.Found.{IsAfterMove, IsPrepared, IsSavingSet};
ghost use Rattle.frame_runs.specs.Retiming.{NoneHelpsBy};
ghost use Rattle.frame_runs.specs.Stages.{Moving, Notifies};
ghost use Rattle.clean.specs.Normalised.{IsNormalised};

use crate::follower::RunFollower;
use crate::helping::{PreparedMove, helping_set};
use crate::options::Options;
use crate::run::Run;
use crate::settling::settled;
use crate::watcher::{FrameWatcher, Stage};
use aig_graph::{Circuit, ClosedSet, Keep, NoMemory};
use chosen_cuts::Records;
use clean::Cleaned;
use pulse::{Crew, PhaseGate};
use rebuild::{MoveTables, moved_in};
use retimed_circuits::{FrameReport, Retimed};
use std::alloc::Global;
use std::mem;
use std::thread::Threads;
use unit_flows::{GateFlow, after_cleaning, after_move};

/// A frame that was taken.
#[derive(Drop)]
pub(crate) struct Frame {
    /// The circuit after the move, cleaned, with its held latches.
    pub cleaned: Cleaned,
    /// The report of the frame.
    pub report: FrameReport,
    /// The set that the latches moved over, of the circuit before the frame.
    pub set: ClosedSet,
}

/// Returns the circuit after the move over `set`, made here if it wasn't made to count its levels.
fn finished_move(
    alloc: Global,
    circuit: &Circuit,
    keep: &Keep,
    set: &ClosedSet,
    prepared: PreparedMove,
    tables: &mut MoveTables,
) -> Result<Circuit, NoMemory>
    requires saves { IsSavingSet circuit.now keep.now set.now }
    requires prepared { IsPrepared circuit.now keep.now set.now prepared }
    ensures { IfOk result (IsAfterMove circuit.now keep.now set.now) }
{
    circuit.known();
    let PreparedMove { marks, after } = prepared;
    match after {
        Some(after) => {
            drop(marks);
            Ok(after)
        }
        None => moved_in(alloc, circuit, set, keep, marks, tables),
    }
}

/// Moves the latches of `circuit` over `set`, and cleans the circuit after the move. `follower`
/// sees both. The move uses spare tables.
fn moved_over<F: RunFollower>(
    alloc: Global,
    follower: &mut F,
    circuit: &Circuit,
    keep: &Keep,
    set: &ClosedSet,
    prepared: PreparedMove,
    tables: &mut MoveTables,
) -> Result<Cleaned, F::Stop>
    requires there { HasComeTo F.has_come follower.old circuit.now }
    requires in_range { All (λ j. j < length circuit.now.aig.latches) keep.now }
    requires normalised { IsNormalised keep.now circuit.now }
    requires saves { IsSavingSet circuit.now keep.now set.now }
    requires prepared { IsPrepared circuit.now keep.now set.now prepared }
    ensures { IfOk result (IsMovedFollowed F.has_come keep.now circuit.now set.now follower.old
        follower.new) }
{
    circuit.known();
    let copies = set.vars().len();
    follower.see_move(circuit, set, keep, &prepared.marks)?;
    let held = prepared.marks.held_after(alloc, circuit, set, keep)?;
    let after = finished_move(alloc, circuit, keep, set, prepared, tables)?;
    settled(alloc, follower, after, held, copies)
}

/// Carries the flow at each gate to the circuit after the move over `set` and its cleaning.
///
/// `kept` marks the latches and gates that the cleaning keeps; it is empty if it keeps all.
fn carried(
    alloc: Global,
    circuit: &Circuit,
    set: &ClosedSet,
    kept: &[bool],
    flows: Vec<GateFlow>,
) -> Result<Vec<GateFlow>, NoMemory> {
    let moved = after_move(alloc, circuit.aig(), set, flows)?;
    if kept.is_empty() {
        return Ok(moved);
    }
    Ok(after_cleaning(kept, moved))
}

/// Takes the next frame of `run`, or returns `None` if no set leaves fewer latches.
///
/// Of the run only the follower changes. The watcher is notified of the move. The records get a
/// certificate of the circuit if certificates are wanted.
pub(crate) fn next_frame<F: RunFollower, G: PhaseGate, V: FrameWatcher>(
    rt: &(impl Threads + Sync),
    alloc: Global,
    run: &mut Run<Retimed, F>,
    options: &Options,
    crew: &Crew<G>,
    records: &mut Records,
    watcher: &mut V,
) -> Result<Option<Frame>, F::Stop>
    requires there { HasComeTo F.has_come run.old.follower run.old.retimed.circuit }
    requires in_range { All (λ j. j < length run.old.retimed.circuit.aig.latches) run.old.keep }
    requires normalised { IsNormalised run.old.keep run.old.retimed.circuit }
    ensures same { OnOk result (run.new.retimed ≡ run.old.retimed) }
    ensures keep { OnOk result (run.new.keep ≡ run.old.keep) }
    ensures bound { OnOk result (run.new.bound ≡ run.old.bound) }
    ensures found { IfOk result (λ found. MatchOption found
        (NoneHelpsBy options.now run.old.bound run.old.keep run.old.retimed.circuit
        × (run.new.follower ≡ run.old.follower))
        (MovesFollowed F.has_come options.now run.old.bound run.old.keep run.old.retimed.circuit
        run.old.follower run.new.follower)) }
    ensures certificate { OnOk result (AddsFound options.now run.old.bound run.old.keep
        run.old.retimed.circuit records.old records.new) }
    ensures notified { IfOk result (λ found. MatchOption found
        (Notifies V.was_notified watcher.old watcher.new [])
        (λ _. Notifies V.was_notified watcher.old watcher.new (Moving ∷ []))) }
{
    run.retimed.circuit.known();
    match helping_set(rt, alloc, &*run, options, crew, records)? {
        Some(found) => {
            watcher.enter(Stage::Moving);
            let circuit = &run.retimed.circuit;
            let keep = &run.keep;
            let prepared = found.prepared;
            let set = &found.set;
            let follower = &mut run.follower;
            let mut tables = records.take_tables(alloc);
            let cleaned = moved_over(alloc, follower, circuit, keep, set, prepared, &mut tables)?;
            records.keep_tables(tables);
            let flows = mem::replace(&mut records.flows, Vec::new(alloc));
            records.flows = carried(alloc, circuit, set, cleaned.kept.as_slice(), flows)?;
            Ok(Some(Frame {
                cleaned,
                report: found.report,
                set: found.set,
            }))
        }
        None => Ok(None),
    }
}
