//! The closed set of a circuit that leaves fewer latches, if there is one.
ghost use Rattle.std.specs.Prelude.{IfOk};
ghost use Rattle.aig_graph.specs.Closed.{IsClosedSet};
ghost use Rattle.frame_runs.specs.Found.{Finds, IsFoundOver, IsLook};

use crate::bounding::{Judged, chosen_over, judge};
use crate::options::Options;
use crate::run::Run;
use aig_graph::{Choice, Circuit, ClosedSet, Keep, NoMemory};
use chosen_cuts::{Records, chosen_least_along};
use path_levels::bounded;
use pulse::{Crew, PhaseGate};
use rebuild::MoveMarks;
use retimed_circuits::{FrameReport, Retimed};
use std::alloc::Global;
use std::thread::Threads;

/// A move that is about to be made.
#[derive(Drop)]
pub(crate) struct PreparedMove {
    /// The marks of the move.
    pub marks: MoveMarks,
    /// The circuit after the move, if that was made to count its levels.
    pub after: Option<Circuit>,
}

/// A closed set that leaves the circuit fewer latches.
#[derive(Drop)]
pub(crate) struct Helping {
    /// The set.
    pub set: ClosedSet,
    /// The move over the set.
    pub prepared: PreparedMove,
    /// The report of the frame over the set.
    pub report: FrameReport,
}

/// Prepares the move over `set`, or returns `None` if that leaves as many latches with a known
/// reset or more.
fn helping_over(
    alloc: Global,
    circuit: &Circuit,
    keep: &Keep,
    set: ClosedSet,
) -> Result<Option<Helping>, NoMemory>
    requires { IsClosedSet circuit.now.aig keep.now set }
    ensures { IfOk result (IsFoundOver circuit.now keep.now set) }
{
    circuit.known();
    let marks = MoveMarks::new(alloc, circuit, &set, keep)?;
    let report = FrameReport {
        before: circuit.aig().known_latches(),
        after: marks.border_size(),
        moved: set.vars().len() as u32,
    };
    if report.after < report.before {
        Ok(Some(Helping {
            set,
            prepared: PreparedMove { marks, after: None },
            report,
        }))
    } else {
        Ok(None)
    }
}

/// Finds the chosen least set of `circuit`, if it leaves fewer latches.
///
/// A certificate of the set is recorded even if it doesn't, if certificates are wanted.
fn least_helping<G: PhaseGate>(
    rt: &(impl Threads + Sync),
    alloc: Global,
    circuit: &Circuit,
    keep: &Keep,
    choice: Choice,
    crew: &Crew<G>,
    records: &mut Records,
) -> Result<Option<Helping>, NoMemory>
    ensures { IfOk result (IsLook choice circuit.now circuit.now keep.now records.old records.new) }
{
    let set = chosen_least_along(rt, alloc, circuit, keep, choice, crew, records)?;
    helping_over(alloc, circuit, keep, set)
}

/// Finds the set of the next frame, if one leaves fewer latches with a known reset.
///
/// It is the chosen least set. If that breaks the run's bound, it is the chosen least one of the
/// closed sets whose gates arrive within the bound. A certificate of the last set is recorded in
/// any case, if certificates are wanted.
pub(crate) fn helping_set<F, G: PhaseGate>(
    rt: &(impl Threads + Sync),
    alloc: Global,
    run: &Run<Retimed, F>,
    options: &Options,
    crew: &Crew<G>,
    records: &mut Records,
) -> Result<Option<Helping>, NoMemory>
    ensures { IfOk result (Finds options.now run.now.bound run.now.keep run.now.retimed.circuit
        records.old records.new) }
{
    let circuit = &run.retimed.circuit;
    let keep = &run.keep;
    // Tells the prover that it is a circuit.
    circuit.known();
    let first = least_helping(rt, alloc, circuit, keep, options.choice, crew, records)?;
    match judge(alloc, circuit, keep, first, run.bound)? {
        Judged::Decided(found) => Ok(found),
        Judged::TooLong(most) => {
            records.forget_last();
            let narrowed = bounded(alloc, circuit, keep, most)?;
            let set = chosen_over(rt, alloc, narrowed, keep, options.choice, crew, records)?;
            helping_over(alloc, circuit, keep, set)
        }
    }
}
