//! A frame under a bound on path length.
//!
//! If the chosen least set makes a path too long, closed sets are restricted to those whose gates
//! arrive within the bound. The frame then takes the chosen least of these. They are the closed
//! sets of a bounded circuit, so the search and its certificates serve unchanged.
ghost use Rattle.std.specs.Prelude.{ℕ, List, Some, IfOk, IfSome};
ghost use Rattle.aig_graph.specs.Chosen.{IsChosen};
ghost use Rattle.aig_graph.specs.Circuits.{Netlist};
ghost use Rattle.chosen_cuts.specs.Certified.{AddsOne};
ghost use Rattle.frame_runs.specs.Found.{IsAfterMove, IsFoundOver, IsSetJudged, IsOver, IsSavingSet};

use crate::helping::{Helping, PreparedMove};
use aig_graph::{Choice, Circuit, ClosedSet, Keep, NoMemory};
use chosen_cuts::{Records, chosen_least_along};
use path_levels::levels;
use pulse::{Crew, PhaseGate};
use rebuild::moved;
use std::alloc::Global;
use std::thread::Threads;

/// The judgement of a set under a bound.
#[derive(Drop)]
pub(crate) enum Judged {
    /// The set stays: none helps, or the one that helps keeps the bound.
    Decided(Option<Helping>),
    /// The set makes a path longer than this bound.
    TooLong(u32),
}

/// Puts `after`, the circuit after the move, into the move that was prepared, so that it isn't made
/// again.
fn with_after(found: Helping, after: Circuit) -> Helping
    ensures { (c : Netlist) (held s : List ℕ) → IsOver c held s found
        → IsAfterMove c held found.set after → IsOver c held s result }
{
    let Helping {
        set,
        prepared,
        report,
    } = found;
    let PreparedMove { marks, .. } = prepared;
    Helping {
        set,
        prepared: PreparedMove {
            marks,
            after: Some(after),
        },
        report,
    }
}

/// Judges `found` by the levels of `after`, the circuit after its move: at most `most` are allowed.
fn judged_after(
    alloc: Global,
    found: Helping,
    after: Circuit,
    most: u32,
) -> Result<Judged, NoMemory>
    ensures { IfOk result (λ judged. (c : Netlist) (held s : List ℕ) → IsOver c held s found
        → IsAfterMove c held found.set after → IsSetJudged (Some most) c held s (Some found) judged) }
{
    match levels(alloc, &after) {
        Ok(high) if high <= most => Ok(Judged::Decided(Some(with_after(found, after)))),
        Ok(_) => {
            drop(after);
            drop(found);
            Ok(Judged::TooLong(most))
        }
        Err(error) => {
            drop(after);
            drop(found);
            Err(error)
        }
    }
}

/// Returns the circuit after its latches moved over `set`.
fn moved_circuit(
    alloc: Global,
    circuit: &Circuit,
    keep: &Keep,
    set: &ClosedSet,
) -> Result<Circuit, NoMemory>
    requires { IsSavingSet circuit.now keep.now set.now }
    ensures { IfOk result (IsAfterMove circuit.now keep.now set.now) }
{
    circuit.known();
    moved(alloc, circuit, set, keep)
}

/// Judges `found` by making its move: paths may have at most `most` gates.
fn fitted(
    alloc: Global,
    circuit: &Circuit,
    keep: &Keep,
    found: Helping,
    most: u32,
) -> Result<Judged, NoMemory>
    requires { IsSavingSet circuit.now keep.now found.set }
    ensures { IfOk result (λ judged. (s : List ℕ) → IsOver circuit.now keep.now s found
        → IsSetJudged (Some most) circuit.now keep.now s (Some found) judged) }
{
    match moved_circuit(alloc, circuit, keep, &found.set) {
        Ok(after) => judged_after(alloc, found, after, most),
        Err(error) => {
            drop(found);
            Err(error)
        }
    }
}

/// Judges `first`, found without regard to the bound. If there is no bound it stays as it is, at no
/// cost.
pub(crate) fn judge(
    alloc: Global,
    circuit: &Circuit,
    keep: &Keep,
    first: Option<Helping>,
    bound: Option<u32>,
) -> Result<Judged, NoMemory>
    requires { IfSome first (λ found. IsSavingSet circuit.now keep.now found.set) }
    ensures { IfOk result (λ judged. (s : List ℕ) → IsFoundOver circuit.now keep.now s first
        → IsSetJudged bound circuit.now keep.now s first judged) }
{
    let Some(most) = bound else {
        return Ok(Judged::Decided(first));
    };
    match first {
        Some(found) => fitted(alloc, circuit, keep, found, most),
        None => Ok(Judged::Decided(None)),
    }
}

/// Finds the chosen least set of `circuit` and drops the circuit.
pub(crate) fn chosen_over<G: PhaseGate>(
    rt: &(impl Threads + Sync),
    alloc: Global,
    circuit: Circuit,
    keep: &Keep,
    choice: Choice,
    crew: &Crew<G>,
    records: &mut Records,
) -> Result<ClosedSet, NoMemory>
    ensures set { IfOk result (IsChosen choice circuit keep.now) }
    ensures certificate { IfOk result (AddsOne circuit keep.now records.old records.new) }
{
    let set = chosen_least_along(rt, alloc, &circuit, keep, choice, crew, records);
    drop(circuit);
    set
}
