//! A follower goes with a run of frames from circuit to circuit, as a map of states does.
//!
//! It makes the cleanings itself, since it may need from each pass what a plain cleaning doesn't
//! keep. It sees each move by the marks with which the move is made, so nothing is done twice.
//!
//! Each follower chooses the relation that says what it has followed so far. The answer of the run
//! doesn't depend on it.
ghost use Rattle.std.specs.Prelude.{ℕ, ◌≡◌, ◌<◌, ◌≤◌, ⊤, All, IfOk, List, OnOk, length};
ghost use Rattle.aig_graph.specs.Circuits.{Netlist};
ghost use Rattle.aig_graph.specs.Closed.{IsClosedSet};
ghost use Rattle.aig_graph.specs.Move.{move_of};
ghost use Rattle.aig_graph.specs.Streams.{SameStreams};
ghost use Rattle.aig_graph.specs.declared.literal.TheConstants.{MAX_VARIABLES};
ghost use Rattle.cleaned_circuits.specs.Cleaned.{Cleans};
ghost use Rattle.cleaned_circuits.specs.Held.{HeldAfter};
ghost use Rattle.rebuild.specs.Marked.{AreMarksOf};
ghost use Rattle.rebuild.specs.Moved.{moved_of, moved_size};
ghost use Rattle.retimed_circuits.specs.Merging.{MergesIn};
ghost use Rattle.retimed_circuits.specs.Names.{StayHeld};
ghost use Rattle.latch_merging.specs.Starts.{IsStart};
ghost use Rattle.frame_runs.specs.Following.{ComesOn, ComesWhole, HasComeTo};
ghost use Rattle.frame_runs.specs.Given.{circuit_of};
ghost use Rattle.frame_runs.specs.Merging.{AreGivenLines};

use crate::errors::RunError;
use crate::given::GivenCircuit;
use crate::options::Options;
use aig_graph::{Circuit, ClosedSet, Keep, NoMemory};
use certificates::MergedLatch;
use clean::{Cleaned, clean, clean_over};
use latch_merging::{GivenStart, MergedStart, merged_start, start_by};
use rebuild::MoveMarks;
use std::alloc::Global;

/// Follows a run from circuit to circuit.
pub trait RunFollower {
    /// The error if it can't follow any further.
    type Stop: From<NoMemory>;

    /// It has come from the first circuit to the second. The list has, for each free latch of the
    /// second, its place among the free latches of the first.
    ghost has_come: { Self → Netlist → Netlist → List ℕ → Type 0 };

    /// Cleans the circuit that the run has come to, as `clean::clean` does. One that is owned is
    /// cleaned in its own tables, or dropped.
    fn clean(
        &mut self,
        alloc: Global,
        given: GivenCircuit<'_>,
        keep: &Keep,
    ) -> Result<Cleaned, Self::Stop>
        requires there { HasComeTo has_come self.old (circuit_of given) }
        requires in_range { All (λ j. j < length (circuit_of given).aig.latches) keep.now }
        ensures cleaned { IfOk result (λ d. Cleans d.circuit keep.now (circuit_of given.entry)
            d.kept_free) }
        ensures held { IfOk result (λ d. HeldAfter d.circuit d.keep keep.now
            (circuit_of given.entry)) }
        ensures comes { IfOk result (λ d. ComesOn has_come self.old self.new
            (circuit_of given.entry) d.circuit d.kept_free) };

    /// Cleans the circuit that was read and merges its latches that always agree. They are the
    /// classes of the options, as `latch_merging::start_by` merges them. Without classes they are
    /// those that `latch_merging::merged_start` finds.
    fn clean_and_merge(
        &mut self,
        alloc: Global,
        circuit: &Circuit,
        keep: &Keep,
        options: &Options,
    ) -> Result<MergedStart, Self::Stop>
        requires there { HasComeTo has_come self.old circuit.now }
        requires in_range { All (λ j. j < length circuit.now.aig.latches) keep.now }
        ensures merges { IfOk result (λ m. MergesIn keep.now circuit.now m.circuit m.kept_free
            m.keep m.merged) }
        ensures in_range { IfOk result (λ m. All (λ j. j < length m.circuit.aig.latches) m.keep) }
        ensures streams { IfOk result (λ m. SameStreams circuit.now m.circuit m.kept_free) }
        ensures stay { IfOk result (λ m. StayHeld keep.now circuit.now m.keep m.circuit) }
        ensures given { IfOk result (λ m. AreGivenLines options.now m.merged) }
        ensures comes { IfOk result (λ m. ComesOn has_come self.old self.new circuit.now m.circuit
            m.kept_free) };

    /// Sees latches move over `set`, a closed set of the circuit that the run has come to. The
    /// moved circuit isn't made yet: `marks` describe the move.
    fn see_move(
        &mut self,
        circuit: &Circuit,
        set: &ClosedSet,
        keep: &Keep,
        marks: &MoveMarks,
    ) -> Result<(), Self::Stop>
        requires there { HasComeTo has_come self.old circuit.now }
        requires closed { IsClosedSet circuit.now.aig keep.now set.now }
        requires marked { AreMarksOf (move_of circuit.now keep.now set.now) marks.now }
        requires room { moved_size (move_of circuit.now keep.now set.now) ≤ MAX_VARIABLES }
        ensures { OnOk result (ComesWhole has_come self.old self.new circuit.now
            (moved_of (move_of circuit.now keep.now set.now))) };
}

/// Cleans a circuit, in its own tables if it is owned.
fn cleaned_given(alloc: Global, given: GivenCircuit<'_>, keep: &Keep) -> Result<Cleaned, NoMemory>
    requires { All (λ j. j < length (circuit_of given).aig.latches) keep.now }
    ensures cleaned { IfOk result (λ d. Cleans d.circuit keep.now (circuit_of given.entry)
        d.kept_free) }
    ensures held { IfOk result (λ d. HeldAfter d.circuit d.keep keep.now
        (circuit_of given.entry)) }
{
    match given {
        GivenCircuit::Lent(circuit) => clean(alloc, circuit, keep),
        GivenCircuit::Owned(circuit) => clean_over(alloc, circuit, keep),
    }
}

/// Cleans the circuit, and merges its latches that always agree.
fn started(alloc: Global, circuit: &Circuit, keep: &Keep) -> Result<MergedStart, RunError>
    requires in_range { All (λ j. j < length circuit.now.aig.latches) keep.now }
    ensures { IfOk result (IsStart keep.now circuit.now) }
{
    match merged_start(alloc, circuit, keep) {
        Ok(start) => Ok(start),
        Err(NoMemory) => Err(RunError::NoMemory),
    }
}

/// Cleans the circuit, and merges it by lines.
fn started_by(
    alloc: Global,
    circuit: &Circuit,
    keep: &Keep,
    lines: &[MergedLatch],
) -> Result<MergedStart, RunError>
    requires in_range { All (λ j. j < length circuit.now.aig.latches) keep.now }
    ensures start { IfOk result (IsStart keep.now circuit.now) }
    ensures given { IfOk result (λ m. m.merged ≡ lines.now) }
{
    match start_by(alloc, circuit, keep, lines) {
        Ok(GivenStart::Merged(start)) => Ok(start),
        Ok(GivenStart::Misread(latch)) => Err(RunError::Misread(latch)),
        Ok(GivenStart::NotShown(latch)) => Err(RunError::NotShown(latch)),
        Err(NoMemory) => Err(RunError::NoMemory),
    }
}

/// A follower that keeps nothing: a run with it is a plain one.
#[derive(Clone, Copy)]
pub struct NoFollower;

impl RunFollower for NoFollower {
    type Stop = RunError;

    ghost has_come = { λ _ _ _ _. ⊤ };

    fn clean(
        &mut self,
        alloc: Global,
        given: GivenCircuit<'_>,
        keep: &Keep,
    ) -> Result<Cleaned, RunError> {
        let cleaned = cleaned_given(alloc, given, keep)?;
        Ok(cleaned)
    }

    fn clean_and_merge(
        &mut self,
        alloc: Global,
        circuit: &Circuit,
        keep: &Keep,
        options: &Options,
    ) -> Result<MergedStart, RunError> {
        match &options.classes {
            Some(lines) => started_by(alloc, circuit, keep, lines.as_slice()),
            None => started(alloc, circuit, keep),
        }
    }

    fn see_move(
        &mut self,
        _circuit: &Circuit,
        _set: &ClosedSet,
        _keep: &Keep,
        _marks: &MoveMarks,
    ) -> Result<(), RunError> {
        Ok(())
    }
}
