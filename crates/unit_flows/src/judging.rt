//! Judges a flow: if it shows the greatest least set, that set is found.
ghost use Rattle.std.specs.Prelude.{◌≡◌, IfOk, IfSome, IsTrue, length, replicate};
ghost use Rattle.aig_graph.specs.Counting.{places};
ghost use Rattle.aig_graph.specs.Marking.{mark_at};
ghost use Rattle.aig_graph.specs.Graph.{first_latch, variables_end, latches_and_gates};
ghost use Rattle.aig_graph.specs.Border.{IsGreatestLeast};
ghost use Rattle.unit_flows.specs.Marks.{ReachSink};
ghost use Rattle.unit_flows.specs.Shown.{is_off, HasFullCut};

use crate::frame::Frame;
use crate::gate_flow::GateFlow;
use crate::passes::{gates_hold, places_hold};
use crate::sweeps::{NodeMarks, mark};
use crate::tallies::tally;
use crate::unit_flow::SpareTables;
use aig_graph::{ClosedSet, NoMemory};
use std::alloc::Global;

/// Returns true if no node of a flow gives more than it gets, and the marks are a full cut for it.
/// `went` and `came` are tables of zeros, which get the flow's tallies.
fn has_full_cut(
    frame: &Frame,
    flows: &[GateFlow],
    marks: &NodeMarks,
    went: &mut [u8],
    came: &mut [u32],
) -> bool
    requires flows { length flows.now ≡ length frame.now.circuit.now.aig.gates }
    requires before { length marks.now.before.items
        ≡ latches_and_gates frame.now.circuit.now.aig }
    requires after { length marks.now.after.items
        ≡ latches_and_gates frame.now.circuit.now.aig }
    requires went { went.old ≡ replicate (latches_and_gates frame.now.circuit.now.aig) 0 }
    requires came { came.old ≡ replicate (latches_and_gates frame.now.circuit.now.aig) 0 }
    ensures { IsTrue result → HasFullCut frame.now.circuit.now
        frame.now.keep.now flows.now
        (mark_at (first_latch frame.now.circuit.now.aig) marks.now.before.items)
        (mark_at (first_latch frame.now.circuit.now.aig) marks.now.after.items) }
{
    let (before, after) = (marks.before.as_slice(), marks.after.as_slice());
    tally(went, came, frame.circuit.aig(), flows)
        && places_hold(frame, flows, went, before, after)
        && gates_hold(frame, flows, came, before, after)
}

/// Calls [`has_full_cut`] with tables of zeros that are among the spare ones.
fn is_shown(
    frame: &Frame,
    flows: &[GateFlow],
    marks: &NodeMarks,
    spare: &mut SpareTables,
) -> Result<bool, NoMemory>
    requires flows { length flows.now ≡ length frame.now.circuit.now.aig.gates }
    requires before { length marks.now.before.items
        ≡ latches_and_gates frame.now.circuit.now.aig }
    requires after { length marks.now.after.items
        ≡ latches_and_gates frame.now.circuit.now.aig }
    ensures { IfOk result (λ shown. IsTrue shown → HasFullCut frame.now.circuit.now
        frame.now.keep.now flows.now
        (mark_at (first_latch frame.now.circuit.now.aig) marks.now.before.items)
        (mark_at (first_latch frame.now.circuit.now.aig) marks.now.after.items)) }
{
    let entries = frame.circuit.aig().latches_and_gates();
    spare.clear_tallies(entries)?;
    let (went, came) = (spare.went.as_mut_slice(), spare.numbers.as_mut_slice());
    Ok(has_full_cut(frame, flows, marks, went, came))
}

/// Returns the passable gates that aren't marked before, rising.
pub(crate) fn off_marks(alloc: Global, frame: &Frame, before: &[bool]) -> Result<Vec<u32>, NoMemory>
    requires { length before.now ≡ latches_and_gates frame.now.circuit.now.aig }
    ensures { IfOk result (λ vars. vars.items
        ≡ places (is_off frame.now.circuit.now frame.now.keep.now
        (mark_at (first_latch frame.now.circuit.now.aig) before.now))
        (variables_end frame.now.circuit.now.aig)) }
{
    let aig = frame.circuit.aig();
    let latches = aig.latches().len();
    let first_gate = aig.first_gate();
    let passes = frame.passing_gates();
    let mut vars = Vec::with_capacity(alloc, passes.len())?;
    for k in 0..passes.len() {
        let is_off = passes[k] & !before[latches + k];
        if is_off {
            vars.push_reserved(first_gate + k as u32);
        }
    }
    Ok(vars)
}

/// Returns the greatest least set, if a flow shows it by its marks. A flow does so if no node gives
/// more than it gets, and the marks are a full cut. Nothing of the flow is trusted. The spare
/// tables are used.
///
/// # Errors
///
/// `NoMemory` if a table is refused.
pub fn shown_by_marks(
    alloc: Global,
    frame: &Frame,
    flows: &[GateFlow],
    marks: &NodeMarks,
    spare: &mut SpareTables,
) -> Result<Option<ClosedSet>, NoMemory>
    requires flows { length flows.now ≡ length frame.now.circuit.now.aig.gates }
    requires reach { ReachSink frame.now.circuit.now frame.now.keep.now flows.now
        marks.now.before.items marks.now.after.items }
    requires before { length marks.now.before.items
        ≡ latches_and_gates frame.now.circuit.now.aig }
    requires after { length marks.now.after.items
        ≡ latches_and_gates frame.now.circuit.now.aig }
    ensures { IfOk result (λ shown. IfSome shown (λ set. IsGreatestLeast
        frame.now.circuit.now frame.now.keep.now set)) }
{
    // The graph's readers ensure that its gates come in order.
    frame.circuit.aig().known();
    let is_shown = is_shown(frame, flows, marks, spare)?;
    if !is_shown {
        return Ok(None);
    }
    let vars = off_marks(alloc, frame, marks.before.as_slice())?;
    Ok(ClosedSet::new(vars))
}

/// Returns the greatest least set, if a flow shows it. It makes a few passes over the gates, and
/// sweeps until nothing is newly marked, with 9 bytes a latch and gate.
///
/// # Errors
///
/// `NoMemory` if a table is refused.
pub(crate) fn shown_set(
    alloc: Global,
    frame: &Frame,
    flows: &[GateFlow],
    spare: &mut SpareTables,
) -> Result<Option<ClosedSet>, NoMemory>
    ensures { IfOk result (λ shown. IfSome shown (λ set. IsGreatestLeast
        frame.now.circuit.now frame.now.keep.now set)) }
{
    if flows.len() != frame.circuit.aig().gates().len() {
        return Ok(None);
    }
    let marks = mark(alloc, frame, flows, &mut *spare)?;
    let shown = shown_by_marks(alloc, frame, flows, &marks, &mut *spare);
    spare.keep_marks(marks);
    shown
}
