//! Judges if a flow shows the smallest least set, which has the gates that are reached from units
//! that are left. Suppose that no closed set has a smaller border than units arrive. Then all units
//! that are left stand on the near side of each least set. No residual arc leads from there to the
//! far side.
ghost use Rattle.std.specs.Prelude.{◌≡◌, ◌<◌, ℕ, IfOk, IfSome, IsTrue, false, length, not, replicate};
ghost use Rattle.std.specs.List.{slice_index_or};
ghost use Rattle.aig_graph.specs.Marking.{mark_at};
ghost use Rattle.aig_graph.specs.Graph.{first_latch, latches_and_gates};
ghost use Rattle.aig_graph.specs.Border.{IsSmallestLeast};
ghost use Rattle.unit_flows.specs.Units.{AreTallies, IsBalanced};
ghost use Rattle.unit_flows.specs.Shown.{IsFullCut};
ghost use Rattle.unit_flows.specs.Onward.{AreFarFromLeft};

use crate::frame::Frame;
use crate::gate_flow::GateFlow;
use crate::judging::off_marks;
use crate::onward_sweeps::mark_onward;
use crate::passes::{gates_hold, places_hold};
use crate::sweeps::NodeMarks;
use crate::tallies::tally;
use crate::unit_flow::SpareTables;
use aig_graph::{ClosedSet, NoMemory};
use std::alloc::Global;

/// Marks all that isn't marked, and nothing else.
fn flip(marks: &mut [bool])
    ensures len { length marks.new ≡ length marks.old }
    ensures each { (k : ℕ) → k < length marks.old → slice_index_or marks.new k false
        ≡ not (slice_index_or marks.old k false) }
{
    for k in 0..marks.len() {
        marks[k] = !marks[k];
    }
}

/// Marks the nodes that aren't reached from units that are left, by the tallies `went` and `came`
/// of the flow.
fn far_marks(
    alloc: Global,
    frame: &Frame,
    flows: &[GateFlow],
    went: &[u8],
    came: &[u32],
) -> Result<NodeMarks, NoMemory>
    requires flows { length flows.now ≡ length frame.now.circuit.now.aig.gates }
    requires went { length went.now ≡ latches_and_gates frame.now.circuit.now.aig }
    requires came { length came.now ≡ latches_and_gates frame.now.circuit.now.aig }
    ensures far { IfOk result (λ marks. AreFarFromLeft frame.now.circuit.now frame.now.keep.now
        flows.now went.now came.now marks.before.items) }
    ensures before { IfOk result (λ marks. length marks.before.items
        ≡ latches_and_gates frame.now.circuit.now.aig) }
    ensures after { IfOk result (λ marks. length marks.after.items
        ≡ latches_and_gates frame.now.circuit.now.aig) }
{
    let mut marks = mark_onward(alloc, frame, flows, went, came)?;
    flip(marks.before.as_mut_slice());
    flip(marks.after.as_mut_slice());
    Ok(marks)
}

/// Returns true if no node of the flow gives more than it gets, and the marks are a full cut for
/// it. `went` and `came` are the flow's tallies.
fn is_full_cut(
    frame: &Frame,
    flows: &[GateFlow],
    went: &[u8],
    came: &[u32],
    before: &[bool],
    after: &[bool],
) -> bool
    requires flows { length flows.now ≡ length frame.now.circuit.now.aig.gates }
    requires went { length went.now ≡ latches_and_gates frame.now.circuit.now.aig }
    requires came { length came.now ≡ latches_and_gates frame.now.circuit.now.aig }
    requires before { length before.now ≡ latches_and_gates frame.now.circuit.now.aig }
    requires after { length after.now ≡ latches_and_gates frame.now.circuit.now.aig }
    ensures balanced { IsTrue result → IsBalanced frame.now.circuit.now.aig flows.now went.now
        came.now }
    ensures cut { IsTrue result → IsFullCut frame.now.circuit.now frame.now.keep.now flows.now
        went.now (mark_at (first_latch frame.now.circuit.now.aig) before.now)
        (mark_at (first_latch frame.now.circuit.now.aig) after.now) }
{
    places_hold(frame, flows, went, before, after) && gates_hold(frame, flows, came, before, after)
}

/// Returns the smallest least set by the tallies of a flow, if the flow shows it.
fn shown_by_tallies(
    alloc: Global,
    frame: &Frame,
    flows: &[GateFlow],
    went: &[u8],
    came: &[u32],
) -> Result<Option<ClosedSet>, NoMemory>
    requires flows { length flows.now ≡ length frame.now.circuit.now.aig.gates }
    requires tallies { AreTallies frame.now.circuit.now.aig flows.now
        (length frame.now.circuit.now.aig.gates) went.now came.now }
    ensures { IfOk result (λ shown. IfSome shown (λ set. IsSmallestLeast
        frame.now.circuit.now frame.now.keep.now set)) }
{
    frame.circuit.aig().known();
    let far = far_marks(alloc, frame, flows, went, came)?;
    let (before, after) = (far.before.as_slice(), far.after.as_slice());
    if !is_full_cut(frame, flows, went, came, before, after) {
        return Ok(None);
    }
    let vars = off_marks(alloc, frame, before)?;
    Ok(ClosedSet::new(vars))
}

/// Returns the smallest least set if a flow shows it. `went` and `came` are tables of zeros, which
/// get the flow's tallies.
fn shown_by_zeros(
    alloc: Global,
    frame: &Frame,
    flows: &[GateFlow],
    went: &mut [u8],
    came: &mut [u32],
) -> Result<Option<ClosedSet>, NoMemory>
    requires flows { length flows.now ≡ length frame.now.circuit.now.aig.gates }
    requires went { went.old ≡ replicate (latches_and_gates frame.now.circuit.now.aig) 0 }
    requires came { came.old ≡ replicate (latches_and_gates frame.now.circuit.now.aig) 0 }
    ensures { IfOk result (λ shown. IfSome shown (λ set. IsSmallestLeast
        frame.now.circuit.now frame.now.keep.now set)) }
{
    if tally(went, came, frame.circuit.aig(), flows) {
        shown_by_tallies(alloc, frame, flows, went, came)
    } else {
        Ok(None)
    }
}

/// Returns the smallest least set, if a flow shows it. In such a flow no node gives more than it
/// gets. The nodes that aren't reached from units that are left are a full cut. Nothing of the flow
/// is trusted. It takes the time and memory of `shown_set`.
///
/// # Errors
///
/// `NoMemory` if a table is refused.
pub(crate) fn shown_smallest_set(
    alloc: Global,
    frame: &Frame,
    flows: &[GateFlow],
    spare: &mut SpareTables,
) -> Result<Option<ClosedSet>, NoMemory>
    ensures { IfOk result (λ shown. IfSome shown (λ set. IsSmallestLeast
        frame.now.circuit.now frame.now.keep.now set)) }
{
    let aig = frame.circuit.aig();
    if flows.len() != aig.gates().len() {
        return Ok(None);
    }
    spare.clear_tallies(aig.latches_and_gates())?;
    let (went, came) = (spare.went.as_mut_slice(), spare.numbers.as_mut_slice());
    shown_by_zeros(alloc, frame, flows, went, came)
}
