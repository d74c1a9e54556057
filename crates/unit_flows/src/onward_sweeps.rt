//! Marks the nodes at which units are left, and then sweeps over the passable gates, up and down,
//! until nothing is newly marked.
ghost use Rattle.std.specs.Prelude.{◌≡◌, ◌≤◌, ◌+◌, ◌<◌, ℕ, Bool, List, IfOk, IsTrue, true, length, slice_index, vec_capacity, vec_len};
ghost use Rattle.aig_graph.specs.Graph.{first_latch, first_gate, latches_and_gates};
ghost use Rattle.aig_graph.specs.declared.literal.TheConstants.{MAX_VARIABLES};
ghost use Rattle.unit_flows.specs.Units.{nth_flow};
ghost use Rattle.unit_flows.specs.Marks.{AreWithin};
ghost use Rattle.unit_flows.specs.Onward.{waits, IsFuller, AreReachedFromLeft};

use crate::balance::{comes_after, is_fuller};
use crate::frame::Frame;
use crate::gate_flow::GateFlow;
use crate::onward::{go_on, mark_if};
use crate::sweeps::{MOST_SWEEPS, NodeMarks};
use aig_graph::NoMemory;
use std::alloc::Global;

/// Returns true if a unit is left after the variable at `place`, and can't leave there.
fn waits(frame: &Frame, flows: &[GateFlow], went: &[u8], place: usize) -> bool
    requires flows { length flows.now ≡ length frame.now.circuit.now.aig.gates }
    requires went { length went.now ≡ latches_and_gates frame.now.circuit.now.aig }
    requires place { place < latches_and_gates frame.now.circuit.now.aig }
    ensures { result ≡ waits frame.now.circuit.now frame.now.keep.now flows.now went.now place }
{
    let comes = comes_after(frame.circuit.aig(), flows, place);
    let is_left = went[place] == 0;
    !frame.leaving[place] & comes & is_left
}

/// Marks the node after the variable at `place`, if a unit is left there.
fn mark_after(after: &mut [bool], frame: &Frame, flows: &[GateFlow], went: &[u8], place: usize)
    requires flows { length flows.now ≡ length frame.now.circuit.now.aig.gates }
    requires went { length went.now ≡ latches_and_gates frame.now.circuit.now.aig }
    requires place { place < latches_and_gates frame.now.circuit.now.aig }
    ensures within { (b a : ℕ → Bool) (xs : List Bool)
        → (waits frame.now.circuit.now frame.now.keep.now flows.now went.now place ≡ true
        → a (first_latch frame.now.circuit.now.aig + place) ≡ true)
        → AreWithin (first_latch frame.now.circuit.now.aig) xs after.old b a
        → AreWithin (first_latch frame.now.circuit.now.aig) xs after.new b a }
    ensures after { length after.new ≡ length after.old }
{
    let first = frame.circuit.aig().first_latch();
    let is_left = waits(frame, flows, went, place);
    mark_if(after, first, first + place as u32, is_left);
}

/// Marks the node before the k-th gate, if units are left there.
fn mark_before(before: &mut [bool], frame: &Frame, flows: &[GateFlow], came: &[u32], k: usize)
    requires flows { length flows.now ≡ length frame.now.circuit.now.aig.gates }
    requires came { length came.now ≡ latches_and_gates frame.now.circuit.now.aig }
    requires gate { k < length frame.now.circuit.now.aig.gates }
    ensures within { (b a : ℕ → Bool) (ys : List Bool)
        → (IsFuller (nth_flow flows.now k) (slice_index came.now
        (length frame.now.circuit.now.aig.latches + k))
        → b (first_gate frame.now.circuit.now.aig + k) ≡ true)
        → AreWithin (first_latch frame.now.circuit.now.aig) before.old ys b a
        → AreWithin (first_latch frame.now.circuit.now.aig) before.new ys b a }
    ensures before { length before.new ≡ length before.old }
{
    let aig = frame.circuit.aig();
    let is_left = is_fuller(&flows[k], came[aig.latches().len() + k]);
    mark_if(
        before,
        aig.first_latch(),
        aig.first_gate() + k as u32,
        is_left,
    );
}

/// Marks the nodes at which units are left.
fn mark_left(
    before: &mut [bool],
    after: &mut [bool],
    frame: &Frame,
    flows: &[GateFlow],
    went: &[u8],
    came: &[u32],
)
    requires flows { length flows.now ≡ length frame.now.circuit.now.aig.gates }
    requires went { length went.now ≡ latches_and_gates frame.now.circuit.now.aig }
    requires came { length came.now ≡ latches_and_gates frame.now.circuit.now.aig }
    ensures reach { AreReachedFromLeft frame.now.circuit.now frame.now.keep.now flows.now went.now
        came.now before.old after.old
        → AreReachedFromLeft frame.now.circuit.now frame.now.keep.now flows.now went.now
        came.now before.new after.new }
    ensures before { length before.new ≡ length before.old }
    ensures after { length after.new ≡ length after.old }
{
    let aig = frame.circuit.aig();
    for place in 0..aig.latches_and_gates() {
        mark_after(after, frame, flows, went, place);
    }
    for k in 0..aig.gates().len() {
        mark_before(before, frame, flows, came, k);
    }
}

/// Goes on from the gates with the numbers in `still_open`, one after another. Returns how many of
/// them stay open: these then come first.
fn sweep(
    before: &mut [bool],
    after: &mut [bool],
    still_open: &mut [u32],
    frame: &Frame,
    flows: &[GateFlow],
) -> usize
    requires { length flows.now ≡ length frame.now.circuit.now.aig.gates }
    ensures reach { (held went came : List ℕ)
        → AreReachedFromLeft frame.now.circuit.now held flows.now went came before.old after.old
        → AreReachedFromLeft frame.now.circuit.now held flows.now went came before.new after.new }
    ensures before { length before.new ≡ length before.old }
    ensures after { length after.new ≡ length after.old }
{
    let aig = frame.circuit.aig();
    let first = aig.first_latch();
    let first_gate = aig.first_gate();
    let gates = aig.gates();
    let mut kept = 0;
    for i in 0..still_open.len() {
        let k = still_open[i] as usize;
        if k < gates.len() {
            let var = first_gate + k as u32;
            if !go_on(before, after, first, var, &gates[k], &flows[k]) {
                still_open[kept] = k as u32;
                kept += 1;
            }
        }
    }
    kept
}

/// Sweeps over the open gates, from the first to the last and back, until none of them is newly
/// reached.
fn settle(
    before: &mut [bool],
    after: &mut [bool],
    still_open: &mut Vec<u32>,
    frame: &Frame,
    flows: &[GateFlow],
)
    requires { length flows.now ≡ length frame.now.circuit.now.aig.gates }
    ensures reach { (held went came : List ℕ)
        → AreReachedFromLeft frame.now.circuit.now held flows.now went came before.old after.old
        → AreReachedFromLeft frame.now.circuit.now held flows.now went came before.new after.new }
    ensures before { length before.new ≡ length before.old }
    ensures after { length after.new ≡ length after.old }
{
    for _ in 0..MOST_SWEEPS {
        let kept = sweep(before, after, still_open.as_mut_slice(), frame, flows);
        if kept == still_open.len() {
            return;
        }
        still_open.truncate(kept);
        still_open.as_mut_slice().reverse();
    }
}

/// Appends the numbers of the marks that are set, rising.
fn push_numbers(still_open: &mut Vec<u32>, passes: &[bool])
    requires none { vec_len still_open.old ≡ 0 }
    requires room { length passes.now ≤ vec_capacity still_open.old }
    requires small { length passes.now ≤ MAX_VARIABLES }
{
    for k in 0..passes.len() {
        if passes[k] {
            still_open.push_reserved(k as u32);
        }
    }
}

/// Returns the numbers of the passable gates, rising.
fn open_gates(alloc: Global, frame: &Frame) -> Result<Vec<u32>, NoMemory> {
    let passes = frame.passing_gates();
    let mut still_open = Vec::with_capacity(alloc, passes.len())?;
    push_numbers(&mut still_open, passes);
    Ok(still_open)
}

/// Marks all that is reached from units that are left, by the tallies of a flow.
///
/// # Errors
///
/// `NoMemory` if a table is refused.
pub(crate) fn mark_onward(
    alloc: Global,
    frame: &Frame,
    flows: &[GateFlow],
    went: &[u8],
    came: &[u32],
) -> Result<NodeMarks, NoMemory>
    requires flows { length flows.now ≡ length frame.now.circuit.now.aig.gates }
    requires went { length went.now ≡ latches_and_gates frame.now.circuit.now.aig }
    requires came { length came.now ≡ latches_and_gates frame.now.circuit.now.aig }
    ensures reach { IfOk result (λ marks. AreReachedFromLeft frame.now.circuit.now
        frame.now.keep.now flows.now went.now came.now marks.before.items marks.after.items) }
    ensures before { IfOk result (λ marks. length marks.before.items
        ≡ latches_and_gates frame.now.circuit.now.aig) }
    ensures after { IfOk result (λ marks. length marks.after.items
        ≡ latches_and_gates frame.now.circuit.now.aig) }
{
    let entries = frame.circuit.aig().latches_and_gates();
    let mut before = vec![in alloc; false; entries]?;
    let mut after = vec![in alloc; false; entries]?;
    let mut still_open = open_gates(alloc, frame)?;
    mark_from_left(
        before.as_mut_slice(),
        after.as_mut_slice(),
        &mut still_open,
        frame,
        flows,
        went,
        came,
    );
    Ok(NodeMarks { before, after })
}

/// Marks the nodes at which units are left, and all that is reached from there.
fn mark_from_left(
    before: &mut [bool],
    after: &mut [bool],
    still_open: &mut Vec<u32>,
    frame: &Frame,
    flows: &[GateFlow],
    went: &[u8],
    came: &[u32],
)
    requires flows { length flows.now ≡ length frame.now.circuit.now.aig.gates }
    requires went { length went.now ≡ latches_and_gates frame.now.circuit.now.aig }
    requires came { length came.now ≡ latches_and_gates frame.now.circuit.now.aig }
    ensures reach { AreReachedFromLeft frame.now.circuit.now frame.now.keep.now flows.now went.now
        came.now before.old after.old
        → AreReachedFromLeft frame.now.circuit.now frame.now.keep.now flows.now went.now
        came.now before.new after.new }
    ensures before { length before.new ≡ length before.old }
    ensures after { length after.new ≡ length after.old }
{
    mark_left(before, after, frame, flows, went, came);
    settle(before, after, still_open, frame, flows);
}
