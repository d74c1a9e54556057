//! Sweeps over the passable gates, down and up, until none is newly marked. A mark shows below its
//! gate in a sweep down, and above it in a sweep up. A gate is open until the node before it is
//! marked, and each sweep looks at open gates only.
ghost use Rattle.std.specs.Prelude.{◌≡◌, ◌≤◌, ℕ, List, IfOk, length, vec_capacity, vec_len};
ghost use Rattle.aig_graph.specs.Graph.{latches_and_gates};
ghost use Rattle.unit_flows.specs.Marks.{ReachSink};

use crate::frame::Frame;
use crate::gate_flow::GateFlow;
use crate::marks::see;
use crate::unit_flow::{SpareTables, filled, taken};
use aig_graph::NoMemory;
use std::alloc::Global;

/// The most sweeps: the judge says no to marks that aren't a full cut.
pub(crate) const MOST_SWEEPS: u32 = 131_072;

/// Marks by variable, from the first latch on, of the nodes before and after each.
#[derive(Drop)]
pub struct NodeMarks {
    pub before: Vec<bool>,
    pub after: Vec<bool>,
}

/// Sees all passable gates, from the last to the first, and appends the numbers of those that stay
/// open to `still_open`, in that order. Returns false if nothing is marked: then nothing is left to
/// be seen. It isn't inlined, so that the loop has the registers for itself.
#[inline(never)]
fn first_sweep(
    before: &mut [bool],
    after: &mut [bool],
    still_open: &mut Vec<u32>,
    frame: &Frame,
    flows: &[GateFlow],
) -> bool
    requires none { vec_len still_open.old ≡ 0 }
    requires room { length frame.now.circuit.now.aig.gates ≤ vec_capacity still_open.old }
    requires flows { length flows.now ≡ length frame.now.circuit.now.aig.gates }
    requires before { length before.old ≡ latches_and_gates frame.now.circuit.now.aig }
    requires after { length after.old ≡ latches_and_gates frame.now.circuit.now.aig }
    ensures reach { (held : List ℕ)
        → ReachSink frame.now.circuit.now held flows.now before.old after.old
        → ReachSink frame.now.circuit.now held flows.now before.new after.new }
    ensures before { length before.new ≡ length before.old }
    ensures after { length after.new ≡ length after.old }
{
    let aig = frame.circuit.aig();
    let first = aig.first_latch();
    let first_gate = aig.first_gate();
    let gates = aig.gates();
    let passes = frame.passing_gates();
    let mut is_marked = false;
    for k in (0..gates.len()).rev() {
        if passes[k] {
            let var = first_gate + k as u32;
            if see(before, after, first, var, &gates[k], &flows[k]) {
                is_marked = true;
            } else {
                still_open.push_reserved(k as u32);
            }
        }
    }
    is_marked
}

/// Sees the gates with the numbers in `still_open`, one after another. Returns how many of them
/// stay open: these then come first. It isn't inlined, so that the loop has the registers for
/// itself.
#[inline(never)]
fn sweep(
    before: &mut [bool],
    after: &mut [bool],
    still_open: &mut [u32],
    frame: &Frame,
    flows: &[GateFlow],
) -> usize
    requires flows { length flows.now ≡ length frame.now.circuit.now.aig.gates }
    requires before { length before.old ≡ latches_and_gates frame.now.circuit.now.aig }
    requires after { length after.old ≡ latches_and_gates frame.now.circuit.now.aig }
    ensures reach { (held : List ℕ)
        → ReachSink frame.now.circuit.now held flows.now before.old after.old
        → ReachSink frame.now.circuit.now held flows.now before.new after.new }
    ensures before { length before.new ≡ length before.old }
    ensures after { length after.new ≡ length after.old }
{
    let aig = frame.circuit.aig();
    let first = aig.first_latch();
    let first_gate = aig.first_gate();
    let gates = aig.gates();
    let mut kept = 0;
    for i in 0..still_open.len() {
        let k = still_open[i] as usize;
        if k < gates.len() {
            let var = first_gate + k as u32;
            if !see(before, after, first, var, &gates[k], &flows[k]) {
                still_open[kept] = k as u32;
                kept += 1;
            }
        }
    }
    kept
}

/// Sweeps over the open gates, whose numbers fall at first, from the first to the last and back,
/// until none of them is newly marked.
fn settle(
    before: &mut [bool],
    after: &mut [bool],
    still_open: &mut Vec<u32>,
    frame: &Frame,
    flows: &[GateFlow],
)
    requires flows { length flows.now ≡ length frame.now.circuit.now.aig.gates }
    requires before { length before.old ≡ latches_and_gates frame.now.circuit.now.aig }
    requires after { length after.old ≡ latches_and_gates frame.now.circuit.now.aig }
    ensures reach { (held : List ℕ)
        → ReachSink frame.now.circuit.now held flows.now before.old after.old
        → ReachSink frame.now.circuit.now held flows.now before.new after.new }
    ensures before { length before.new ≡ length before.old }
    ensures after { length after.new ≡ length after.old }
{
    for _ in 0..MOST_SWEEPS {
        still_open.as_mut_slice().reverse();
        let kept = sweep(before, after, still_open.as_mut_slice(), frame, flows);
        if kept == still_open.len() {
            return;
        }
        still_open.truncate(kept);
    }
}

/// Sweeps over the passable gates, from the last to the first and back, until none is newly marked.
/// `still_open` is empty at first, has room for the numbers of all gates, and gets those of the
/// open ones.
fn sweep_all(
    before: &mut [bool],
    after: &mut [bool],
    still_open: &mut Vec<u32>,
    frame: &Frame,
    flows: &[GateFlow],
)
    requires none { vec_len still_open.old ≡ 0 }
    requires room { length frame.now.circuit.now.aig.gates ≤ vec_capacity still_open.old }
    requires flows { length flows.now ≡ length frame.now.circuit.now.aig.gates }
    requires before { length before.old ≡ latches_and_gates frame.now.circuit.now.aig }
    requires after { length after.old ≡ latches_and_gates frame.now.circuit.now.aig }
    ensures reach { (held : List ℕ)
        → ReachSink frame.now.circuit.now held flows.now before.old after.old
        → ReachSink frame.now.circuit.now held flows.now before.new after.new }
    ensures before { length before.new ≡ length before.old }
    ensures after { length after.new ≡ length after.old }
{
    if first_sweep(before, after, still_open, frame, flows) {
        settle(before, after, still_open, frame, flows);
    }
}

/// Returns a copy of the marks of what leaves, in the memory of other marks.
fn leaving_in(memory: Vec<bool>, frame: &Frame) -> Result<Vec<bool>, NoMemory>
    ensures { IfOk result (λ marks. marks.items ≡ frame.now.leaving.items) }
{
    let mut marks = memory;
    marks.clear();
    marks.extend_from_slice(frame.leaving.as_slice())?;
    Ok(marks)
}

/// Marks the nodes that reach the sink over residual arcs. All are marked, unless [`MOST_SWEEPS`]
/// sweeps don't find them. The spare tables are used. That of numbers gets room for latches too,
/// since the judge tallies there by latch and gate.
///
/// # Errors
///
/// `NoMemory` if a table is refused.
pub fn mark(
    alloc: Global,
    frame: &Frame,
    flows: &[GateFlow],
    spare: &mut SpareTables,
) -> Result<NodeMarks, NoMemory>
    requires { length flows.now ≡ length frame.now.circuit.now.aig.gates }
    ensures reach { IfOk result
        (λ marks. ReachSink frame.now.circuit.now frame.now.keep.now flows.now
        marks.before.items marks.after.items) }
    ensures before { IfOk result (λ marks. length marks.before.items
        ≡ latches_and_gates frame.now.circuit.now.aig) }
    ensures after { IfOk result (λ marks. length marks.after.items
        ≡ latches_and_gates frame.now.circuit.now.aig) }
{
    let aig = frame.circuit.aig();
    let places = aig.latches_and_gates();
    spare.clear_numbers(places)?;
    let mut before = filled(taken(&mut spare.before, alloc), false, places)?;
    let mut after = leaving_in(taken(&mut spare.after, alloc), frame)?;
    sweep_all(
        before.as_mut_slice(),
        after.as_mut_slice(),
        &mut spare.numbers,
        frame,
        flows,
    );
    Ok(NodeMarks { before, after })
}
