//! Marks of the nodes from which more units could come to the sink, by variable from the first
//! latch on. Each is set by a residual arc to a marked node, so all that is marked reaches the
//! sink. It isn't claimed here that nothing else does: the judge sees for itself that the marks are
//! a full cut.
ghost use Rattle.std.specs.Prelude.{◌≡◌, ◌&&◌, ◌==◌, ◌+◌, ◌<◌, ◌≤◌, ℕ, Bool, IsTrue, true, length};
ghost use Rattle.aig_graph.specs.Marking.{mark_at, Marks};
ghost use Rattle.aig_graph.specs.Graph.{IsGateAt, variable};
ghost use Rattle.unit_flows.specs.Marks.{HoldsTails, AreWithin};

use crate::gate_flow::GateFlow;
use aig_graph::Gate;

/// Returns the mark of a variable that the table covers.
pub(crate) fn covered_mark(marks: &[bool], first: u32, var: u32) -> bool
    requires from { first ≤ var }
    requires below { var < first + length marks.now }
    ensures { result ≡ mark_at first marks.now var }
{
    marks[(var - first) as usize]
}

/// Marks a variable that the table covers, if `wished`.
fn mark_covered(marks: &mut [bool], first: u32, var: u32, wished: bool)
    requires from { first ≤ var }
    requires below { var < first + length marks.old }
    ensures { Marks first marks.old marks.new (λ v. wished && (var == v)) }
{
    if wished {
        marks[(var - first) as usize] = true;
    }
}

/// Returns true if the node before a gate is marked, or a residual arc leads from it to a marked
/// node.
fn is_reached(
    before: &[bool],
    after: &[bool],
    first: u32,
    var: u32,
    gate: &Gate,
    flow: &GateFlow,
) -> bool
    requires gate { IsGateAt var gate.now }
    requires from { first ≤ variable gate.now.rhs1 }
    requires before { var < first + length before.now }
    requires after { var < first + length after.now }
    ensures { IsTrue result → (b a : ℕ → Bool) → HoldsTails b a var gate.now flow.now
        → AreWithin first before.now after.now b a → b var ≡ true }
{
    let (smaller, larger) = (gate.rhs1.var(), gate.rhs0.var());
    covered_mark(before, first, var)
        || (!flow.through && covered_mark(after, first, var))
        || covered_mark(before, first, smaller)
        || covered_mark(before, first, larger)
        || (flow.first_up && covered_mark(after, first, smaller))
        || (flow.second_up && covered_mark(after, first, larger))
}

/// Marks the node before a gate, which is reached, and the nodes from which residual arcs lead
/// there.
fn mark_gate(
    before: &mut [bool],
    after: &mut [bool],
    first: u32,
    var: u32,
    gate: &Gate,
    flow: &GateFlow,
)
    requires gate { IsGateAt var gate.now }
    requires from { first ≤ variable gate.now.rhs1 }
    requires before { var < first + length before.old }
    requires after { var < first + length after.old }
    requires reached { (b a : ℕ → Bool) → HoldsTails b a var gate.now flow.now
        → AreWithin first before.old after.old b a → b var ≡ true }
    ensures within { (b a : ℕ → Bool) → HoldsTails b a var gate.now flow.now
        → AreWithin first before.old after.old b a → AreWithin first before.new after.new b a }
    ensures before { length before.new ≡ length before.old }
    ensures after { length after.new ≡ length after.old }
{
    let (smaller, larger) = (gate.rhs1.var(), gate.rhs0.var());
    mark_covered(before, first, var, true);
    mark_covered(after, first, var, flow.through);
    mark_covered(after, first, smaller, true);
    mark_covered(after, first, larger, true);
    mark_covered(before, first, smaller, flow.first_down > 0);
    mark_covered(before, first, larger, flow.second_down > 0);
}

/// Marks the nodes at a gate that reach marked nodes by an arc, unless the gate reads an input.
/// Returns true if the node before the gate is marked then.
pub(crate) fn see(
    before: &mut [bool],
    after: &mut [bool],
    first: u32,
    var: u32,
    gate: &Gate,
    flow: &GateFlow,
) -> bool
    requires gate { IsGateAt var gate.now }
    requires before { var < first + length before.old }
    requires after { var < first + length after.old }
    ensures within { (b a : ℕ → Bool) → HoldsTails b a var gate.now flow.now
        → AreWithin first before.old after.old b a → AreWithin first before.new after.new b a }
    ensures before { length before.new ≡ length before.old }
    ensures after { length after.new ≡ length after.old }
{
    let covers = first <= gate.rhs1.var();
    if covers && is_reached(before, after, first, var, gate, flow) {
        mark_gate(before, after, first, var, gate, flow);
        true
    } else {
        false
    }
}
