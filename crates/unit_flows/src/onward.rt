//! Marks of the nodes to which units that are left could go, by variable from the first latch on.
//! Each is set by a residual arc from a marked node. So all that is marked is reached from a node
//! at which a unit is left.
ghost use Rattle.std.specs.Prelude.{◌≡◌, ◌&&◌, ◌==◌, ℕ, Bool, IsTrue, true, length};
ghost use Rattle.aig_graph.specs.Marking.{Marks};
ghost use Rattle.unit_flows.specs.Marks.{AreWithin};
ghost use Rattle.unit_flows.specs.Onward.{HoldsHeads};

use crate::gate_flow::GateFlow;
use aig_graph::{Gate, mark_at, mark_variable};

/// Marks a variable, if `wished`.
pub(crate) fn mark_if(marks: &mut [bool], first: u32, var: u32, wished: bool)
    ensures { Marks first marks.old marks.new (λ v. wished && (var == v)) }
{
    if wished {
        mark_variable(marks, first, var);
    }
}

/// Returns true if the node before a gate is marked, or a residual arc leads there from a marked
/// node.
fn is_entered(
    before: &[bool],
    after: &[bool],
    first: u32,
    var: u32,
    gate: &Gate,
    flow: &GateFlow,
) -> bool
    ensures { IsTrue result → (b a : ℕ → Bool) → HoldsHeads b a var gate.now flow.now
        → AreWithin first before.now after.now b a → b var ≡ true }
{
    let (smaller, larger) = (gate.rhs1.var(), gate.rhs0.var());
    mark_at(before, first, var)
        || mark_at(after, first, smaller)
        || mark_at(after, first, larger)
        || (flow.through && mark_at(after, first, var))
        || (flow.first_down > 0 && mark_at(before, first, smaller))
        || (flow.second_down > 0 && mark_at(before, first, larger))
}

/// Marks the node before a gate, which is reached, and the nodes to which residual arcs lead from
/// there.
fn mark_heads(
    before: &mut [bool],
    after: &mut [bool],
    first: u32,
    var: u32,
    gate: &Gate,
    flow: &GateFlow,
)
    requires { (b a : ℕ → Bool) → HoldsHeads b a var gate.now flow.now
        → AreWithin first before.old after.old b a → b var ≡ true }
    ensures within { (b a : ℕ → Bool) → HoldsHeads b a var gate.now flow.now
        → AreWithin first before.old after.old b a → AreWithin first before.new after.new b a }
    ensures before { length before.new ≡ length before.old }
    ensures after { length after.new ≡ length after.old }
{
    let (smaller, larger) = (gate.rhs1.var(), gate.rhs0.var());
    mark_if(before, first, var, true);
    mark_if(after, first, var, !flow.through);
    mark_if(before, first, smaller, true);
    mark_if(before, first, larger, true);
    mark_if(after, first, smaller, flow.first_up);
    mark_if(after, first, larger, flow.second_up);
}

/// Marks the nodes at a gate that are reached from marked ones by an arc. Returns true if the node
/// before the gate is marked then.
pub(crate) fn go_on(
    before: &mut [bool],
    after: &mut [bool],
    first: u32,
    var: u32,
    gate: &Gate,
    flow: &GateFlow,
) -> bool
    ensures within { (b a : ℕ → Bool) → HoldsHeads b a var gate.now flow.now
        → AreWithin first before.old after.old b a → AreWithin first before.new after.new b a }
    ensures before { length before.new ≡ length before.old }
    ensures after { length after.new ≡ length after.old }
{
    if is_entered(before, after, first, var, gate, flow) {
        mark_heads(before, after, first, var, gate, flow);
        true
    } else {
        false
    }
}
