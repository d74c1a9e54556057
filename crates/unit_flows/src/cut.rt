//! The conditions under which marks are a cut: no gate without a mark reads a marked one, and what
//! marked gates read is marked after.
ghost use Rattle.std.specs.Prelude.{◌≡◌, ◌+◌, ◌<◌, ◌≤◌, ◌||◌, IsTrue, length, nat_lt, not};
ghost use Rattle.aig_graph.specs.Marking.{mark_at};
ghost use Rattle.aig_graph.specs.Graph.{IsGateAt};
ghost use Rattle.unit_flows.specs.Shown.{IsCutAt};

use crate::marks::covered_mark;
use aig_graph::Gate;

/// Returns true if a variable that the table covers is no gate, or a gate that isn't marked before.
fn is_unmarked(before: &[bool], first: u32, first_gate: u32, var: u32) -> bool
    requires from { first ≤ var }
    requires below { var < first + length before.now }
    ensures { result ≡ (nat_lt var first_gate || not (mark_at first before.now var)) }
{
    var < first_gate || !covered_mark(before, first, var)
}

/// Returns true if the marks have the form of a cut at a gate. A gate that reads an input has none.
pub(crate) fn is_cut_at(
    before: &[bool],
    after: &[bool],
    first: u32,
    first_gate: u32,
    var: u32,
    gate: &Gate,
) -> bool
    requires gate { IsGateAt var gate.now }
    requires before { var < first + length before.now }
    requires after { var < first + length after.now }
    ensures { IsTrue result
        → IsCutAt first_gate (mark_at first before.now) (mark_at first after.now) var gate.now }
{
    let (smaller, larger) = (gate.rhs1.var(), gate.rhs0.var());
    if smaller < first {
        return false;
    }
    if covered_mark(before, first, var) {
        covered_mark(after, first, smaller) && covered_mark(after, first, larger)
    } else {
        is_unmarked(before, first, first_gate, smaller)
            && is_unmarked(before, first, first_gate, larger)
    }
}
