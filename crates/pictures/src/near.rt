//! Neighbourhoods: what is at most a number of edges away.
ghost use Rattle.std.specs.Prelude.{◌≡◌, ◌+◌, ◌≤◌, ◌==◌, ◌&&◌, not, length, IfOk};
ghost use Rattle.std.specs.List.{list_any, enumerate_from};
ghost use Rattle.aig_graph.specs.declared.literal.TheConstants.{MAX_VARIABLES};
ghost use Rattle.aig_graph.specs.Graph.{variables_end};
ghost use Rattle.pictures.specs.Near.{gate_meets, goes_on, is_near, is_next, latch_meets, meets};
ghost use Rattle.aig_graph.specs.Marking.{Marks, mark_at};
ghost use Rattle.aig_graph.specs.Tables.{table};

use crate::centre::centre;
use crate::named::mark_where;
use aig_graph::{Aig, Circuit, Gate, Latch, MAX_VARIABLES, NoMemory, mark_at};
use std::alloc::Global;

#[tactic(auto, unfolding(crate::specs::Near::goes_on))]
fn goes_on(near: &[bool], var: u32) -> bool
    ensures { result ≡ goes_on (mark_at 0 near.now) var }
{
    var != 0 && mark_at(near, 0, var)
}

/// Marks the ends of an edge whose other end is near.
#[tactic(auto, unfolding(crate::specs::Near::meets))]
fn mark_edge(next: &mut [bool], near: &[bool], from: u32, to: u32)
    ensures { Marks 0 next.old next.new (meets (mark_at 0 near.now) from to) }
{
    mark_where(next, mark_at(near, 0, to), from);
    mark_where(next, goes_on(near, from), to);
}

fn mark_latch(next: &mut [bool], near: &[bool], var: u32, latch: Latch)
    ensures { Marks 0 next.old next.new (λ v. latch_meets (mark_at 0 near.now) v (var, latch)) }
{
    mark_edge(next, near, latch.next.var(), var);
}

fn mark_latches(next: &mut [bool], near: &[bool], first: u32, latches: &[Latch])
    requires { first + length latches.now ≤ MAX_VARIABLES }
    ensures { Marks 0 next.old next.new (λ v. list_any (latch_meets (mark_at 0 near.now) v)
        (enumerate_from first latches.now)) }
{
    for (k, latch) in latches.iter().enumerate() {
        mark_latch(next, near, first + k as u32, *latch);
    }
}

fn mark_gate(next: &mut [bool], near: &[bool], var: u32, gate: Gate)
    ensures { Marks 0 next.old next.new (λ v. gate_meets (mark_at 0 near.now) v (var, gate)) }
{
    mark_edge(next, near, gate.rhs0.var(), var);
    mark_edge(next, near, gate.rhs1.var(), var);
}

fn mark_gates(next: &mut [bool], near: &[bool], first: u32, gates: &[Gate])
    requires { first + length gates.now ≤ MAX_VARIABLES }
    ensures { Marks 0 next.old next.new (λ v. list_any (gate_meets (mark_at 0 near.now) v)
        (enumerate_from first gates.now)) }
{
    for (k, gate) in gates.iter().enumerate() {
        mark_gate(next, near, first + k as u32, *gate);
    }
}

fn mark_next(next: &mut [bool], near: &[bool], aig: &Aig)
    ensures { Marks 0 next.old next.new (is_next aig.now (mark_at 0 near.now)) }
{
    mark_latches(next, near, aig.first_latch(), aig.latches());
    mark_gates(next, near, aig.first_gate(), aig.gates());
}

/// Adds to the marks what is an edge away from a marked variable.
fn spread(alloc: Global, aig: &Aig, near: &[bool]) -> Result<Vec<bool>, NoMemory>
    ensures { IfOk result (λ next. Marks 0 near.now next.items
        (is_next aig.now (mark_at 0 near.now))) }
{
    let mut next = Vec::from_slice(alloc, near)?;
    mark_next(next.as_mut_slice(), near, aig);
    Ok(next)
}

/// Marks by variable what is at most `depth` edges away from what the name names. Linear in the
/// circuit for each edge.
pub(crate) fn near(
    alloc: Global,
    circuit: &Circuit,
    name: &[u8],
    depth: u32,
) -> Result<Vec<bool>, NoMemory>
    ensures { IfOk result (λ marks. marks.items ≡ table 0 (variables_end circuit.now.aig)
        (is_near circuit.now name.now depth)) }
{
    let mut marks = centre(alloc, circuit, name)?;
    for _ in 0..depth {
        marks = spread(alloc, circuit.aig(), marks.as_slice())?;
    }
    Ok(marks)
}
