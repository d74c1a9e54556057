//! The values at step 0 of a closed set's members. A member reads latches and members before it, so
//! each value follows from resets and from the values before. The value of a gate outside the set
//! is never looked at, and its entry stays false.
ghost use Rattle.std.specs.Prelude.{◌≡◌, ◌&&◌, ◌+◌, ◌<◌, IfOk, Some, false, length, true};
ghost use Rattle.aig_graph.specs.Graph.{first_latch, gate_at, variable};
ghost use Rattle.aig_graph.specs.Value.{opening, signed};
ghost use Rattle.aig_graph.specs.Marking.{has};
ghost use Rattle.aig_graph.specs.Tables.{table};
ghost use Rattle.rebuild.specs.Entries.{by_variable};
ghost use Rattle.rebuild.specs.Members.{is_latch_or_in};
ghost use Rattle.rebuild.specs.Planned.{planned};
ghost use Rattle.rebuild.specs.Starting.{member_start, start_value};

use crate::plan::Plan;
use aig_graph::{Gate, Latch, Lit, NoMemory, Reset, entry};
use std::alloc::Global;

/// Returns the value of a latch at step 0, or false if it is free.
fn latch_value(latch: Latch) -> bool
    ensures { result ≡ opening latch.reset false }
{
    latch.reset == Reset::One
}

/// Returns the value of an AND.
fn both(first: bool, second: bool) -> bool
    ensures { result ≡ (first && second) }
{
    first && second
}

/// Returns the value at step 0 of a literal of a latch or member, by the values so far.
fn value_of(plan: &Plan<'_>, values: &[bool], lit: Lit) -> bool
    requires so_far { values.now ≡ table (first_latch (planned plan.now).circuit.aig)
        (length values.now)
        (member_start (planned plan.now).circuit.aig (planned plan.now).set) }
    requires inside { is_latch_or_in (planned plan.now).circuit.aig (planned plan.now).set
        (variable lit) ≡ true }
    requires before { variable lit < first_latch (planned plan.now).circuit.aig
        + length values.now }
    ensures { result ≡ signed lit (start_value (planned plan.now).circuit.aig (variable lit)) }
{
    lit.value(entry(values, plan.marks.first, lit.var()))
}

/// Returns the value at step 0 of the next gate, a member.
fn member_value(plan: &Plan<'_>, values: &[bool], var: u32, gate: Gate) -> bool
    requires so_far { values.now ≡ table (first_latch (planned plan.now).circuit.aig)
        (length values.now)
        (member_start (planned plan.now).circuit.aig (planned plan.now).set) }
    requires next { var ≡ first_latch (planned plan.now).circuit.aig + length values.now }
    requires there { gate_at (planned plan.now).circuit.aig var ≡ Some gate }
    requires member { has (planned plan.now).set var ≡ true }
    ensures { result ≡ start_value (planned plan.now).circuit.aig var }
{
    let first = value_of(plan, values, gate.rhs0);
    let second = value_of(plan, values, gate.rhs1);
    both(first, second)
}

/// Returns the value at step 0 of the next gate if it is a member, else false.
fn gate_value(plan: &Plan<'_>, values: &[bool], var: u32, gate: Gate) -> bool
    requires so_far { values.now ≡ table (first_latch (planned plan.now).circuit.aig)
        (length values.now)
        (member_start (planned plan.now).circuit.aig (planned plan.now).set) }
    requires next { var ≡ first_latch (planned plan.now).circuit.aig + length values.now }
    requires there { gate_at (planned plan.now).circuit.aig var ≡ Some gate }
    ensures { result ≡ member_start (planned plan.now).circuit.aig (planned plan.now).set var }
{
    if plan.marks.has(var) {
        member_value(plan, values, var, gate)
    } else {
        false
    }
}

/// Returns by variable the value at step 0 of each latch and member. Linear in the graph.
pub(crate) fn start_values(alloc: Global, plan: &Plan<'_>) -> Result<Vec<bool>, NoMemory>
    ensures { IfOk result (λ values. values.items ≡ by_variable (planned plan.now).circuit.aig
        (member_start (planned plan.now).circuit.aig (planned plan.now).set)) }
{
    let aig = plan.aig();
    let start = aig.first_gate();
    let mut values = Vec::with_capacity(alloc, aig.latches_and_gates())?;
    for latch in aig.latches() {
        values.push_reserved(latch_value(*latch));
    }
    for (k, gate) in aig.gates().iter().enumerate() {
        let value = gate_value(plan, values.as_slice(), start + k as u32, *gate);
        values.push_reserved(value);
    }
    Ok(values)
}
