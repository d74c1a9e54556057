//! The graph after a move. Latches: those that stay, in old order, and then one for each gate of
//! the border, in gate order. Gates: those outside the set, in old order, and then the copies of
//! the members, which may read any other gate. Their fan-ins are in the plan.
ghost use Rattle.std.specs.Prelude.{◌≡◌, ◌≤◌, ◌++◌, [], IfOk, OnOk, length, map, vec_capacity};
ghost use Rattle.aig_graph.specs.Graph.{variables_end, first_gate};
ghost use Rattle.rebuild.specs.Moved.{is_latched, latches_below, gates_below, copy_for, moved_graph};
ghost use Rattle.rebuild.specs.Starting.{member_start};
ghost use Rattle.rebuild.specs.Entries.{by_variable};
ghost use Rattle.rebuild.specs.Planned.{planned};
ghost use Rattle.aig_graph.specs.Counting.{count_below};

use crate::plan::Plan;
use crate::values::start_values;
use aig_graph::{Aig, Gate, Latch, NoMemory, Reset, count_marks, entry};
use std::alloc::Global;

/// Adds the latches that stay, in old order.
fn push_staying(latches: &mut Vec<Latch>, plan: &Plan<'_>)
    requires none { latches.old.items ≡ [] }
    requires room { count_below (is_latched (planned plan.now))
        (variables_end (planned plan.now).circuit.aig) ≤ vec_capacity latches.old }
    ensures { latches.new.items ≡ latches_below (planned plan.now)
        (first_gate (planned plan.now).circuit.aig) }
{
    let aig = plan.aig();
    for (k, latch) in aig.latches().iter().enumerate() {
        let var = plan.marks.first + k as u32;
        if plan.marks.is_latched(var) {
            latches.push_reserved(plan.staying_latch(var, *latch));
        }
    }
}

/// Adds a latch for each gate of the border, in gate order, by the values of latches and members at
/// step 0.
fn push_border(latches: &mut Vec<Latch>, plan: &Plan<'_>, values: &[bool]) -> Result<(), NoMemory>
    requires staying { latches.old.items ≡ latches_below (planned plan.now)
        (first_gate (planned plan.now).circuit.aig) }
    requires values { values.now ≡ by_variable (planned plan.now).circuit.aig
        (member_start (planned plan.now).circuit.aig (planned plan.now).set) }
    ensures { OnOk result (latches.new.items ≡ latches_below (planned plan.now)
        (variables_end (planned plan.now).circuit.aig)) }
{
    for var in plan.marks.set.vars() {
        if plan.marks.is_latched(*var) {
            let value = entry(values, plan.marks.first, *var);
            latches.push(plan.border_latch(*var, Reset::from(value)))?;
        }
    }
    Ok(())
}

fn moved_latches(alloc: Global, plan: &Plan<'_>) -> Result<Vec<Latch>, NoMemory>
    ensures { IfOk result (λ latches. latches.items
        ≡ latches_below (planned plan.now) (variables_end (planned plan.now).circuit.aig)) }
{
    let values = start_values(alloc, plan)?;
    let count = count_marks(plan.marks.latched.as_slice());
    let mut latches = Vec::with_capacity(alloc, count as usize)?;
    push_staying(&mut latches, plan);
    push_border(&mut latches, plan, values.as_slice())?;
    Ok(latches)
}

/// Adds the gates outside the set, in old order.
fn push_outside(gates: &mut Vec<Gate>, plan: &Plan<'_>)
    requires none { gates.old.items ≡ [] }
    requires room { length (planned plan.now).circuit.aig.gates ≤ vec_capacity gates.old }
    ensures { gates.new.items ≡ gates_below (planned plan.now)
        (variables_end (planned plan.now).circuit.aig) }
{
    let aig = plan.aig();
    let start = aig.first_gate();
    for (k, gate) in aig.gates().iter().enumerate() {
        if !plan.marks.has(start + k as u32) {
            gates.push_reserved(plan.gate(*gate));
        }
    }
}

/// Adds a copy of each gate of the set, in old order.
fn push_copies(gates: &mut Vec<Gate>, plan: &Plan<'_>) -> Result<(), NoMemory>
    ensures { OnOk result (gates.new.items ≡ gates.old.items ++ map (copy_for (planned plan.now))
        (planned plan.now).set) }
{
    for var in plan.marks.set.vars() {
        if let Some(gate) = plan.aig().gate(*var) {
            gates.push(plan.copied_gate(gate))?;
        }
    }
    Ok(())
}

fn moved_gates(alloc: Global, plan: &Plan<'_>) -> Result<Vec<Gate>, NoMemory>
    ensures { IfOk result (λ gates. gates.items ≡ (moved_graph (planned plan.now)).gates) }
{
    let mut gates = Vec::with_capacity(alloc, plan.aig().gates().len())?;
    push_outside(&mut gates, plan);
    push_copies(&mut gates, plan)?;
    Ok(gates)
}

/// Returns the graph after the move.
pub(crate) fn moved_graph(alloc: Global, plan: &Plan<'_>) -> Result<Aig, NoMemory>
    ensures { IfOk result (λ aig. aig ≡ moved_graph (planned plan.now)) }
{
    let latches = moved_latches(alloc, plan)?;
    let gates = moved_gates(alloc, plan)?;
    Ok(Aig::from_parts(plan.aig().inputs(), latches, gates))
}
