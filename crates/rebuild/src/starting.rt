//! Values at step 0. A passable gate depends on known resets alone, so its value there needs no
//! input. A latch that moves after it gets this value as its reset, and no search for one is needed
//! (Hurst et al. 2007).
ghost use Rattle.std.specs.Prelude.{◌≡◌, ◌+◌, ◌<◌, IfOk, OnOk, length};
ghost use Rattle.aig_graph.specs.Graph.{IsGraph, variable, first_gate};
ghost use Rattle.aig_graph.specs.Tables.{table};
ghost use Rattle.rebuild.specs.Starting.{start_reset, literal_start, and_reset, gate_resets};
ghost use Rattle.rebuild.specs.Laws.{StartLaw};

use aig_graph::{Aig, Gate, Keep, Lit, NoMemory, Reset, entry};
use std::alloc::Global;

/// Returns the reset of a variable, by those of the gates so far: a known latch that isn't held has
/// its own.
fn reset_at(aig: &Aig, keep: &Keep, resets: &[Reset], var: u32) -> Reset
    requires so_far { resets.now ≡ table (first_gate aig.now) (length resets.now)
        (start_reset aig.now keep.now) }
    requires before { var < first_gate aig.now + length resets.now }
    ensures { result ≡ start_reset aig.now keep.now var }
{
    if aig.first_gate() <= var {
        return entry(resets, aig.first_gate(), var);
    }
    match aig.latch(var) {
        Some(latch) if keep.may_move(aig, var) => latch.reset,
        _ => Reset::Free,
    }
}

/// Returns the value of a literal at step 0 by its variable's reset, unless that is free.
fn literal_start(lit: Lit, reset: Reset) -> Option<bool>
    ensures { result ≡ literal_start lit reset }
{
    match reset {
        Reset::Zero => Some(lit.value(false)),
        Reset::One => Some(lit.value(true)),
        Reset::Free => None,
    }
}

/// Returns the reset of the AND of two literals by their values at step 0.
fn and_reset(first: Option<bool>, second: Option<bool>) -> Reset
    ensures { result ≡ and_reset first second }
{
    match (first, second) {
        (Some(a), Some(b)) => Reset::from(a && b),
        _ => Reset::Free,
    }
}

/// Returns the reset of the next gate.
fn gate_reset(aig: &Aig, keep: &Keep, resets: &[Reset], gate: Gate) -> Reset
    requires so_far { resets.now ≡ table (first_gate aig.now) (length resets.now)
        (start_reset aig.now keep.now) }
    requires first { variable gate.rhs0 < first_gate aig.now + length resets.now }
    requires second { variable gate.rhs1 < first_gate aig.now + length resets.now }
    ensures { result ≡ and_reset
        (literal_start gate.rhs0 (start_reset aig.now keep.now (variable gate.rhs0)))
        (literal_start gate.rhs1 (start_reset aig.now keep.now (variable gate.rhs1))) }
{
    let first = reset_at(aig, keep, resets, gate.rhs0.var());
    let second = reset_at(aig, keep, resets, gate.rhs1.var());
    and_reset(
        literal_start(gate.rhs0, first),
        literal_start(gate.rhs1, second),
    )
}

/// Returns the reset of each gate, in gate order. A passable gate has its value at step 0, which no
/// input and no value of a free latch changes; another gate is free. Linear in the graph.
pub fn resets(alloc: Global, aig: &Aig, keep: &Keep) -> Result<Vec<Reset>, NoMemory>
    ensures value { IfOk result (λ resets. resets.items ≡ gate_resets aig.now keep.now) }
    ensures start { OnOk result (StartLaw aig.now keep.now) }
{
    let gates = aig.gates();
    let mut resets = Vec::with_capacity(alloc, gates.len())?;
    for gate in gates {
        let reset = gate_reset(aig, keep, resets.as_slice(), *gate);
        resets.push(reset)?;
    }
    Ok(resets)
}
