//! A table of lanes by variable: one step of a block.
//!
//! A table has a row for each variable, of 256 bits: bit k is that of sequence k of the block. The
//! row of the constant is never written. At each step the rows of the latches are filled from the
//! state, which is a row for each latch. Those of the inputs are cleared and filled, and those of
//! the gates written in order, since fan-ins come first. Then the state is written from the next
//! literals.
ghost use Rattle.std.specs.Prelude.{ℕ, ◌≡◌, ◌+◌, ◌<◌, ◌≤◌, ◌==◌, ◌&&◌, ◌||◌, false, [], length, All, IfOk, map};
ghost use Rattle.std.specs.List.{slice_index_or};
ghost use Rattle.aig_graph.specs.Graph.{IsGraph, variable, variables_end, first_latch, first_gate};
ghost use Rattle.aig_graph.specs.Value.{signed, opening};
ghost use Rattle.lane_sim.specs.Lanes.{lane, held};
ghost use Rattle.lane_sim.specs.Blocks.{in_lane, row_in, HoldsState, HoldsBelow, HoldsLatches};
ghost use Rattle.lane_sim.specs.Traces.{choice_of};

use crate::lanes::{LANES, Lanes};
use crate::stimulus::InputSequence;
use aig_graph::{Aig, Gate, Lit, NoMemory, Reset, Sequence};
use std::alloc::Global;

/// Returns the digit of each sequence for a free latch.
fn choice_lanes(sequences: &[InputSequence], place: usize) -> Lanes
    requires { length sequences.now ≤ 256 }
    ensures { (k : ℕ) → k < 256 → lane result k ≡ choice_of (in_lane sequences.now k) place }
{
    let mut lanes = Lanes::none();
    for (k, sequence) in sequences.iter().enumerate() {
        let choice = sequence.choice.as_slice();
        if place < choice.len() {
            lanes = lanes.with(k, choice[place]);
        }
    }
    lanes
}

/// Puts the digits of a step into a lane of the inputs, which are false there.
fn load_row(table: &mut [Lanes], inputs: usize, row: &[bool], place: usize)
    requires inputs { inputs < length table.old }
    requires lane { place < 256 }
    ensures loaded { (i k : ℕ) → i < inputs → k < 256
        → held table.new (1 + i) k
        ≡ ((k == place && slice_index_or row.now i false) || held table.old (1 + i) k) }
    ensures constant { slice_index_or table.new 0 [] ≡ slice_index_or table.old 0 [] }
    ensures after { (v : ℕ) → inputs < v → slice_index_or table.new v []
        ≡ slice_index_or table.old v [] }
{
    for i in 0..inputs.min(row.len()) {
        table[1 + i] = table[1 + i].with(place, row[i]);
    }
}

/// Sets the inputs to false in each lane.
fn clear_inputs(table: &mut [Lanes], inputs: usize)
    requires { inputs < length table.old }
    ensures cleared { (i k : ℕ) → i < inputs → k < 256 → held table.new (1 + i) k ≡ false }
    ensures constant { slice_index_or table.new 0 [] ≡ slice_index_or table.old 0 [] }
    ensures after { (v : ℕ) → inputs < v → slice_index_or table.new v []
        ≡ slice_index_or table.old v [] }
{
    for i in 0..inputs {
        table[1 + i] = Lanes::none();
    }
}

/// Puts what the latches hold into their variables.
fn load_latches(table: &mut [Lanes], aig: &Aig, state: &[Lanes])
    requires variables { length table.old ≡ variables_end aig.now }
    requires latches { length state.now ≡ length aig.now.latches }
    ensures { (k t : ℕ) (s : InputSequence) → k < 256 → held table.old 0 k ≡ false
        → HoldsLatches aig.now s state.now k t → HoldsState aig.now s table.new k t }
{
    let first = 1 + aig.inputs() as usize;
    for j in 0..state.len() {
        table[first + j] = state[j];
    }
}

/// Puts the digits of a step into the inputs.
fn load_inputs(table: &mut [Lanes], aig: &Aig, sequences: &[InputSequence], step: usize)
    requires variables { length table.old ≡ variables_end aig.now }
    requires lanes { length sequences.now ≤ 256 }
    ensures { (k : ℕ) → k < 256 → HoldsState aig.now (in_lane sequences.now k) table.old k step
        → HoldsBelow aig.now (in_lane sequences.now k) table.new k step (first_gate aig.now) }
{
    let inputs = aig.inputs() as usize;
    clear_inputs(table, inputs);
    for (k, sequence) in sequences.iter().enumerate() {
        let steps = sequence.steps.as_slice();
        if step < steps.len() {
            load_row(table, inputs, steps[step].as_slice(), k);
        }
    }
}

/// Returns the AND of a gate's literals.
fn gate_lanes(table: &[Lanes], gate: Gate) -> Lanes
    requires first { variable gate.rhs0 < length table.now }
    requires second { variable gate.rhs1 < length table.now }
    ensures { (k : ℕ) → k < 256 → lane result k
        ≡ (signed gate.rhs0 (held table.now (variable gate.rhs0) k)
        && signed gate.rhs1 (held table.now (variable gate.rhs1) k)) }
{
    let a = table[gate.rhs0.var() as usize];
    let b = table[gate.rhs1.var() as usize];
    a.and(b, gate.rhs0.is_negated(), gate.rhs1.is_negated())
}

/// Computes each gate from the inputs and latches.
fn evaluate(table: &mut [Lanes], aig: &Aig)
    requires { length table.old ≡ variables_end aig.now }
    ensures values { (k t : ℕ) (s : InputSequence) → k < 256
        → HoldsBelow aig.now s table.old k t (first_gate aig.now)
        → HoldsBelow aig.now s table.new k t (variables_end aig.now) }
    ensures graph { IsGraph aig.now }
{
    let first = 1 + aig.inputs() as usize + aig.latches().len();
    for (place, gate) in aig.gates().iter().enumerate() {
        table[first + place] = gate_lanes(table, *gate);
    }
}

/// Computes all variables in a step, from what the latches hold.
pub(crate) fn fill(
    table: &mut [Lanes],
    aig: &Aig,
    state: &[Lanes],
    sequences: &[InputSequence],
    step: usize,
)
    requires lanes { length sequences.now ≤ 256 }
    requires variables { length table.old ≡ variables_end aig.now }
    requires latches { length state.now ≡ length aig.now.latches }
    ensures values { (k : ℕ) → k < 256 → held table.old 0 k ≡ false
        → HoldsLatches aig.now (in_lane sequences.now k) state.now k step
        → HoldsBelow aig.now (in_lane sequences.now k) table.new k step (variables_end aig.now) }
    ensures graph { IsGraph aig.now }
{
    load_latches(table, aig, state);
    load_inputs(table, aig, sequences, step);
    evaluate(table, aig);
}

/// Returns the value of a literal.
pub(crate) fn literal_lanes(table: &[Lanes], lit: Lit) -> Lanes
    requires { variable lit < length table.now }
    ensures { (k : ℕ) → k < 256 → lane result k ≡ signed lit (held table.now (variable lit) k) }
{
    table[lit.var() as usize].signed(lit.is_negated())
}

/// Returns the values of literals.
pub(crate) fn read_literals(
    alloc: Global,
    table: &[Lanes],
    literals: &[Lit],
) -> Result<Sequence<Lanes>, NoMemory>
    requires { All (λ lit. variable lit < length table.now) literals.now }
    ensures { IfOk result (λ row. (k : ℕ) → k < 256
        → row_in k row ≡ map (λ lit. signed lit (held table.now (variable lit) k)) literals.now) }
{
    let mut row = Vec::new(alloc);
    for lit in literals {
        row.push(literal_lanes(table, *lit))?;
    }
    Ok(Sequence::from_vec(row))
}

/// Puts into the state what each latch holds after the step.
pub(crate) fn advance(state: &mut [Lanes], table: &[Lanes], aig: &Aig)
    requires variables { length table.now ≡ variables_end aig.now }
    requires latches { length state.old ≡ length aig.now.latches }
    ensures { (k t : ℕ) (s : InputSequence) → k < 256
        → HoldsBelow aig.now s table.now k t (variables_end aig.now)
        → HoldsLatches aig.now s state.new k (t + 1) }
{
    for (j, latch) in aig.latches().iter().enumerate() {
        state[j] = literal_lanes(table, latch.next);
    }
}

/// Returns the value of a latch at step 0. If it is free, `place` is its place among the free
/// latches.
fn opening_lanes(reset: Reset, sequences: &[InputSequence], place: usize) -> Lanes
    requires { length sequences.now ≤ 256 }
    ensures { (k : ℕ) → k < 256 → lane result k ≡ opening reset
        (choice_of (in_lane sequences.now k) place) }
{
    match reset {
        Reset::Zero => Lanes::none(),
        Reset::One => Lanes::all(),
        Reset::Free => choice_lanes(sequences, place),
    }
}

/// Puts into the state the value of each latch before the first step: its reset, or the choice if
/// it is free.
pub(crate) fn open_state(state: &mut [Lanes], aig: &Aig, sequences: &[InputSequence])
    requires lanes { length sequences.now ≤ 256 }
    requires latches { length state.old ≡ length aig.now.latches }
    ensures { (k : ℕ) → k < 256 → HoldsLatches aig.now (in_lane sequences.now k) state.new k 0 }
{
    let mut free = 0;
    for (j, latch) in aig.latches().iter().enumerate() {
        state[j] = opening_lanes(latch.reset, sequences, free);
        if let Reset::Free = latch.reset {
            free += 1;
        }
    }
}
