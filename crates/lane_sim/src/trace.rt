//! Traces.
ghost use Rattle.std.specs.Prelude.{ℕ, ◌≡◌, ◌<◌, ◌++◌, [], All, IfOk, OnOk, length, map, take, slice_get};
ghost use Rattle.std.specs.List.{slice_index_or};
ghost use Rattle.lane_sim.specs.Traces.{at_place, then_at, trace};
ghost use Rattle.lane_sim.specs.Blocks.{row_in};

use crate::block::{Block, simulate_blocks};
use crate::lanes::{LANES, Lanes};
use crate::stimulus::{InputSequence, Stimulus};
use aig_graph::{Circuit, NoMemory, Sequence, property_literals};
use std::alloc::Global;
use std::marker::Model;
use std::thread::Threads;

/// The values of a circuit's property literals under a stimulus, by sequence, step and place. The
/// places go over outputs, bad states, constraints, the literals of the justice properties in
/// order, and fairness.
#[derive(Drop)]
pub struct Trace {
    steps: Vec<usize>,
    blocks: Vec<Block>,
}

impl Model for Trace {
    ghost use Rattle.std.specs.Prelude.{Bool, List};
    ghost use Rattle.lane_sim.specs.Blocks.{recorded};

    ghost Value = { List (List (List Bool)) };

    ghost view = { λ t. recorded t.steps.items t.blocks.items };
}

impl Trace {
    /// Returns the value at a place of a step of a sequence, or `None` if the trace has no such
    /// place.
    pub fn get(&self, sequence: usize, step: usize, place: usize) -> Option<bool>
        ensures { result ≡ at_place self.now sequence step place }
    {
        let steps = *self.steps.get(sequence)?;
        let rows = rows_of(self.blocks.as_slice(), sequence / LANES);
        value_in_block(rows, sequence % LANES, steps, step, place)
    }

    /// Returns the number of sequences.
    pub fn sequences(&self) -> usize
        ensures { result ≡ length self.now }
    {
        self.steps.as_slice().len()
    }

    /// Returns the number of steps of a sequence, or 0 for a number that no sequence has.
    pub fn steps(&self, sequence: usize) -> usize
        ensures { result ≡ length (slice_index_or self.now sequence []) }
    {
        let Some(steps) = self.steps.get(sequence) else {
            return 0;
        };
        let rows = rows_of(self.blocks.as_slice(), sequence / LANES);
        rows.len().min(*steps)
    }

    /// Returns the number of places of a step of a sequence, or 0 if the trace has no such step.
    pub fn places(&self, sequence: usize, step: usize) -> usize
        ensures { result ≡ length (slice_index_or (slice_index_or self.now sequence []) step []) }
    {
        if step >= self.steps(sequence) {
            return 0;
        }
        let rows = rows_of(self.blocks.as_slice(), sequence / LANES);
        match rows.get(step) {
            Some(row) => row.as_slice().len(),
            None => 0,
        }
    }
}

/// Returns the rows of a block, or none if there is no such block.
fn rows_of(blocks: &[Block], number: usize) -> &[Sequence<Lanes>]
    ensures { result.now ≡ slice_index_or blocks.now number [] }
{
    match blocks.get(number) {
        Some(block) => block.as_slice(),
        None => &[],
    }
}

/// Returns the value at a place of a step of a lane that has `steps` steps.
fn value_in_block(
    rows: &[Sequence<Lanes>],
    lane: usize,
    steps: usize,
    step: usize,
    place: usize,
) -> Option<bool>
    requires { lane < 256 }
    ensures { result ≡ then_at (slice_get (map (row_in lane) (take steps rows.now)) step) place }
{
    if steps <= step {
        return None;
    }
    let row = rows.get(step)?;
    let lanes = row.as_slice().get(place)?;
    Some(lanes.get(lane))
}

/// Returns the number of steps of each sequence.
fn lengths(alloc: Global, sequences: &[InputSequence]) -> Result<Vec<usize>, NoMemory>
    ensures { IfOk result (λ lengths. lengths.items ≡ map (λ s. length s.steps) sequences.now) }
{
    let mut lengths = Vec::new(alloc);
    for sequence in sequences {
        lengths.push(sequence.steps.len())?;
    }
    Ok(lengths)
}

/// Simulates the circuit under each sequence. Blocks of 256 sequences are simulated in parallel. A
/// digit that a sequence doesn't have is false.
pub fn simulate(
    rt: &(impl Threads + Sync),
    alloc: Global,
    circuit: &Circuit,
    stimulus: &Stimulus,
) -> Result<Trace, NoMemory>
    ensures { IfOk result (λ found. found ≡ trace circuit.now stimulus.now) }
{
    let literals = property_literals(alloc, circuit.props())?;
    let sequences = stimulus.as_slice();
    let blocks = simulate_blocks(rt, alloc, circuit.aig(), literals.as_slice(), sequences)?;
    let steps = lengths(alloc, sequences)?;
    Ok(Trace { steps, blocks })
}
