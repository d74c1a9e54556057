//! The simulation of a block of sequences.
ghost use Rattle.std.specs.Prelude.{ℕ, ◌≡◌, ◌*◌, ◌<◌, ◌≤◌, All, IfOk, IsSomeAnd, length, slice_get};
ghost use Rattle.aig_graph.specs.Graph.{variable, variables_end, IsGraph};
ghost use Rattle.lane_sim.specs.Blocks.{in_lane, block_of, IsBlock};

use crate::lanes::{LANES, Lanes};
use crate::steps::{State, Values, simulate_step};
use crate::stimulus::InputSequence;
use aig_graph::{Aig, Lit, NoMemory, Sequence};
use rayon::prelude::*;
use std::alloc::Global;
use std::thread::Threads;

/// For each step of a block, the values of the literals.
pub(crate) type Block = Sequence<Sequence<Lanes>>;

/// Returns the number of steps of the longest sequence.
pub(crate) fn longest(sequences: &[InputSequence]) -> usize
    ensures { (k : ℕ) → k < length sequences.now → length (in_lane sequences.now k).steps ≤ result }
{
    let mut steps = 0;
    for sequence in sequences {
        steps = steps.max(sequence.steps.len());
    }
    steps
}

/// Simulates the sequences of a block.
pub(crate) fn simulate_block(
    alloc: Global,
    aig: &Aig,
    literals: &[Lit],
    sequences: &[InputSequence],
) -> Result<Block, NoMemory>
    requires literals { All (λ lit. variable lit < variables_end aig.now) literals.now }
    requires lanes { length sequences.now ≤ 256 }
    ensures { IfOk result (IsBlock aig.now literals.now sequences.now) }
{
    let steps = longest(sequences);
    if steps == 0 {
        return Ok(Sequence::empty(alloc));
    }
    let mut values = Values::new(alloc, aig)?;
    let mut state = State::new(alloc, aig)?;
    state.open(aig, sequences);
    let mut rows = Vec::new(alloc);
    for step in 0..steps {
        let row = simulate_step(
            alloc,
            &mut state,
            &mut values,
            aig,
            literals,
            sequences,
            step,
        )?;
        rows.push(row)?;
    }
    Ok(Sequence::from_vec(rows))
}

/// Returns the sequences of a block.
pub(crate) fn block(sequences: &[InputSequence], number: usize) -> &[InputSequence]
    requires { 256 * number ≤ length sequences.now }
    ensures value { result.now ≡ block_of sequences.now number }
    ensures lanes { length result.now ≤ 256 }
{
    let rest = &sequences[LANES * number..];
    &rest[..LANES.min(rest.len())]
}

/// Simulates each block of the sequences, in parallel, in order.
pub(crate) fn simulate_blocks(
    rt: &(impl Threads + Sync),
    alloc: Global,
    aig: &Aig,
    literals: &[Lit],
    sequences: &[InputSequence],
) -> Result<Vec<Block>, NoMemory>
    requires { All (λ lit. variable lit < variables_end aig.now) literals.now }
    ensures { IfOk result (λ blocks. (b : ℕ) → 256 * b < length sequences.now
        → IsSomeAnd (slice_get blocks.items b)
        (IsBlock aig.now literals.now (block_of sequences.now b))) }
{
    let blocks: Result<Vec<Block>, NoMemory> = (0..sequences.len().div_ceil(LANES))
        .into_par_iter()
        .with_min_len(1)
        .map(
            |number: usize| -> Result<Block, NoMemory>
                requires fits { 256 * number ≤ length sequences.now }
                requires literals { All (λ lit. variable lit < variables_end aig.now) literals.now }
                ensures { IfOk result (IsBlock aig.entry.now literals.entry.now
                    (block_of sequences.entry.now number)) }
            { simulate_block(alloc, aig, literals, block(sequences, number)) },
        )
        .collect(rt, alloc)?;
    blocks
}
