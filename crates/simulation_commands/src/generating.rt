//! Making random sequences.
ghost use Rattle.std.specs.Prelude.{ℕ, ◌≡◌, ◌+◌, IfOk};
ghost use Rattle.simulation_commands.specs.Random.{digits, random_sequence, random_steps, state_after, word};
ghost use Rattle.simulation_commands.specs.Random as wanted;

use aig_graph::Sequence;
use lane_sim::{InputSequence, Stimulus};
use rand_core::SeedableRng;
use rand_core::utils::NextWord;
use rand_xoshiro::SplitMix64;
use std::alloc::{AllocError, Global};

/// Returns the next word of a generator.
fn next_word(generator: &mut SplitMix64) -> u64
    ensures word { (seed k : ℕ) → generator.old ≡ state_after seed k → result ≡ word seed k }
    ensures state { (seed k : ℕ) → generator.old ≡ state_after seed k
        → generator.new ≡ state_after seed (k + 1) }
{
    generator.next_word()
}

/// Returns `count` digits, 64 of each word.
fn digits(alloc: Global, seed: u64, count: usize) -> Result<Sequence<bool>, AllocError>
    ensures { IfOk result (λ row. row ≡ digits seed count) }
{
    let mut generator = SplitMix64::seed_from_u64(seed);
    let mut word = 0;
    let mut values = Vec::with_capacity(alloc, count)?;
    for place in 0..count {
        if place % 64 == 0 {
            word = next_word(&mut generator);
        }
        values.push_reserved((word >> (place % 64)) & 1 == 1);
    }
    Ok(Sequence::from_vec(values))
}

/// Returns `count` steps, by words of a generator that has given one.
fn steps(
    alloc: Global,
    generator: &mut SplitMix64,
    inputs: usize,
    count: usize,
) -> Result<Sequence<Sequence<bool>>, AllocError>
    ensures { IfOk result (λ rows. (seed : ℕ) → generator.old ≡ state_after seed 1
        → rows ≡ random_steps inputs count seed) }
{
    let mut rows = Vec::with_capacity(alloc, count)?;
    for _ in 0..count {
        rows.push_reserved(digits(alloc, next_word(generator), inputs)?);
    }
    Ok(Sequence::from_vec(rows))
}

fn sequence(
    alloc: Global,
    inputs: usize,
    free: usize,
    count: usize,
    seed: u64,
) -> Result<InputSequence, AllocError>
    ensures { IfOk result (λ made. made ≡ random_sequence inputs free count seed) }
{
    let mut generator = SplitMix64::seed_from_u64(seed);
    let choice = digits(alloc, next_word(&mut generator), free)?;
    let steps = steps(alloc, &mut generator, inputs, count)?;
    Ok(InputSequence { choice, steps })
}

/// Returns `sequences` random sequences, each of `steps` steps, for a circuit with `inputs` inputs
/// and `free` free latches. The time is linear in the digits.
///
/// # Errors
///
/// Memory is refused.
pub fn random_stimulus(
    alloc: Global,
    inputs: usize,
    free: usize,
    sequences: usize,
    steps: usize,
    seed: u64,
) -> Result<Stimulus, AllocError>
    ensures { IfOk result (λ stimulus. stimulus
        ≡ wanted.random_stimulus inputs free sequences steps seed) }
{
    let mut generator = SplitMix64::seed_from_u64(seed);
    let mut made = Vec::with_capacity(alloc, sequences)?;
    for _ in 0..sequences {
        made.push_reserved(sequence(alloc, inputs, free, steps, next_word(&mut generator))?);
    }
    Ok(Stimulus::new(made))
}
