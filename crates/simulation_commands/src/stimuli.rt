//! What circuits are simulated under: a stimulus that is read, or random sequences.
ghost use Rattle.std.specs.Prelude.{◌≡◌, ◌⊎◌, IfOk, MatchResult, true};
ghost use Rattle.circuit_files.specs.declared.outcome.Failure.TheVariants.{Memory, TooManySteps};
ghost use Rattle.command_endings.specs.HeldNames.{OfSource};
ghost use Rattle.simulation_commands.specs.Room.{is_too_long};
ghost use Rattle.simulation_commands.specs.Stimulating.{AreRandom, AreStimuliAt};

use crate::generating::random_stimulus;
use crate::room::is_too_long;
use aig_graph::Circuit;
use circuit_files::{Failure, stimulus_at};
use command_line::{Sequences, Stimuli};
use counted_io::{CountedRead, Source};
use lane_sim::Stimulus;
use std::alloc::Global;
use std::rt::Files;

/// Returns random sequences for a circuit, which was read here.
fn random_for<'a>(
    alloc: Global,
    circuit: &Circuit,
    sequences: Sequences,
    input: Source<'a>,
) -> Result<Stimulus, Failure<'a>>
    ensures { MatchResult result (AreRandom sequences circuit.now)
        (λ failure. (failure ≡ Memory)
        ⊎ ((is_too_long circuit.now sequences.count sequences.steps ≡ true)
        × OfSource input.entry (λ path. failure ≡ TooManySteps path))) }
{
    if is_too_long(circuit, sequences.count, sequences.steps) {
        return Err(Failure::TooManySteps(input.name()));
    }
    let inputs = circuit.aig().inputs() as usize;
    let free = circuit.aig().free_latches() as usize;
    let (count, steps) = (sequences.count as usize, sequences.steps as usize);
    match random_stimulus(alloc, inputs, free, count, steps, u64::from(sequences.seed)) {
        Ok(stimulus) => Ok(stimulus),
        Err(_) => Err(Failure::Memory),
    }
}

/// Returns the stimulus for a circuit, which was read here.
pub(crate) fn stimuli_for<'a, R: Files, I: CountedRead>(
    rt: &R,
    alloc: Global,
    stimuli: Stimuli<'a>,
    circuit: &Circuit,
    input: Source<'a>,
    stdin: &mut I,
) -> Result<Stimulus, Failure<'a>>
    ensures { IfOk result (AreStimuliAt stimuli.entry circuit.now (I.input stdin.old)
        (I.input stdin.new)) }
{
    match stimuli {
        Stimuli::Read(source) => stimulus_at(rt, alloc, source, circuit, stdin),
        Stimuli::Random(sequences) => random_for(alloc, circuit, sequences, input),
    }
}
