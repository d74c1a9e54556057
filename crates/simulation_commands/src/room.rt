//! Bounds on random sequences. If a file holds a stimulus, its length says what a run will take;
//! two numbers don't.
ghost use Rattle.std.specs.Prelude.{◌≡◌, ◌-◌, ◌*◌, ◌<◌, ◌^◌, length, min, nat_lt};
ghost use Rattle.aig_graph.specs.Streams.{property_literals};
ghost use Rattle.simulation_commands.specs.Room as wanted;

use aig_graph::{Circuit, Props};
use lane_sim::{InputSequence, Stimulus};

/// The most bytes of steps, and of choices.
const MOST_BYTES: u64 = 1 << 28;

/// The bytes of a step beside its digits, which are a byte each.
const STEP_BYTES: u64 = 64;

/// The most bits of a trace.
const MOST_BITS: u64 = 1 << 31;

/// The sequences that a trace has room for at least.
const LANES: u32 = 256;

/// Returns the number of the properties' literals, as far as the type goes.
fn literals(props: &Props) -> u64
    ensures { result ≡ min (length (property_literals props.now)) (2 ^ 64 - 1) }
{
    let mut count = props.outputs.len() as u64;
    count = count.saturating_add(props.bad.len() as u64);
    count = count.saturating_add(props.constraints.len() as u64);
    for literals in props.justice.as_slice() {
        count = count.saturating_add(literals.len() as u64);
    }
    count.saturating_add(props.fairness.len() as u64)
}

/// Returns true if a product is over a limit.
fn is_over(limit: u64, a: u64, b: u64) -> bool
    requires { limit < 2 ^ 64 - 1 }
    ensures { result ≡ nat_lt limit (a * b) }
{
    a.saturating_mul(b) > limit
}

fn steps_fill(circuit: &Circuit, sequences: u32, steps: u32) -> bool
    ensures { result ≡ wanted.steps_fill circuit.now sequences steps }
{
    let all = u64::from(sequences) * u64::from(steps);
    is_over(
        MOST_BYTES,
        all,
        u64::from(circuit.aig().inputs()) + STEP_BYTES,
    )
}

fn choices_fill(circuit: &Circuit, sequences: u32) -> bool
    ensures { result ≡ wanted.choices_fill circuit.now sequences }
{
    is_over(
        MOST_BYTES,
        u64::from(sequences),
        u64::from(circuit.aig().free_latches()),
    )
}

fn trace_fills(circuit: &Circuit, sequences: u32, steps: u32) -> bool
    ensures { result ≡ wanted.trace_fills circuit.now sequences steps }
{
    let all = u64::from(sequences.max(LANES)) * u64::from(steps);
    is_over(MOST_BITS, all, literals(circuit.props()))
}

/// The most bytes of a trace that is made whole, beside those for each step that was read.
const WHOLE_BYTES: u64 = 1 << 24;

/// For each step that was read, the bytes of a trace that may come with it. The step itself takes
/// some of them.
const BYTES_BY_STEP: u64 = 64;

/// The bytes of a literal at a step of 256 sequences.
const LANES_BYTES: u64 = 32;

/// Returns the steps of all sequences, and those of the longest.
fn counted_steps(sequences: &[InputSequence]) -> (u64, u64) {
    let mut all = 0u64;
    let mut longest = 0u64;
    for sequence in sequences {
        let steps = sequence.steps.len() as u64;
        all = all.saturating_add(steps);
        longest = longest.max(steps);
    }
    (all, longest)
}

/// Returns true if a trace takes little beside a constant and what was read. It may then be made
/// whole, by all processors. A hint: the printed text doesn't depend on it.
pub(crate) fn is_small(circuit: &Circuit, stimulus: &Stimulus) -> bool {
    let sequences = stimulus.as_slice();
    let (all, longest) = counted_steps(sequences);
    let blocks = sequences.len().div_ceil(LANES as usize) as u64;
    let bytes = blocks
        .saturating_mul(longest)
        .saturating_mul(literals(circuit.props()))
        .saturating_mul(LANES_BYTES);
    bytes <= WHOLE_BYTES.saturating_add(all.saturating_mul(BYTES_BY_STEP))
}

/// Returns true if `sequences` sequences of `steps` steps each, or the trace of the circuit under
/// them, take too much memory. What stays below takes some 800 megabytes.
pub fn is_too_long(circuit: &Circuit, sequences: u32, steps: u32) -> bool
    ensures { result ≡ wanted.is_too_long circuit.now sequences steps }
{
    steps_fill(circuit, sequences, steps)
        || choices_fill(circuit, sequences)
        || trace_fills(circuit, sequences, steps)
}
