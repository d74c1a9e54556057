//! A trace as text, of a circuit that is simulated while it is printed. One sequence comes after
//! the other, so no step is kept.
ghost use Rattle.std.specs.Prelude.{ℕ, ◌≡◌, ◌<◌, [], ◌∷◌, ◌++◌, All, IfOk, List, length};
ghost use Rattle.std.specs.List.{flat_map, range_with_len};
ghost use Rattle.aig_graph.specs.Graph.{Graph, variable};
ghost use Rattle.counted_io.specs.Buffered.{Puts};
ghost use Rattle.counted_io.specs.Output.{Writes};
ghost use Rattle.lane_sim.specs.declared.stimulus.InputSequence.{InputSequence as Sequenced};
ghost use Rattle.lane_sim.specs.Blocks.{in_lane};
ghost use Rattle.lane_sim.specs.Steps.{AreAt};
ghost use Rattle.lane_sim.specs.Traces.{trace, value_in};
ghost use Rattle.reports.specs.Simulating.{IsRoomFor, digits_of, lines_of, sequence_of, step_of, steps_of};
ghost use Rattle.reports.specs.Traces.{trace_text};

use crate::trace::digit;
use aig_graph::{Circuit, Lit, NoMemory, property_literals};
use counted_io::{Buffered, CountedWrite, WriteError};
use lane_sim::{InputSequence, State, Stimulus, Values};
use std::alloc::Global;

/// Room for simulating a circuit, step by step.
#[derive(Drop)]
pub struct Room {
    literals: Vec<Lit>,
    state: State,
    values: Values,
}

impl Room {
    /// Returns room for this circuit.
    ///
    /// # Errors
    ///
    /// Memory is refused.
    pub fn new(alloc: Global, circuit: &Circuit) -> Result<Room, NoMemory>
        ensures { IfOk result (IsRoomFor circuit.now) }
    {
        let literals = property_literals(alloc, circuit.props())?;
        let values = Values::new(alloc, circuit.aig())?;
        let state = State::new(alloc, circuit.aig())?;
        Ok(Room {
            literals,
            state,
            values,
        })
    }
}

/// Puts the values of literals in the first lane.
fn put_digits<W: CountedWrite>(out: &mut Buffered<'_, W>, values: &Values, literals: &[Lit])
    requires { All (λ lit. variable lit < length values.now.table.items) literals.now }
    ensures { (g : Graph) (sequences : List Sequenced) (t : ℕ) → AreAt g sequences values.now t
        → Puts W.output out.old out.new (digits_of (value_in g (in_lane sequences 0) t) literals.now) }
{
    for lit in literals {
        out.put_byte(digit(values.get(0, *lit)));
    }
}

/// Puts the line of a step.
fn put_step<W: CountedWrite>(out: &mut Buffered<'_, W>, values: &Values, literals: &[Lit])
    requires { All (λ lit. variable lit < length values.now.table.items) literals.now }
    ensures { (g : Graph) (sequences : List Sequenced) (t : ℕ) → AreAt g sequences values.now t
        → Puts W.output out.old out.new (step_of (value_in g (in_lane sequences 0) t) literals.now) }
{
    out.put_byte(b':');
    put_digits(out, values, literals);
    out.put_byte(b'\n');
}

/// Puts the lines of the steps of a sequence.
fn put_steps<W: CountedWrite>(
    out: &mut Buffered<'_, W>,
    circuit: &Circuit,
    sequences: &[InputSequence],
    room: &mut Room,
)
    requires one { length sequences.now ≡ 1 }
    requires room { IsRoomFor circuit.now room.old }
    ensures puts { Puts W.output out.old out.new (steps_of circuit.now (in_lane sequences.now 0)) }
    ensures room { IsRoomFor circuit.now room.new }
{
    circuit.known();
    let aig = circuit.aig();
    room.state.open(aig, sequences);
    for step in 0..sequences[0].steps.len() {
        room.values.evaluate(aig, &room.state, sequences, step);
        put_step(out, &room.values, room.literals.as_slice());
        room.state.advance(aig, &room.values);
    }
}

/// Puts the lines of a sequence, which is the one of the list.
fn put_sequence<W: CountedWrite>(
    out: &mut Buffered<'_, W>,
    circuit: &Circuit,
    sequences: &[InputSequence],
    room: &mut Room,
)
    requires one { length sequences.now ≡ 1 }
    requires room { IsRoomFor circuit.now room.old }
    ensures puts { Puts W.output out.old out.new
        (sequence_of circuit.now (in_lane sequences.now 0)) }
    ensures room { IsRoomFor circuit.now room.new }
{
    out.put(b"=\n");
    put_steps(out, circuit, sequences, room);
}

/// Returns the list of one of the sequences.
fn one_of(sequences: &[InputSequence], k: usize) -> &[InputSequence]
    requires { k < length sequences.now }
    ensures one { length result.now ≡ 1 }
    ensures value { in_lane result.now 0 ≡ in_lane sequences.now k }
{
    &sequences[k..k + 1]
}

/// Puts the lines of all sequences.
fn put_sequences<W: CountedWrite>(
    out: &mut Buffered<'_, W>,
    circuit: &Circuit,
    sequences: &[InputSequence],
    room: &mut Room,
)
    requires { IsRoomFor circuit.now room.old }
    ensures { Puts W.output out.old out.new (lines_of circuit.now sequences.now) }
{
    for k in 0..sequences.len() {
        put_sequence(out, circuit, one_of(sequences, k), room);
    }
}

/// Prints the trace of a circuit under a stimulus, as `print_trace` does, while the circuit is
/// simulated. Takes no memory. The time grows with each sequence, since one is simulated after the
/// other.
///
/// # Errors
///
/// `Device` if a write failed: a beginning of the text was written then, and the writer isn't
/// called again.
pub fn print_simulated<W: CountedWrite>(
    circuit: &Circuit,
    stimulus: &Stimulus,
    room: &mut Room,
    writer: &mut W,
) -> Result<(), WriteError>
    requires { IsRoomFor circuit.now room.old }
    ensures { Writes (W.output writer.old) (W.output writer.new) result
        (trace_text (trace circuit.now stimulus.now)) }
{
    let mut out = Buffered::new(writer);
    put_sequences(&mut out, circuit, stimulus.as_slice(), room);
    out.flush()
}
