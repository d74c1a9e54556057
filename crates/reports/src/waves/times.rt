//! The times of a dump. At each of them all blocks of sequences are simulated a step on, and what
//! has changed is put.
ghost use Rattle.std.specs.Prelude.{◌≡◌, ◌+◌, ◌*◌, ◌^◌, ◌<◌, ◌≤◌, length, max};
ghost use Rattle.std.specs.List.{flat_map, range_with_len};
ghost use Rattle.counted_io.specs.Buffered.{Puts};
ghost use Rattle.lane_sim.specs.Blocks.{block_of};
ghost use Rattle.lane_sim.specs.Traces.{trace};
ghost use Rattle.reports.specs.waves.Dumps.{longest, longest_of, dump_start, time_text, later_times, values, values_of};
ghost use Rattle.reports.specs.waves.Moments.{HasRoom, HasStates, IsAt, IsRoomAt, IsWaveRoomFor};

use crate::waves::moment::{LANES, Moment};
use crate::waves::room::{WaveRoom, advance_block, open_block};
use crate::waves::values::put_block;
use aig_graph::Circuit;
use counted_io::{Buffered, CountedWrite};
use lane_sim::InputSequence;

/// The waves of a dump: their number, and the circuit whose property literals they are, under
/// sequences.
#[derive(Clone, Copy)]
pub(crate) struct Shown<'a> {
    pub(crate) circuit: &'a Circuit,
    pub(crate) sequences: &'a [InputSequence],
    pub(crate) places: usize,
}

/// Returns the sequences of a block.
fn block_at(sequences: &[InputSequence], block: usize) -> &[InputSequence]
    requires { 256 * block ≤ length sequences.now }
    ensures value { result.now ≡ block_of sequences.now block }
    ensures lanes { length result.now ≤ 256 }
{
    let rest = &sequences[LANES * block..];
    &rest[..LANES.min(rest.len())]
}

/// Puts the values of a block at the start.
fn put_first<W: CountedWrite>(
    out: &mut Buffered<'_, W>,
    shown: &Shown<'_>,
    room: &mut WaveRoom,
    block: usize,
)
    requires block { block < length room.old.states.items }
    requires room { HasStates shown.now.circuit.now shown.now.sequences.now
        (IsAt shown.now.circuit.now shown.now.sequences.now 0) (HasRoom shown.now.circuit.now)
        block room.old }
    ensures room { HasStates shown.now.circuit.now shown.now.sequences.now
        (IsAt shown.now.circuit.now shown.now.sequences.now 0) (HasRoom shown.now.circuit.now)
        (block + 1) room.new }
    ensures puts { Puts W.output out.old out.new
        (flat_map (values_of (trace shown.now.circuit.now shown.now.sequences.now) shown.now.places 0)
        (range_with_len (256 * block) (length (block_of shown.now.sequences.now block)))) }
{
    shown.circuit.known();
    let sequences = block_at(shown.sequences, block);
    open_block(
        &mut room.states[block],
        &mut room.values,
        shown.circuit.aig(),
        sequences,
    );
    let moment = Moment {
        circuit: shown.circuit,
        literals: room.literals.as_slice(),
        sequences: shown.sequences,
        before: &room.values,
        values: &room.values,
        time: 0,
    };
    put_block(out, &moment, shown.places, block);
}

/// Puts the values of a block that change after a step.
fn put_next<W: CountedWrite>(
    out: &mut Buffered<'_, W>,
    shown: &Shown<'_>,
    room: &mut WaveRoom,
    block: usize,
    step: usize,
)
    requires block { block < length room.old.states.items }
    requires next { step + 1 < 2 ^ 64 }
    requires room { HasStates shown.now.circuit.now shown.now.sequences.now
        (IsAt shown.now.circuit.now shown.now.sequences.now (step + 1))
        (IsAt shown.now.circuit.now shown.now.sequences.now step) block room.old }
    ensures room { HasStates shown.now.circuit.now shown.now.sequences.now
        (IsAt shown.now.circuit.now shown.now.sequences.now (step + 1))
        (IsAt shown.now.circuit.now shown.now.sequences.now step) (block + 1) room.new }
    ensures puts { Puts W.output out.old out.new
        (flat_map (values_of (trace shown.now.circuit.now shown.now.sequences.now)
        shown.now.places (step + 1))
        (range_with_len (256 * block) (length (block_of shown.now.sequences.now block)))) }
{
    shown.circuit.known();
    let sequences = block_at(shown.sequences, block);
    advance_block(
        &mut room.states[block],
        &mut room.before,
        &mut room.values,
        shown.circuit.aig(),
        sequences,
        step,
    );
    let moment = Moment {
        circuit: shown.circuit,
        literals: room.literals.as_slice(),
        sequences: shown.sequences,
        before: &room.before,
        values: &room.values,
        time: step + 1,
    };
    put_block(out, &moment, shown.places, block);
}

/// Puts the values at the start.
fn put_opening<W: CountedWrite>(out: &mut Buffered<'_, W>, shown: &Shown<'_>, room: &mut WaveRoom)
    requires { IsWaveRoomFor shown.now.circuit.now shown.now.sequences.now room.old }
    ensures room { IsRoomAt shown.now.circuit.now shown.now.sequences.now 0 room.new }
    ensures puts { Puts W.output out.old out.new
        (values (trace shown.now.circuit.now shown.now.sequences.now) shown.now.places 0) }
{
    for block in 0..room.states.len() {
        put_first(out, shown, room, block);
    }
}

/// Puts the values that change after a step.
fn put_changes<W: CountedWrite>(
    out: &mut Buffered<'_, W>,
    shown: &Shown<'_>,
    room: &mut WaveRoom,
    step: usize,
)
    requires next { step + 1 < 2 ^ 64 }
    requires room { IsRoomAt shown.now.circuit.now shown.now.sequences.now step room.old }
    ensures room { IsRoomAt shown.now.circuit.now shown.now.sequences.now (step + 1) room.new }
    ensures puts { Puts W.output out.old out.new
        (values (trace shown.now.circuit.now shown.now.sequences.now) shown.now.places (step + 1)) }
{
    for block in 0..room.states.len() {
        put_next(out, shown, room, block, step);
    }
}

/// Puts the values at the start, as such.
pub(crate) fn put_start<W: CountedWrite>(
    out: &mut Buffered<'_, W>,
    shown: &Shown<'_>,
    room: &mut WaveRoom,
)
    requires { IsWaveRoomFor shown.now.circuit.now shown.now.sequences.now room.old }
    ensures room { IsRoomAt shown.now.circuit.now shown.now.sequences.now 0 room.new }
    ensures puts { Puts W.output out.old out.new
        (dump_start (trace shown.now.circuit.now shown.now.sequences.now) shown.now.places) }
{
    out.put(b"#0\n$dumpvars\n");
    put_opening(out, shown, room);
    out.put(b"$end\n");
}

/// Puts the time after a step, and the values that change at it.
fn put_time<W: CountedWrite>(
    out: &mut Buffered<'_, W>,
    shown: &Shown<'_>,
    room: &mut WaveRoom,
    step: usize,
)
    requires next { step + 1 < 2 ^ 64 }
    requires room { IsRoomAt shown.now.circuit.now shown.now.sequences.now step room.old }
    ensures room { IsRoomAt shown.now.circuit.now shown.now.sequences.now (step + 1) room.new }
    ensures puts { Puts W.output out.old out.new
        (time_text (trace shown.now.circuit.now shown.now.sequences.now) shown.now.places
        (step + 1)) }
{
    out.put_byte(b'#');
    out.put_number((step + 1) as u64);
    out.put_byte(b'\n');
    put_changes(out, shown, room, step);
}

fn larger(a: usize, b: usize) -> usize
    ensures { result ≡ max a b }
{
    if a < b { b } else { a }
}

/// Returns the number of steps of the longest sequence.
fn longest(shown: &Shown<'_>) -> usize
    ensures { result ≡ longest (trace shown.now.circuit.now shown.now.sequences.now) }
{
    let mut steps = 0;
    for sequence in 0..shown.sequences.len() {
        steps = larger(steps, shown.sequences[sequence].steps.len());
    }
    steps
}

/// Puts each time from 1 on. A long dump ends at a write that failed.
pub(crate) fn put_times<W: CountedWrite>(
    out: &mut Buffered<'_, W>,
    shown: &Shown<'_>,
    room: &mut WaveRoom,
)
    requires { IsRoomAt shown.now.circuit.now shown.now.sequences.now 0 room.old }
    ensures { Puts W.output out.old out.new
        (later_times (trace shown.now.circuit.now shown.now.sequences.now) shown.now.places) }
{
    for step in 0..longest(shown) {
        if out.has_failed() {
            return;
        }
        put_time(out, shown, room, step);
    }
}
