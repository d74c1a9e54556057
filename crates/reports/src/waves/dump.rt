//! A dump: what waves there are, and then their values.
ghost use Rattle.std.specs.Prelude.{◌≡◌};
ghost use Rattle.std.specs.List.{flat_map, range_with_len};
ghost use Rattle.counted_io.specs.Buffered.{Puts};
ghost use Rattle.counted_io.specs.Line.{numbered_lines};
ghost use Rattle.counted_io.specs.Output.{Writes};
ghost use Rattle.lane_sim.specs.Traces.{trace};
ghost use Rattle.reports.specs.waves.Dumps.{dump_header, scope_text, wave_line, waves_text};
ghost use Rattle.reports.specs.waves.Moments.{IsWaveRoomFor};

use crate::waves::room::WaveRoom;
use crate::waves::times::{Shown, put_start, put_times};
use crate::waves::values::put_code;
use aig_graph::{Circuit, Sequence};
use counted_io::{Buffered, CountedWrite, WriteError};
use lane_sim::Stimulus;

/// Puts the declaration of a wave.
fn put_wave<W: CountedWrite>(out: &mut Buffered<'_, W>, sequence: usize, place: usize, name: &[u8])
    ensures { Puts W.output out.old out.new (wave_line sequence place name.now) }
{
    out.put(b"$var wire 1 ");
    put_code(out, sequence, place);
    out.put_byte(b' ');
    out.put(name);
    out.put(b" $end\n");
}

/// Puts the declarations of a sequence's waves.
fn put_waves<W: CountedWrite>(out: &mut Buffered<'_, W>, names: &[Sequence<u8>], sequence: usize)
    ensures { Puts W.output out.old out.new (numbered_lines (wave_line sequence) 0 names.now) }
{
    for (k, name) in names.iter().enumerate() {
        put_wave(out, sequence, k, name.as_slice());
    }
}

/// Puts the scope of a sequence.
fn put_scope<W: CountedWrite>(out: &mut Buffered<'_, W>, names: &[Sequence<u8>], sequence: usize)
    ensures { Puts W.output out.old out.new (scope_text names.now sequence) }
{
    out.put(b"$scope module sequence");
    out.put_number(sequence as u64);
    out.put(b" $end\n");
    put_waves(out, names, sequence);
    out.put(b"$upscope $end\n");
}

/// Puts the scopes of `sequences` sequences.
fn put_scopes<W: CountedWrite>(out: &mut Buffered<'_, W>, names: &[Sequence<u8>], sequences: usize)
    ensures { Puts W.output out.old out.new
        (flat_map (scope_text names.now) (range_with_len 0 sequences)) }
{
    for sequence in 0..sequences {
        put_scope(out, names, sequence);
    }
}

fn put_head<W: CountedWrite>(out: &mut Buffered<'_, W>, names: &[Sequence<u8>], sequences: usize)
    ensures { Puts W.output out.old out.new (dump_header names.now sequences) }
{
    out.put(b"$timescale 1 ns $end\n");
    put_scopes(out, names, sequences);
    out.put(b"$enddefinitions $end\n");
}

fn put_dump<W: CountedWrite>(
    out: &mut Buffered<'_, W>,
    names: &[Sequence<u8>],
    circuit: &Circuit,
    stimulus: &Stimulus,
    room: &mut WaveRoom,
)
    requires { IsWaveRoomFor circuit.now stimulus.now room.old }
    ensures { Puts W.output out.old out.new (waves_text names.now (trace circuit.now stimulus.now)) }
{
    let shown = Shown {
        circuit,
        sequences: stimulus.as_slice(),
        places: names.len(),
    };
    put_head(out, names, shown.sequences.len());
    put_start(out, &shown, room);
    put_times(out, &shown, room);
}

/// Writes the waves with these names, as a value change dump. Their values are those of a circuit's
/// property literals under a stimulus. A scope is a sequence. There is a time for each step and one
/// more, at which each wave of the longest sequences ends. The circuit is simulated while they are
/// written, in this room.
///
/// Takes no memory, and calls the writer about once for each 8 KiB of text. The time is linear in
/// the number of sequences times the steps of the longest one times the waves. Each block of 256
/// sequences is simulated twice at each of these steps.
///
/// # Errors
///
/// `Device` if a write failed: a beginning of the text was written then, and the writer isn't
/// called again.
pub fn write_waves<W: CountedWrite>(
    names: &[Sequence<u8>],
    circuit: &Circuit,
    stimulus: &Stimulus,
    room: &mut WaveRoom,
    writer: &mut W,
) -> Result<(), WriteError>
    requires { IsWaveRoomFor circuit.now stimulus.now room.old }
    ensures { Writes (W.output writer.old) (W.output writer.new) result
        (waves_text names.now (trace circuit.now stimulus.now)) }
{
    let mut out = Buffered::new(writer);
    put_dump(&mut out, names, circuit, stimulus, room);
    out.flush()
}
