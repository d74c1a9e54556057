//! A trace as text. It is kept by blocks of sequences, step by step, and printed sequence by
//! sequence. So each value is asked for by its place, and the text needs no room beside the trace.
ghost use Rattle.std.specs.Prelude.{◌≡◌};
ghost use Rattle.counted_io.specs.Buffered.{Puts};
ghost use Rattle.counted_io.specs.Output.{Writes};
ghost use Rattle.reports.specs.Traces.{digit, digit_at, sequence_at, sequences_at, step_at, steps_at, trace_text, values_at};

use counted_io::{Buffered, CountedWrite, WriteError};
use lane_sim::Trace;

pub(crate) fn digit(value: bool) -> u8
    ensures { result ≡ digit value }
{
    if value { b'1' } else { b'0' }
}

/// Puts the value at a place.
fn put_value<W: CountedWrite>(
    out: &mut Buffered<'_, W>,
    trace: &Trace,
    sequence: usize,
    step: usize,
    place: usize,
)
    ensures { Puts W.output out.old out.new (digit_at trace.now sequence step place) }
{
    let value = trace.get(sequence, step, place).unwrap_or(false);
    out.put_byte(digit(value));
}

/// Puts the line of a step: a digit for each place.
fn put_step<W: CountedWrite>(out: &mut Buffered<'_, W>, trace: &Trace, sequence: usize, step: usize)
    ensures { Puts W.output out.old out.new (step_at trace.now sequence step) }
{
    out.put_byte(b':');
    put_values(out, trace, sequence, step);
    out.put_byte(b'\n');
}

fn put_values<W: CountedWrite>(
    out: &mut Buffered<'_, W>,
    trace: &Trace,
    sequence: usize,
    step: usize,
)
    ensures { Puts W.output out.old out.new (values_at trace.now sequence step) }
{
    for place in 0..trace.places(sequence, step) {
        put_value(out, trace, sequence, step, place);
    }
}

/// Puts the line that begins a sequence, and the lines of its steps.
fn put_sequence<W: CountedWrite>(out: &mut Buffered<'_, W>, trace: &Trace, sequence: usize)
    ensures { Puts W.output out.old out.new (sequence_at trace.now sequence) }
{
    out.put(b"=\n");
    put_steps(out, trace, sequence);
}

fn put_steps<W: CountedWrite>(out: &mut Buffered<'_, W>, trace: &Trace, sequence: usize)
    ensures { Puts W.output out.old out.new (steps_at trace.now sequence) }
{
    for step in 0..trace.steps(sequence) {
        put_step(out, trace, sequence, step);
    }
}

/// Puts the lines of all sequences.
fn put_trace<W: CountedWrite>(out: &mut Buffered<'_, W>, trace: &Trace)
    ensures { Puts W.output out.old out.new (sequences_at trace.now) }
{
    for sequence in 0..trace.sequences() {
        put_sequence(out, trace, sequence);
    }
}

/// Prints a trace: `=` for each sequence, and for each of its steps `:` with a digit for each
/// property literal.
///
/// # Errors
///
/// `Device` if a write failed: a beginning of the text was written then, and the writer isn't
/// called again.
pub fn print_trace<W: CountedWrite>(trace: &Trace, writer: &mut W) -> Result<(), WriteError>
    ensures { Writes (W.output writer.old) (W.output writer.new) result (trace_text trace.now) }
{
    let mut out = Buffered::new(writer);
    put_trace(&mut out, trace);
    out.flush()
}
