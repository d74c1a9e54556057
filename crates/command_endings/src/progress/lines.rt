//! The texts that show a run.
ghost use Rattle.std.specs.Prelude.{◌≡◌};
ghost use Rattle.counted_io.specs.Buffered.{Puts};
ghost use Rattle.counted_io.specs.Output.{Writes};
ghost use Rattle.command_endings.specs.progress.Lines.{cleared, frame_line, frame_text, seconds_text, state_in_place, state_text};

use counted_io::{Buffered, CountedWrite, WriteError};

/// A frame that a set is looked for in, or moved over.
#[derive(Clone, Copy)]
pub struct Frame {
    /// Which one it is, from 1.
    pub number: u64,
    /// The latches with a known reset of the circuit that the set is looked for in.
    pub latches: u32,
    /// Its gates.
    pub gates: u64,
}

/// What a run does.
#[derive(Clone, Copy)]
pub enum State {
    /// Cleans the circuit that was read, or that a round came to.
    Cleaning,
    /// Looks for the set of a frame.
    Looking(Frame),
    /// Moves latches over the set of a frame, and cleans.
    Moving(Frame),
    /// Checks the circuit that latches were moved backward in.
    Checking,
    /// Writes the circuit.
    Writing,
}

/// Puts the seconds, if they are known.
fn put_seconds<W: CountedWrite>(out: &mut Buffered<'_, W>, seconds: Option<u64>)
    ensures { Puts W.output out.old out.new (seconds_text seconds) }
{
    if let Some(seconds) = seconds {
        out.put(b", seconds ");
        out.put_number(seconds);
    }
}

/// Puts a frame, and what is done of it.
fn put_frame<W: CountedWrite>(out: &mut Buffered<'_, W>, doing: &[u8], frame: Frame)
    ensures { Puts W.output out.old out.new (frame_text doing.now frame) }
{
    out.put(b"frame ");
    out.put_number(frame.number);
    out.put(b": ");
    out.put(doing);
    out.put(b"known latches ");
    out.put_number(u64::from(frame.latches));
    out.put(b", gates ");
    out.put_number(frame.gates);
}

/// Puts what a run does.
fn put_state<W: CountedWrite>(out: &mut Buffered<'_, W>, state: State)
    ensures { Puts W.output out.old out.new (state_text state) }
{
    match state {
        State::Cleaning => out.put(b"cleaning"),
        State::Looking(frame) => put_frame(out, b"looking, ", frame),
        State::Moving(frame) => put_frame(out, b"moving, ", frame),
        State::Checking => out.put(b"checking"),
        State::Writing => out.put(b"writing"),
    }
}

/// Writes which frame a set is looked for in, on a line of its own.
pub(crate) fn write_line<W: CountedWrite>(
    frame: Frame,
    seconds: Option<u64>,
    writer: &mut W,
) -> Result<(), WriteError>
    ensures { Writes (W.output writer.old) (W.output writer.new) result
        (frame_line frame seconds) }
{
    let mut out = Buffered::new(writer);
    put_frame(&mut out, b"", frame);
    put_seconds(&mut out, seconds);
    out.put_byte(b'\n');
    out.flush()
}

/// Writes what a run does in the place of what the line shows. What is past the width of the
/// terminal is cut off.
pub(crate) fn write_in_place<W: CountedWrite>(
    state: State,
    seconds: Option<u64>,
    writer: &mut W,
) -> Result<(), WriteError>
    ensures { Writes (W.output writer.old) (W.output writer.new) result
        (state_in_place state seconds) }
{
    let mut out = Buffered::new(writer);
    out.put(b"\r\x1b[K");
    out.put(b"\x1b[?7l");
    put_state(&mut out, state);
    put_seconds(&mut out, seconds);
    out.put(b"\x1b[?7h");
    out.flush()
}

/// Clears the line.
pub(crate) fn clear_line<W: CountedWrite>(writer: &mut W) -> Result<(), WriteError>
    ensures { Writes (W.output writer.old) (W.output writer.new) result cleared }
{
    let mut out = Buffered::new(writer);
    out.put(b"\r\x1b[K");
    out.flush()
}
