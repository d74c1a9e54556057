ghost use Rattle.std.specs.Prelude.{◌≡◌};
ghost use Rattle.counted_io.specs.Buffered.{Puts};
ghost use Rattle.counted_io.specs.Output.{Writes};
ghost use Rattle.reports.specs.Retimings.{change, frame_line, frame_lines, retiming_text};

use counted_io::{Buffered, CountedWrite, WriteError};
use merging_rounds::Rounds;
use retimed_circuits::FrameReport;

/// Puts two numbers with `to` between, and the newline.
pub(crate) fn put_change<W: CountedWrite>(out: &mut Buffered<'_, W>, before: u64, after: u64)
    ensures { Puts W.output out.old out.new (change before after) }
{
    out.put_number(before);
    out.put(b" to ");
    out.put_number(after);
    out.put_byte(b'\n');
}

/// Puts the line of a frame, whose number counts from 1.
fn put_frame<W: CountedWrite>(out: &mut Buffered<'_, W>, number: u64, frame: FrameReport)
    ensures { Puts W.output out.old out.new (frame_line number frame) }
{
    out.put(b"frame ");
    out.put_number(number);
    out.put(b": ");
    put_change(out, u64::from(frame.before), u64::from(frame.after));
}

/// Puts the lines of the frames.
fn put_frames<W: CountedWrite>(out: &mut Buffered<'_, W>, frames: &[FrameReport])
    ensures { Puts W.output out.old out.new (frame_lines frames.now) }
{
    for (k, frame) in frames.iter().enumerate() {
        put_frame(out, 1 + k as u64, *frame);
    }
}

/// Puts all lines.
fn put_retiming<W: CountedWrite>(out: &mut Buffered<'_, W>, rounds: &Rounds)
    ensures { Puts W.output out.old out.new (retiming_text rounds.now) }
{
    let left = rounds.circuit.aig().latches().len() as u64;
    put_frames(out, rounds.frames.as_slice());
    out.put(b"latches ");
    put_change(out, u64::from(rounds.read_latches), left);
}

/// Prints a line for each frame, and one with the numbers of all latches that were read and that
/// are left.
///
/// Takes no memory.
///
/// # Errors
///
/// `Device` if a write failed: a beginning of the text was written then, and the writer isn't
/// called again.
pub fn print_retiming<W: CountedWrite>(rounds: &Rounds, writer: &mut W) -> Result<(), WriteError>
    ensures { Writes (W.output writer.old) (W.output writer.new) result
        (retiming_text rounds.now) }
{
    let mut out = Buffered::new(writer);
    put_retiming(&mut out, rounds);
    out.flush()
}
