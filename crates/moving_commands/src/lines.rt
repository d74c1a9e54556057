//! The lines of a move.
ghost use Rattle.std.specs.Prelude.{◌≡◌, ◌++◌, decimal};
ghost use Rattle.counted_io.specs.Buffered.{Puts};
ghost use Rattle.counted_io.specs.Output.{Writes};
ghost use Rattle.reports.specs.Retimings.{change};
ghost use Rattle.moving_commands.specs.Printing.{backward_frame_lines, end_line, frame_line, moves_text, refused_line, taken_lines};
ghost use Rattle.moving_commands.specs.Printing as wanted;

use crate::answering::Answer;
use crate::engines::Report;
use backward_moves::FrameCounts;
use counted_io::{Buffered, CountedWrite, WriteError};

/// Puts two numbers with `to` between, and the newline.
fn put_change<W: CountedWrite>(out: &mut Buffered<'_, W>, before: u64, after: u64)
    ensures { Puts W.output out.old out.new (change before after) }
{
    out.put_number(before);
    out.put(b" to ");
    out.put_number(after);
    out.put_byte(b'\n');
}

/// Puts a number between two texts.
fn put_number_line<W: CountedWrite>(
    out: &mut Buffered<'_, W>,
    before: &[u8],
    number: u32,
    after: &[u8],
)
    ensures { Puts W.output out.old out.new (before.now ++ decimal number ++ after.now) }
{
    out.put(before);
    out.put_number(u64::from(number));
    out.put(after);
}

/// Puts the line of a frame, whose number counts from 1.
fn put_frame<W: CountedWrite>(out: &mut Buffered<'_, W>, number: u64, frame: FrameCounts)
    ensures { Puts W.output out.old out.new (frame_line number frame) }
{
    out.put(b"frame ");
    out.put_number(number);
    out.put(b": ");
    put_change(out, u64::from(frame.before), u64::from(frame.after));
}

/// Puts the lines of the frames.
fn put_frames<W: CountedWrite>(out: &mut Buffered<'_, W>, frames: &[FrameCounts])
    ensures { Puts W.output out.old out.new (backward_frame_lines frames.now) }
{
    for (k, frame) in frames.iter().enumerate() {
        put_frame(out, 1 + k as u64, *frame);
    }
}

/// Puts the lines of the frames that were taken.
fn put_taken<W: CountedWrite>(out: &mut Buffered<'_, W>, report: &Report)
    ensures { Puts W.output out.old out.new (taken_lines report.now) }
{
    match report {
        Report::OfBackward(frames, _, _) => put_frames(out, frames.as_slice()),
        Report::OfEnables(frames, _) => put_number_line(out, b"frames ", *frames, b"\n"),
    }
}

/// Returns a line that the judge refused what was found, if it did.
fn shown_line(is_shown: bool) -> &'static str
    ensures { result.now ≡ wanted.shown_line is_shown }
{
    if is_shown {
        ""
    } else {
        "not shown: OUT is IN\n"
    }
}

/// Puts a line that a draft was refused, if one was.
fn put_refused<W: CountedWrite>(out: &mut Buffered<'_, W>, frames: u32, refused: u32)
    ensures { Puts W.output out.old out.new (refused_line frames refused) }
{
    if refused == 0 {
        out.put(b"");
    } else if frames == 0 {
        out.put(shown_line(false).as_bytes());
    } else {
        put_number_line(out, b"not shown: a draft of ", refused, b" frames\n");
    }
}

/// Puts what the judge refused.
fn put_end<W: CountedWrite>(out: &mut Buffered<'_, W>, report: &Report)
    ensures { Puts W.output out.old out.new (end_line report.now) }
{
    match report {
        Report::OfBackward(_, _, is_shown) => out.put(shown_line(*is_shown).as_bytes()),
        Report::OfEnables(frames, refused) => put_refused(out, *frames, *refused),
    }
}

/// Puts all lines.
fn put_moves<W: CountedWrite>(out: &mut Buffered<'_, W>, answer: &Answer)
    ensures { Puts W.output out.old out.new (moves_text answer.now) }
{
    let left = answer.moved.circuit.aig().latches().len() as u64;
    put_taken(out, &answer.moved.report);
    out.put(b"latches ");
    put_change(out, answer.before.latches, left);
    put_end(out, &answer.moved.report);
}

/// Prints the frames that were taken, the numbers of all latches that were read and that are left,
/// and what the judge refused.
///
/// # Errors
///
/// `Device` if a write failed: a beginning of the text was written then, and the writer isn't
/// called again.
pub(crate) fn print_lines<W: CountedWrite>(
    answer: &Answer,
    writer: &mut W,
) -> Result<(), WriteError>
    ensures { Writes (W.output writer.old) (W.output writer.new) result (moves_text answer.now) }
{
    let mut out = Buffered::new(writer);
    put_moves(&mut out, answer);
    out.flush()
}
