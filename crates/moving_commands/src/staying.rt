//! What a terminal is told of a move: why no more latches go.
ghost use Rattle.std.specs.Prelude.{◌≡◌, false};
ghost use Rattle.command_line.specs.declared.task.Shown.TheVariants.{Nothing};

use crate::answering::Answer;
use crate::engines::Report;
use backward_moves::Staying;
use command_line::{Moving, Shown};
use counted_io::{Buffered, CountedWrite};
use frame_runs::PathBound;

/// Puts how many latches stay for a reason.
fn put_reason<W: CountedWrite>(out: &mut Buffered<'_, W>, reason: &[u8], count: u32) {
    out.put(reason);
    out.put_number(u64::from(count));
}

/// Returns the words that follow the number of those that could move.
fn lead(is_least: bool) -> &'static [u8] {
    if is_least {
        b", could move without gain "
    } else {
        b", could move "
    }
}

/// Puts the line of the latches that stay: the numbers add up to all.
fn put_latches<W: CountedWrite>(out: &mut Buffered<'_, W>, staying: &Staying) {
    put_reason(out, b"latches that stay: free ", staying.free);
    put_reason(out, b", held ", staying.held);
    put_reason(out, b", behind no gate ", staying.behind_no_gate);
    put_reason(
        out,
        b", behind a gate read elsewhere ",
        staying.read_elsewhere,
    );
    if let Some(count) = staying.too_long {
        put_reason(out, b", behind a gate on too long a path ", count);
    }
    put_reason(out, lead(staying.is_least), staying.could_move);
    out.put_byte(b'\n');
}

/// Puts why the frames ended.
fn put_end<W: CountedWrite>(out: &mut Buffered<'_, W>, staying: &Staying, is_bounded: bool) {
    put_reason(out, b"movable gates ", staying.movable);
    if !staying.is_least {
        out.put(b", the limit of frames is reached\n");
    } else if is_bounded {
        out.put(b", no set was found within the bound that leaves fewer\n");
    } else {
        out.put(b", no set was found that leaves fewer\n");
    }
}

/// Puts why no more latches go, if nothing was refused.
fn put_report<W: CountedWrite>(out: &mut Buffered<'_, W>, report: &Report, is_bounded: bool) {
    match report {
        Report::OfBackward(_, staying, true) => {
            put_latches(out, staying);
            put_end(out, staying, is_bounded);
        }
        Report::OfEnables(0, 0) => {
            out.put(b"no registers that hold alike were found that could be fewer\n");
        }
        _ => {}
    }
}

/// Tells on a terminal why no more latches go, unless somebody asks for an object or for quiet.
/// What can't be told changes nothing.
pub(crate) fn tell_staying<E: CountedWrite>(
    task: &Moving<'_>,
    answer: &Answer,
    is_terminal: bool,
    err: &mut E,
)
    ensures aside { is_terminal ≡ false → E.output err.new ≡ E.output err.old }
    ensures quiet { task.now.shown ≡ Nothing → E.output err.new ≡ E.output err.old }
{
    if is_terminal && !task.json && task.shown != Shown::Nothing {
        let is_bounded = task.options.bound != PathBound::None;
        let mut out = Buffered::new(err);
        put_report(&mut out, &answer.moved.report, is_bounded);
        let _ = out.flush();
    }
}
