//! The reasons why no more latches of a retimed circuit go: what holds each of them. The numbers
//! add up to all latches.
ghost use Rattle.std.specs.Prelude.{◌≡◌};
ghost use Rattle.counted_io.specs.Buffered.{Puts};
ghost use Rattle.counted_io.specs.Output.{Writes};
ghost use Rattle.reports.specs.Remaining.{end_text, movable, movable_lead, remaining_text, staying_text, too_long_text};

use crate::Remaining;
use counted_io::{Buffered, CountedWrite, WriteError};

/// Returns the number of latches that nothing holds. Gates that they may move over alone read them,
/// within the bound if there is one.
fn movable(remaining: &Remaining) -> u64
    ensures { result ≡ movable remaining.now }
{
    let held_back = &remaining.held_back;
    let others = remaining
        .counts
        .latches
        .saturating_sub(u64::from(held_back.free));
    let unheld = others.saturating_sub(u64::from(held_back.held));
    let passed = unheld.saturating_sub(u64::from(held_back.read_elsewhere));
    passed.saturating_sub(u64::from(held_back.too_long.unwrap_or(0)))
}

/// Puts the number of latches that a gate on too long a path reads, if there is a bound.
fn put_too_long<W: CountedWrite>(out: &mut Buffered<'_, W>, too_long: Option<u32>)
    ensures { Puts W.output out.old out.new (too_long_text too_long) }
{
    if let Some(count) = too_long {
        out.put(b", read by a gate on too long a path ");
        out.put_number(u64::from(count));
    }
}

/// Returns the text that the number of movable latches follows.
fn movable_lead(is_least: bool) -> &'static [u8]
    ensures { result.now ≡ movable_lead is_least }
{
    if is_least {
        b", could move without gain "
    } else {
        b", could move "
    }
}

/// Puts the line of the latches that stay.
fn put_staying<W: CountedWrite>(out: &mut Buffered<'_, W>, remaining: &Remaining)
    ensures { Puts W.output out.old out.new (staying_text remaining.now) }
{
    let held_back = &remaining.held_back;
    out.put(b"latches that stay: free ");
    out.put_number(u64::from(held_back.free));
    out.put(b", held ");
    out.put_number(u64::from(held_back.held));
    out.put(b", read elsewhere ");
    out.put_number(u64::from(held_back.read_elsewhere));
    put_too_long(out, held_back.too_long);
    out.put(movable_lead(remaining.is_least));
    out.put_number(movable(remaining));
    out.put_byte(b'\n');
}

/// Puts why the frames ended, and the newline.
fn put_end<W: CountedWrite>(out: &mut Buffered<'_, W>, is_least: bool, is_bounded: bool)
    ensures { Puts W.output out.old out.new (end_text is_least is_bounded) }
{
    if !is_least {
        out.put(b", the limit of frames is reached\n");
    } else if is_bounded {
        out.put(b", no set of gates within the bound leaves fewer\n");
    } else {
        out.put(b", no set of gates leaves fewer\n");
    }
}

fn put_remaining<W: CountedWrite>(out: &mut Buffered<'_, W>, remaining: &Remaining)
    ensures { Puts W.output out.old out.new (remaining_text remaining.now) }
{
    put_staying(out, remaining);
    out.put(b"passable gates ");
    out.put_number(u64::from(remaining.held_back.passable));
    let is_bounded = remaining.held_back.too_long.is_some();
    put_end(out, remaining.is_least, is_bounded);
}

/// Prints what holds the latches of a retimed circuit, and why the frames ended.
///
/// # Errors
///
/// `Device` if a write failed: a beginning of the text was written then, and the writer isn't
/// called again.
pub fn print_remaining<W: CountedWrite>(
    remaining: &Remaining,
    writer: &mut W,
) -> Result<(), WriteError>
    ensures { Writes (W.output writer.old) (W.output writer.new) result
        (remaining_text remaining.now) }
{
    let mut out = Buffered::new(writer);
    put_remaining(&mut out, remaining);
    out.flush()
}
