ghost use Rattle.std.specs.Prelude.{◌+◌, ◌≤◌, ◌<◌, length};
ghost use Rattle.counted_io.specs.Buffered.{Puts};
ghost use Rattle.counted_io.specs.Line.{line};
ghost use Rattle.file_words.specs.Text.{numbered_rows};
ghost use Rattle.aig_binary.specs.Text.{next_row};

use aig_graph::{Latch, MAX_VARIABLES, Reset};
use counted_io::{Buffered, CountedWrite};

#[tactic(auto, unfolding(crate::specs::Text::next_row))]
fn put_latch<W: CountedWrite>(out: &mut Buffered<'_, W>, var: u64, latch: Latch)
    requires { var < MAX_VARIABLES }
    ensures { Puts W.output out.old out.new (line (next_row var latch)) }
{
    let next = u64::from(latch.next.code());
    match latch.reset {
        Reset::Zero => out.put_line(&[next]),
        Reset::One => out.put_line(&[next, 1]),
        Reset::Free => out.put_line(&[next, 2 * var]),
    }
}

/// Puts a line for each latch, of which the first has the variable `first`.
pub(crate) fn put_latches<W: CountedWrite>(out: &mut Buffered<'_, W>, first: u64, latches: &[Latch])
    requires { first + length latches.now ≤ MAX_VARIABLES }
    ensures { Puts W.output out.old out.new (numbered_rows next_row first latches.now) }
{
    for (k, latch) in latches.iter().enumerate() {
        put_latch(out, first + k as u64, *latch);
    }
}
