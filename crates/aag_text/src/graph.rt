ghost use Rattle.std.specs.Prelude.{◌≡◌, ◌+◌, ◌≤◌, ◌<◌, length};
ghost use Rattle.counted_io.specs.Buffered.{Puts};
ghost use Rattle.counted_io.specs.Line.{line};
ghost use Rattle.file_words.specs.Text.{gate_row, input_rows, latch_row, numbered_rows};

use aig_graph::{Gate, Latch, MAX_VARIABLES, Reset};
use counted_io::{Buffered, CountedWrite};

/// Puts a line for each input; their variables are the first. A header alone may announce 2^28 of
/// them, so it ends at a write that failed.
pub(crate) fn put_inputs<W: CountedWrite>(out: &mut Buffered<'_, W>, inputs: u32)
    ensures { Puts W.output out.old out.new (input_rows inputs) }
{
    for input in 0..u64::from(inputs) {
        if out.has_failed() {
            return;
        }
        out.put_line(&[2 * (1 + input)]);
    }
}

#[tactic(auto, unfolding(file_words::specs::Text::latch_row))]
fn put_latch<W: CountedWrite>(out: &mut Buffered<'_, W>, var: u64, latch: Latch)
    requires { var < MAX_VARIABLES }
    ensures { Puts W.output out.old out.new (line (latch_row var latch)) }
{
    let current = 2 * var;
    let next = u64::from(latch.next.code());
    match latch.reset {
        Reset::Zero => out.put_line(&[current, next]),
        Reset::One => out.put_line(&[current, next, 1]),
        Reset::Free => out.put_line(&[current, next, current]),
    }
}

/// Puts a line for each latch, of which the first has the variable `first`.
pub(crate) fn put_latches<W: CountedWrite>(out: &mut Buffered<'_, W>, first: u64, latches: &[Latch])
    requires { first + length latches.now ≤ MAX_VARIABLES }
    ensures { Puts W.output out.old out.new (numbered_rows latch_row first latches.now) }
{
    for (k, latch) in latches.iter().enumerate() {
        put_latch(out, first + k as u64, *latch);
    }
}

#[tactic(auto, unfolding(file_words::specs::Text::gate_row))]
fn put_gate<W: CountedWrite>(out: &mut Buffered<'_, W>, var: u64, gate: Gate)
    requires { var < MAX_VARIABLES }
    ensures { Puts W.output out.old out.new (line (gate_row var gate)) }
{
    let rhs0 = u64::from(gate.rhs0.code());
    let rhs1 = u64::from(gate.rhs1.code());
    out.put_line(&[2 * var, rhs0, rhs1]);
}

/// Puts a line for each gate, of which the first has the variable `first`.
pub(crate) fn put_gates<W: CountedWrite>(out: &mut Buffered<'_, W>, first: u64, gates: &[Gate])
    requires { first + length gates.now ≤ MAX_VARIABLES }
    ensures { Puts W.output out.old out.new (numbered_rows gate_row first gates.now) }
{
    for (k, gate) in gates.iter().enumerate() {
        put_gate(out, first + k as u64, *gate);
    }
}
