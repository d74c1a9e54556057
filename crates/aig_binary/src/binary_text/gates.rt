//! The deltas of gates wait until there are many, and go to the buffer together. A put costs more
//! than the few bytes of a gate.
ghost use Rattle.std.specs.Prelude.{ℕ, ◌≡◌, ◌+◌, ◌≤◌, ◌<◌, ◌++◌, length, slice_get, Some};
ghost use Rattle.aig_graph.specs.declared.graph.Gate.{Gate as GateOf};
ghost use Rattle.aig_graph.specs.Graph.{IsGateAt};
ghost use Rattle.counted_io.specs.Buffered.{Puts};
ghost use Rattle.counted_io.specs.Line.{numbered_lines};
ghost use Rattle.aig_binary.specs.Text.{KeepsText, gate_deltas};

use aig_graph::{Gate, MAX_VARIABLES};
use arrayvec::ArrayVec;
use binary_file::push_delta;
use counted_io::{Buffered, CountedWrite};

/// The most bytes of deltas that wait.
const CAPACITY: usize = 640;

/// The most bytes of a gate: of two deltas, five each.
const GATE_BYTES: usize = 10;

/// Deltas that wait, one after the other.
type Deltas = ArrayVec<u8, CAPACITY>;

/// Puts the deltas that wait if those of a gate may find no room beside them.
fn leave_room<W: CountedWrite>(out: &mut Buffered<'_, W>, deltas: &mut Deltas)
    ensures room { length deltas.new.items + GATE_BYTES ≤ CAPACITY }
    ensures keeps { KeepsText W.output out.old deltas.old.items out.new deltas.new.items }
{
    if deltas.remaining_capacity() < GATE_BYTES {
        out.put(deltas.as_slice());
        deltas.clear();
    }
}

#[tactic(auto, unfolding(crate::specs::Text::gate_deltas))]
fn push_gate(deltas: &mut Deltas, var: u32, gate: Gate)
    requires small { var < MAX_VARIABLES }
    requires ordered { IsGateAt var gate }
    requires room { length deltas.old.items + GATE_BYTES ≤ CAPACITY }
    ensures { deltas.new.items ≡ deltas.old.items ++ gate_deltas var gate }
{
    let rhs0 = gate.rhs0.code();
    let rhs1 = gate.rhs1.code();
    push_delta(deltas, 2 * var - rhs0);
    push_delta(deltas, rhs0 - rhs1);
}

/// Puts the deltas of each gate, of which the first has the variable `first`.
pub(crate) fn put_gates<W: CountedWrite>(out: &mut Buffered<'_, W>, first: u32, gates: &[Gate])
    requires small { first + length gates.now ≤ MAX_VARIABLES }
    requires ordered { (k : ℕ) (gate : GateOf) → slice_get gates.now k ≡ Some gate
        → IsGateAt (first + k) gate }
    ensures { Puts W.output out.old out.new (numbered_lines gate_deltas first gates.now) }
{
    let mut deltas = Deltas::new();
    for (k, gate) in gates.iter().enumerate() {
        leave_room(out, &mut deltas);
        push_gate(&mut deltas, first + k as u32, *gate);
    }
    out.put(deltas.as_slice());
}
