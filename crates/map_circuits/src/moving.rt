//! The functions of the latches after a move. Those that stay have the functions that they had, and
//! a new one has that of its gate. A gate of the set has its function before any that reads it is
//! met.
ghost use Rattle.std.specs.Prelude.{ℕ, ◌≡◌, ◌+◌, ◌≤◌, IfOk, List, OnOk, length, take};
ghost use Rattle.aig_graph.specs.Closed.{IsClosedSet};
ghost use Rattle.aig_graph.specs.Graph.{IsGraph, first_gate, first_latch, variables_end};
ghost use Rattle.rebuild.specs.Marked.{AreMarksOf};
ghost use Rattle.map_circuits.specs.Growing.{Extends};
ghost use Rattle.aig_graph.specs.Move.{move_of};
ghost use Rattle.map_circuits.specs.Following.{AreWithin, Follows};
ghost use Rattle.map_circuits.specs.Stepping.{AreMoved};

use crate::gathering::gather_latched;
use crate::map_gates::MapGates;
use aig_graph::{BuildError, Circuit, ClosedSet, Keep, Lit};
use rebuild::MoveMarks;

/// Puts the functions of the latches after a move at the front of a table that begins with those of
/// the latches before it. The table has an entry for each gate. Returns the number of latches.
pub(crate) fn moved_front(
    gates: &mut MapGates,
    table: &mut [Lit],
    circuit: &Circuit,
    set: &ClosedSet,
    keep: &Keep,
    marks: &MoveMarks,
) -> Result<usize, BuildError>
    requires graph { IsGraph gates.old }
    requires closed { IsClosedSet circuit.now.aig keep.now set.now }
    requires long { first_latch circuit.now.aig + length table.old ≡ variables_end circuit.now.aig }
    requires within { AreWithin gates.old circuit.now.aig set.now (first_gate circuit.now.aig)
        table.old }
    requires marked { AreMarksOf (move_of circuit.now keep.now set.now) marks.now }
    ensures extends { OnOk result (Extends gates.old gates.new) }
    ensures few { IfOk result (λ kept. kept ≤ length table.new) }
    ensures moved { IfOk result (λ kept. (functions new : List ℕ)
        → Follows gates.old functions circuit.now.aig set.now (first_gate circuit.now.aig)
        gates.old table.old
        → new ≡ take kept table.new
        → AreMoved gates.old functions (move_of circuit.now keep.now set.now) gates.new new) }
{
    gates.add_functions(table, circuit.aig(), set, keep)?;
    Ok(gather_latched(table, circuit, set, keep, marks.latched()))
}
