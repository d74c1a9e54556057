//! A map that follows a move of latches over a closed set.
ghost use Rattle.std.specs.Prelude.{◌≤◌, OnOk};
ghost use Rattle.aig_graph.specs.Closed.{IsClosedSet};
ghost use Rattle.aig_graph.specs.Move.{move_of};
ghost use Rattle.aig_graph.specs.declared.literal.TheConstants.{MAX_VARIABLES};
ghost use Rattle.rebuild.specs.Marked.{AreMarksOf};
ghost use Rattle.rebuild.specs.Moved.{moved_of, moved_size};
ghost use Rattle.retiming_maps.specs.Mapping.{IsSomeMapTo, LeadsWhole};

use crate::parts::MapParts;
use aig_graph::{Circuit, ClosedSet, Keep};
use map_circuits::MapError;
use rebuild::MoveMarks;

/// Follows a move of latches over a closed set, by the marks of the move. The moved circuit isn't
/// made. Linear in the latches and the set; inputs cost nothing.
///
/// # Errors
///
/// `NoMemory` if memory is refused, `TooLarge` if the map would have more variables than a graph
/// may have.
pub fn follow_move(
    parts: &mut MapParts,
    circuit: &Circuit,
    set: &ClosedSet,
    keep: &Keep,
    marks: &MoveMarks,
) -> Result<(), MapError>
    requires map { IsSomeMapTo circuit.now parts.old }
    requires closed { IsClosedSet circuit.now.aig keep.now set.now }
    requires marked { AreMarksOf (move_of circuit.now keep.now set.now) marks.now }
    requires room { moved_size (move_of circuit.now keep.now set.now) ≤ MAX_VARIABLES }
    ensures { OnOk result (LeadsWhole circuit.now parts.old
        (moved_of (move_of circuit.now keep.now set.now)) parts.new) }
{
    circuit.known();
    parts
        .functions
        .follow_move(&mut parts.gates, circuit, set, keep, marks)?;
    Ok(())
}
