//! The border of a set, in one table of marks. First all that is read from outside of the set or
//! held is marked. Then the known latches and the members that have a mark are counted.
ghost use Rattle.std.specs.Prelude.{◌≡◌, ◌==◌, ◌-◌, ◌&&◌, is_some, IfOk};
ghost use Rattle.aig_graph.specs.Graph.{first_latch, variables_end, latch_at};
ghost use Rattle.aig_graph.specs.Closed.{is_held};
ghost use Rattle.aig_graph.specs.Move.{move_of};
ghost use Rattle.aig_graph.specs.Border.{border_size, is_counted};
ghost use Rattle.aig_graph.specs.Counting.{count_below};
ghost use Rattle.aig_graph.specs.Marking.{Marks};

use crate::circuit::Circuit;
use crate::closed::ClosedSet;
use crate::graph::Aig;
use crate::keep::Keep;
use crate::reading::mark_read;
use crate::{NoMemory, mark_at, mark_variable, marks_of};
use std::alloc::Global;

/// Marks the latch at `position`, if there is one.
fn mark_position(marks: &mut [bool], aig: &Aig, position: u32)
    ensures { Marks (first_latch aig.now) marks.old marks.new
        (λ v. (position == v - first_latch aig.now) && is_some (latch_at aig.now v)) }
{
    if (position as usize) < aig.latches().len() {
        let first = aig.first_latch();
        mark_variable(marks, first, first + position);
    }
}

/// Marks the held latches in a table by variable from the first latch on.
pub fn mark_held(marks: &mut [bool], aig: &Aig, keep: &Keep)
    ensures { Marks (first_latch aig.now) marks.old marks.new (is_held aig.now keep.now) }
{
    for position in keep.positions() {
        mark_position(marks, aig, *position);
    }
}

/// Returns true if the variable is marked, and is a gate inside or a known latch.
#[tactic(auto, unfolding(crate::specs::Border::is_counted))]
fn is_counted(aig: &Aig, inside: &[bool], marks: &[bool], var: u32) -> bool
    ensures { result ≡ is_counted aig.now inside.now marks.now var }
{
    let first = aig.first_latch();
    mark_at(marks, first, var)
        && ((aig.gate(var).is_some() && mark_at(inside, first, var)) || aig.is_known_latch(var))
}

/// Returns the number of known latches and gates inside that are marked.
fn count_marked(aig: &Aig, inside: &[bool], marks: &[bool]) -> u32
    ensures { result ≡ count_below (is_counted aig.now inside.now marks.now)
        (variables_end aig.now) }
{
    let mut total = 0;
    for var in aig.first_latch()..aig.variables() as u32 {
        if is_counted(aig, inside, marks, var) {
            total += 1;
        }
    }
    total
}

/// Returns the size of a set's border: the number of known latches and of the set's gates that are
/// held or read from outside. A circuit has this number of known latches right after latches have
/// moved over a closed set. Members that are no gates add nothing. Linear in the circuit; no table
/// has an entry for an input.
pub fn count(
    alloc: Global,
    circuit: &Circuit,
    set: &ClosedSet,
    keep: &Keep,
) -> Result<u32, NoMemory>
    ensures { IfOk result (λ n. n ≡ border_size (move_of circuit.now keep.now set.now)) }
{
    let aig = circuit.aig();
    let entries = aig.latches_and_gates();
    let inside = marks_of(alloc, aig.first_latch(), entries, set.vars())?;
    let mut marked = vec![in alloc; false; entries]?;
    let marks = marked.as_mut_slice();
    mark_read(marks, aig, circuit.props(), inside.as_slice());
    mark_held(marks, aig, keep);
    Ok(count_marked(aig, inside.as_slice(), marks))
}
