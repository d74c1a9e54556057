//! A move of latches over a closed set: marks, then a plan of numbers, then the graph, the
//! properties and the symbols after it.
ghost use Rattle.std.specs.Prelude.{◌≡◌, ◌≤◌, IfOk};
ghost use Rattle.aig_graph.specs.declared.literal.TheConstants.{MAX_VARIABLES};
ghost use Rattle.aig_graph.specs.Graph.{known_latches};
ghost use Rattle.aig_graph.specs.Closed.{IsClosedSet};
ghost use Rattle.aig_graph.specs.Move.{move_of};
ghost use Rattle.aig_graph.specs.Border.{border_size};
ghost use Rattle.aig_graph.specs.Laws.{all_free};
ghost use Rattle.aig_graph.specs.Streams.{SameStreams};
ghost use Rattle.rebuild.specs.Marked.{AreMarksOf};
ghost use Rattle.rebuild.specs.Moved.{moved_of, moved_size};

use crate::graph::moved_graph;
use crate::marking::MoveMarks;
use crate::marks::MarkedSet;
use crate::names::moved_symbols;
use crate::plan::Plan;
use crate::properties::moved_props;
use crate::tables::MoveTables;
use aig_graph::{Circuit, ClosedSet, Keep, NoMemory};
use std::alloc::Global;

/// Moves the latches of a circuit forward over a closed set (Hurst et al. 2007). Each gate of the
/// set's border gets a latch at its output, with the gate's value at step 0 as reset. The gates of
/// the set read what the latches before them read. Every free latch and every held latch stays. A
/// known latch that isn't held is left out if nothing outside the set reads it. Linear in the
/// circuit; inputs cost nothing.
pub fn moved(
    alloc: Global,
    circuit: &Circuit,
    set: &ClosedSet,
    keep: &Keep,
) -> Result<Circuit, NoMemory>
    requires closed { IsClosedSet circuit.now.aig keep.now set.now }
    requires room { moved_size (move_of circuit.now keep.now set.now) ≤ MAX_VARIABLES }
    ensures value { IfOk result (λ after. after ≡ moved_of (move_of circuit.now keep.now set.now)) }
    ensures streams { IfOk result (λ after. SameStreams circuit.now after
        (all_free circuit.now.aig)) }
    ensures known { IfOk result (λ after. known_latches after.aig
        ≡ border_size (move_of circuit.now keep.now set.now)) }
{
    let marks = MoveMarks::new(alloc, circuit, set, keep)?;
    moved_by(alloc, circuit, set, keep, marks)
}

/// Moves the latches as [`moved`] does, by marks of this move that were made before.
pub fn moved_by(
    alloc: Global,
    circuit: &Circuit,
    set: &ClosedSet,
    keep: &Keep,
    marks: MoveMarks,
) -> Result<Circuit, NoMemory>
    requires closed { IsClosedSet circuit.now.aig keep.now set.now }
    requires room { moved_size (move_of circuit.now keep.now set.now) ≤ MAX_VARIABLES }
    requires marked { AreMarksOf (move_of circuit.now keep.now set.now) marks }
    ensures value { IfOk result (λ after. after ≡ moved_of (move_of circuit.now keep.now set.now)) }
    ensures streams { IfOk result (λ after. SameStreams circuit.now after
        (all_free circuit.now.aig)) }
    ensures known { IfOk result (λ after. known_latches after.aig
        ≡ border_size (move_of circuit.now keep.now set.now)) }
{
    moved_in(
        alloc,
        circuit,
        set,
        keep,
        marks,
        &mut MoveTables::none(alloc),
    )
}

/// Moves the latches as [`moved_by`] does, with its tables in the memory of others.
pub fn moved_in(
    alloc: Global,
    circuit: &Circuit,
    set: &ClosedSet,
    keep: &Keep,
    marks: MoveMarks,
    tables: &mut MoveTables,
) -> Result<Circuit, NoMemory>
    requires closed { IsClosedSet circuit.now.aig keep.now set.now }
    requires room { moved_size (move_of circuit.now keep.now set.now) ≤ MAX_VARIABLES }
    requires marked { AreMarksOf (move_of circuit.now keep.now set.now) marks }
    ensures value { IfOk result (λ after. after ≡ moved_of (move_of circuit.now keep.now set.now)) }
    ensures streams { IfOk result (λ after. SameStreams circuit.now after
        (all_free circuit.now.aig)) }
    ensures known { IfOk result (λ after. known_latches after.aig
        ≡ border_size (move_of circuit.now keep.now set.now)) }
{
    let marked = MarkedSet::new(circuit, set, keep, marks);
    let plan = Plan::new(marked, tables.take(alloc))?;
    let aig = moved_graph(alloc, &plan)?;
    let props = moved_props(alloc, &plan)?;
    let symbols = moved_symbols(alloc, &plan)?;
    *tables = plan.into_tables();
    Ok(Circuit::new(aig, props, symbols))
}
