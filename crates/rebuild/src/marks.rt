//! A closed set beside the marks of its move. The ghost fields say what the tables are, so
//! functions over a `MarkedSet` need no premise.
ghost use Rattle.std.specs.Prelude.{◌≡◌, ◌<◌, ◌≤◌};
ghost use Rattle.aig_graph.specs.Graph.{IsGraph, first_latch, variables_end};
ghost use Rattle.aig_graph.specs.Circuits.{IsNetlist};
ghost use Rattle.aig_graph.specs.Closed.{IsClosedSet};
ghost use Rattle.aig_graph.specs.Move.{move_of};
ghost use Rattle.aig_graph.specs.Marking.{has};
ghost use Rattle.rebuild.specs.Moved.{is_latched};
ghost use Rattle.rebuild.specs.Members.{AreFanInsIn, ArePassable};
ghost use Rattle.rebuild.specs.Entries.{by_variable};

use crate::marking::MoveMarks;
use aig_graph::{Aig, Circuit, ClosedSet, Keep, entry};

/// A closed set of a circuit, with marks of its members and of the variables that have a latch
/// after the move. The tables begin at the first latch.
#[derive(Drop)]
pub(crate) struct MarkedSet<'a> {
    pub(crate) circuit: &'a Circuit,
    pub(crate) keep: &'a Keep,
    pub(crate) set: &'a ClosedSet,
    /// The variable of the first latch.
    pub(crate) first: u32,
    pub(crate) members: Vec<bool>,
    pub(crate) latched: Vec<bool>,
    ghost first_is: { first ≡ first_latch circuit.now.aig },
    ghost graph: { IsGraph circuit.now.aig },
    ghost netlist: { IsNetlist circuit.now },
    ghost passable: { ArePassable circuit.now.aig keep.now set.now },
    ghost fan_ins: { AreFanInsIn circuit.now.aig set.now },
    ghost members_are: { members.items ≡ by_variable circuit.now.aig (has set.now) },
    ghost latched_are: { latched.items ≡ by_variable circuit.now.aig (is_latched (move_of circuit.now keep.now set.now)) },
}

impl<'a> MarkedSet<'a> {
    ghost use Rattle.rebuild.specs.Marked.{AreMarksOf};
    ghost use Rattle.rebuild.specs.Planned.{marked};

    pub(crate) fn new(
        circuit: &'a Circuit,
        set: &'a ClosedSet,
        keep: &'a Keep,
        marks: MoveMarks,
    ) -> MarkedSet<'a>
        requires closed { IsClosedSet circuit.now.aig keep.now set.now }
        requires marked { AreMarksOf (move_of circuit.now keep.now set.now) marks }
        ensures { marked result ≡ move_of circuit.now keep.now set.now }
    {
        circuit.known();
        let first = circuit.aig().first_latch();
        MarkedSet {
            circuit,
            keep,
            set,
            first,
            members: marks.members,
            latched: marks.latched,
        }
    }

    /// Returns the graph before the move.
    pub(crate) fn aig(&self) -> &Aig
        ensures { result.now ≡ (marked self.now).circuit.aig }
    {
        self.circuit.aig()
    }

    /// Returns true if the latch or gate is in the set.
    pub(crate) fn has(&self, var: u32) -> bool
        requires from { first_latch (marked self.now).circuit.aig ≤ var }
        requires below { var < variables_end (marked self.now).circuit.aig }
        ensures { result ≡ has (marked self.now).set var }
    {
        entry(self.members.as_slice(), self.first, var)
    }

    /// Returns true if the latch or gate has a latch after the move.
    pub(crate) fn is_latched(&self, var: u32) -> bool
        requires from { first_latch (marked self.now).circuit.aig ≤ var }
        requires below { var < variables_end (marked self.now).circuit.aig }
        ensures { result ≡ is_latched (marked self.now) var }
    {
        entry(self.latched.as_slice(), self.first, var)
    }
}
