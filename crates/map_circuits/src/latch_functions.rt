//! The functions of latches stand at the front of a table that only grows. Behind them is room for
//! those of gates in a move. From move to move it is neither made nor cleared, and the functions of
//! latches are copied nowhere.
ghost use Rattle.std.specs.Prelude.{ℕ, ◌≡◌, ◌+◌, ◌≤◌, Bool, All, IfOk, OnOk, length, take};
ghost use Rattle.aig_graph.specs.Closed.{IsClosedSet};
ghost use Rattle.aig_graph.specs.Graph.{Graph, IsGraph, IsLiteralOf, first_latch};
ghost use Rattle.aig_graph.specs.Move.{move_of};
ghost use Rattle.rebuild.specs.Marked.{AreMarksOf};
ghost use Rattle.aig_graph.specs.Tables.{table};
ghost use Rattle.aig_graph.specs.Marking.{AreAllMarks};
ghost use Rattle.map_circuits.specs.Gathering.{IsGathered};
ghost use Rattle.map_circuits.specs.Growing.{Extends};
ghost use Rattle.map_circuits.specs.Stepping.{AreMoved, ArePassed};

use crate::errors::MapError;
use crate::gathering::gather_marked;
use crate::map_gates::MapGates;
use crate::moving::moved_front;
use aig_graph::{Circuit, ClosedSet, Keep, Lit};
use rebuild::MoveMarks;
use std::alloc::AllocError;
use std::marker::Model;

/// What each latch of a circuit holds: literals of gates over inputs alone.
#[derive(Drop)]
pub struct LatchFunctions {
    table: Vec<Lit>,
    count: usize,
}

impl Model for LatchFunctions {
    ghost use Rattle.std.specs.Prelude.{ℕ, ◌≤◌, List, length, take};

    ghost Value = { List ℕ };

    ghost view = { λ f. take f.count f.table.items };

    ghost invariant = { λ f. f.count ≤ length f.table.items };
}

/// Makes a table this long, if it is shorter. What is in it stays.
fn lengthen(table: &mut Vec<Lit>, long: usize) -> Result<(), AllocError>
    ensures long { OnOk result (long ≤ length table.new.items) }
    ensures longer { length table.old.items ≤ length table.new.items }
    ensures same { take (length table.old.items) table.new.items ≡ table.old.items }
{
    if table.len() < long {
        table.resize(long, Lit::FALSE)?;
    }
    Ok(())
}

/// Moves the marked ones of the first entries of a table to the front, and returns their number.
fn pass_front(table: &mut Vec<Lit>, count: usize, stays: &[bool]) -> usize
    requires within { count ≤ length table.old.items }
    requires many { length stays.now ≡ count }
    ensures long { length table.new.items ≡ length table.old.items }
    ensures few { result ≤ count }
    ensures gathered { (first : ℕ) (p : ℕ → Bool) → AreAllMarks first stays.now p
        → IsGathered first p (first + count) (take count table.old.items)
        (take count table.new.items) result }
{
    let entries = table.as_mut_slice();
    gather_marked(&mut entries[0..count], stays, count)
}

/// Puts the functions of the latches after a move at the front of a table that begins with those of
/// the latches before it. Returns their number. The table grows to have an entry for each latch and
/// gate.
fn move_front(
    table: &mut Vec<Lit>,
    gates: &mut MapGates,
    circuit: &Circuit,
    set: &ClosedSet,
    keep: &Keep,
    marks: &MoveMarks,
) -> Result<usize, MapError>
    requires graph { IsGraph gates.old }
    requires closed { IsClosedSet circuit.now.aig keep.now set.now }
    requires many { length circuit.now.aig.latches ≤ length table.old.items }
    requires within { All (λ lit. IsLiteralOf gates.old lit)
        (take (length circuit.now.aig.latches) table.old.items) }
    requires marked { AreMarksOf (move_of circuit.now keep.now set.now) marks.now }
    ensures longer { length table.old.items ≤ length table.new.items }
    ensures few { IfOk result (λ kept. kept ≤ length table.new.items) }
    ensures extends { OnOk result (Extends gates.old gates.new) }
    ensures moved { IfOk result (λ kept. AreMoved gates.old
        (take (length circuit.now.aig.latches) table.old.items)
        (move_of circuit.now keep.now set.now) gates.new (take kept table.new.items)) }
{
    let long = circuit.aig().latches_and_gates();
    lengthen(table, long)?;
    let entries = table.as_mut_slice();
    let kept = moved_front(gates, &mut entries[0..long], circuit, set, keep, marks)?;
    Ok(kept)
}

impl LatchFunctions {
    /// Returns the functions with these literals, one for each latch.
    pub fn of(literals: Vec<Lit>) -> LatchFunctions
        ensures { result ≡ literals.items }
    {
        let count = literals.len();
        LatchFunctions {
            table: literals,
            count,
        }
    }

    /// Returns the literals, by latch.
    pub fn as_slice(&self) -> &[Lit]
        ensures { result.now ≡ self.now }
    {
        &self.table.as_slice()[..self.count]
    }

    /// Returns the literals, by latch, as a list. None is copied.
    pub fn into_vec(self) -> Vec<Lit>
        ensures { result.items ≡ self }
    {
        let LatchFunctions { mut table, count } = self;
        table.truncate(count);
        table
    }

    /// Becomes the functions of the latches after a pass of cleaning, by marks of those that stay:
    /// each holds what it held. Linear; takes no memory.
    pub fn follow_pass(&mut self, stays: &[bool])
        requires { length stays.now ≡ length self.old }
        ensures { (g c : Graph) (reached : ℕ → Bool) → All (λ lit. IsLiteralOf g lit) self.old
            → stays.now ≡ table 0 (length c.latches) (λ j. reached (first_latch c + j))
            → ArePassed g self.old c reached self.new }
    {
        self.count = pass_front(&mut self.table, self.count, stays);
    }

    /// Becomes the functions of the latches after a move, by the marks of the move. A gate is added
    /// for each gate of the set. Linear in the latches and the set, but for the growth of the
    /// table; inputs cost nothing.
    ///
    /// # Errors
    ///
    /// `NoMemory` if memory is refused, `TooLarge` if there would be more gates than a graph may
    /// have. Some gates may then have been added, and the functions are no longer those of any
    /// latches.
    pub fn follow_move(
        &mut self,
        gates: &mut MapGates,
        circuit: &Circuit,
        set: &ClosedSet,
        keep: &Keep,
        marks: &MoveMarks,
    ) -> Result<(), MapError>
        requires graph { IsGraph gates.old }
        requires closed { IsClosedSet circuit.now.aig keep.now set.now }
        requires long { length self.old ≡ length circuit.now.aig.latches }
        requires within { All (λ lit. IsLiteralOf gates.old lit) self.old }
        requires marked { AreMarksOf (move_of circuit.now keep.now set.now) marks.now }
        ensures extends { OnOk result (Extends gates.old gates.new) }
        ensures moved { OnOk result (AreMoved gates.old self.old
            (move_of circuit.now keep.now set.now) gates.new self.new) }
    {
        self.count = move_front(&mut self.table, gates, circuit, set, keep, marks)?;
        Ok(())
    }
}
