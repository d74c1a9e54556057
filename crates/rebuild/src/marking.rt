//! The marks of latches after a move over a closed set. They follow from the marks of the set's
//! members, and of what is held or read from outside it.
ghost use Rattle.std.specs.Prelude.{◌≡◌, ◌<◌, ◌||◌, ◌&&◌, All, IfOk, length};
ghost use Rattle.aig_graph.specs.Graph.{first_latch, is_free, latches_and_gates};
ghost use Rattle.aig_graph.specs.Closed.{is_held, IsClosedSet};
ghost use Rattle.aig_graph.specs.Border.{border_size, is_read_outside};
ghost use Rattle.aig_graph.specs.Move.{Move, move_of};
ghost use Rattle.aig_graph.specs.Marking.{mark_at, Marks};
ghost use Rattle.rebuild.specs.Entries.{by_variable, latched_by};

use crate::ranks::ranks_of;
use aig_graph::{
    Aig, Circuit, ClosedSet, Keep, Latch, NoMemory, Props, Reset, count_marks, mark_held,
    mark_read, marks_of,
};
use std::alloc::Global;

/// The marks of a move over a closed set: the variables in the set, and those that have a latch
/// after the move. They are made once, for the size of the border and for `moved_by`. The tables
/// begin at the first latch.
#[derive(Drop)]
pub struct MoveMarks {
    pub(crate) members: Vec<bool>,
    pub(crate) latched: Vec<bool>,
    border: u32,
}

/// Marks the variables that are read from outside the set, and those of held latches.
#[tactic(auto, using(crate::proofs::PlanLaws::marks_in_turn))]
fn mark_read_or_held(marks: &mut [bool], aig: &Aig, props: &Props, inside: &[bool], keep: &Keep)
    ensures { Marks (first_latch aig.now) marks.old marks.new
        (λ v. is_read_outside aig.now props.now (mark_at (first_latch aig.now) inside.now) v
        || is_held aig.now keep.now v) }
{
    mark_read(marks, aig, props, inside);
    mark_held(marks, aig, keep);
}

/// Returns true if a latch stays: if it is free, held, or read from outside the set.
fn stays(latch: &Latch, held_or_read: bool) -> bool
    ensures { result ≡ (is_free latch.now || held_or_read) }
{
    latch.reset == Reset::Free || held_or_read
}

/// Returns true if a gate gets a latch: if it is in the set and read from outside.
fn is_border(inside: bool, read: bool) -> bool
    ensures { result ≡ (inside && read) }
{
    inside && read
}

/// Marks the variables that have a latch after the move, by the marks of the set and of what is
/// held or read from outside.
fn latched_marks(
    alloc: Global,
    aig: &Aig,
    inside: &[bool],
    marks: &[bool],
) -> Result<Vec<bool>, NoMemory>
    requires inside { length inside.now ≡ latches_and_gates aig.now }
    requires marks { length marks.now ≡ latches_and_gates aig.now }
    ensures { IfOk result (λ latched. latched.items
        ≡ by_variable aig.now (latched_by aig.now inside.now marks.now)) }
{
    let latches = aig.latches();
    let mut latched = Vec::with_capacity(alloc, marks.len())?;
    for (k, latch) in latches.iter().enumerate() {
        latched.push_reserved(stays(latch, marks[k]));
    }
    for k in latches.len()..marks.len() {
        latched.push_reserved(is_border(inside[k], marks[k]));
    }
    Ok(latched)
}

impl MoveMarks {
    ghost use Rattle.rebuild.specs.Marked.{AreMarksOf};
    ghost use Rattle.rebuild.specs.Moved.{is_latched, moved_graph, moved_held};
    ghost use Rattle.aig_graph.specs.Marking.{has};

    /// Makes the marks of a closed set's move. Linear in the circuit; inputs cost nothing.
    pub fn new(
        alloc: Global,
        circuit: &Circuit,
        set: &ClosedSet,
        keep: &Keep,
    ) -> Result<MoveMarks, NoMemory>
        requires { IsClosedSet circuit.now.aig keep.now set.now }
        ensures { IfOk result (λ marks. AreMarksOf (move_of circuit.now keep.now set.now) marks) }
    {
        let aig = circuit.aig();
        let entries = aig.latches_and_gates();
        let members = marks_of(alloc, aig.first_latch(), entries, set.vars())?;
        let mut held_or_read = vec![in alloc; false; entries]?;
        let marks = held_or_read.as_mut_slice();
        mark_read_or_held(marks, aig, circuit.props(), members.as_slice(), keep);
        let latched = latched_marks(alloc, aig, members.as_slice(), marks)?;
        let border = count_marks(latched.as_slice()) - aig.free_latches();
        Ok(MoveMarks {
            members,
            latched,
            border,
        })
    }

    /// Returns the marks of the set's members, from the first latch on.
    pub fn members(&self) -> &[bool]
        ensures { (m : Move) → AreMarksOf m self.now
            → result.now ≡ by_variable m.circuit.aig (has m.set) }
    {
        self.members.as_slice()
    }

    /// Returns the marks of the variables that have a latch after the move, from the first latch
    /// on.
    pub fn latched(&self) -> &[bool]
        ensures { (m : Move) → AreMarksOf m self.now
            → result.now ≡ by_variable m.circuit.aig (is_latched m) }
    {
        self.latched.as_slice()
    }

    /// Returns the held latches by their positions after the move. Takes time in the latches up to
    /// the last held one. If none is held, it takes no time and no memory.
    ///
    /// # Errors
    ///
    /// Memory is refused.
    pub fn held_after(
        &self,
        alloc: Global,
        circuit: &Circuit,
        set: &ClosedSet,
        keep: &Keep,
    ) -> Result<Keep, NoMemory>
        requires closed { IsClosedSet circuit.now.aig keep.now set.now }
        requires marked { AreMarksOf (move_of circuit.now keep.now set.now) self.now }
        requires in_range { All (λ j. j < length circuit.now.aig.latches) keep.now }
        ensures value { IfOk result (λ after. after
            ≡ moved_held (move_of circuit.now keep.now set.now)) }
        ensures in_range { IfOk result (λ after. All (λ j. j < length (moved_graph
            (move_of circuit.now keep.now set.now)).latches) after) }
    {
        let positions = keep.positions();
        if positions.is_empty() {
            return Ok(Keep::none());
        }
        let ranks = ranks_of(alloc, self.latched.as_slice(), positions)?;
        Ok(Keep::new(ranks))
    }

    /// Returns the size of the set's border, which is the number of known latches after the move.
    pub fn border_size(&self) -> u32
        ensures { (m : Move) → AreMarksOf m self.now → result ≡ border_size m }
    {
        self.border
    }
}
