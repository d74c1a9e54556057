//! The passable gates, in one pass: fan-ins come before their gates, so it is known if they are
//! passable when a gate is met.
ghost use Rattle.std.specs.Prelude.{ℕ, List, ◌≡◌, ◌&&◌, ◌||◌, ◌↔◌, ◌≤◌, IsTrue, IfOk, OnOk, length};
ghost use Rattle.aig_graph.specs.Tables.{table};
ghost use Rattle.aig_graph.specs.Marking.{mark_at};
ghost use Rattle.aig_graph.specs.Graph.{Graph, variable, first_latch, latches_and_gates};
ghost use Rattle.aig_graph.specs.Closed.{IsPassable, may_move};
ghost use Rattle.aig_graph.specs.declared.literal.TheConstants.{MAX_VARIABLES};
ghost use Rattle.frame_net.specs.Passable.{is_passable, passable_gates, IsPassSet};

use aig_graph::{Aig, Gate, Keep, NoMemory, count_marks, mark_at};
use std::alloc::Global;

/// The passable gates of a graph, by a table from the first latch on. Inputs, of which a short file
/// can have hundreds of millions, have no entry.
pub struct PassSet {
    first: u32,
    marks: Vec<bool>,
    count: u32,
}

impl Drop for PassSet {
    // written out: docs/PROOFS.md, Drops and exits
    fn drop(self) {
        let PassSet {
            first: _first,
            marks: _marks,
            count: _count,
        } = self;
    }
}

impl PassSet {
    /// Returns true if the variable is a passable gate.
    pub fn has(&self, var: u32) -> bool
        ensures value { result ≡ mark_at self.now.first self.now.marks.items var }
        ensures passable { (g : Graph) (held : List ℕ) → IsPassSet g held self.now
            → (IsTrue result ↔ IsPassable g held var) }
    {
        mark_at(self.marks.as_slice(), self.first, var)
    }

    /// Returns the number of passable gates.
    pub fn count(&self) -> u32
        ensures value { result ≡ self.now.count }
        ensures passable { (g : Graph) (held : List ℕ) → IsPassSet g held self.now
            → result ≡ length (passable_gates g held) }
    {
        self.count
    }

    /// Returns the marks of the passable gates, from the first latch on.
    pub fn marks(&self) -> &[bool]
        ensures { result.now ≡ self.now.marks.items }
    {
        self.marks.as_slice()
    }
}

/// Returns true if the variable is a marked gate or a known latch that isn't held.
fn is_settled(marks: &[bool], aig: &Aig, keep: &Keep, var: u32) -> bool
    ensures { result ≡ (mark_at (first_latch aig.now) marks.now var || may_move aig.now
        keep.now var) }
{
    mark_at(marks, aig.first_latch(), var) || keep.may_move(aig, var)
}

fn rests_on_settled(marks: &[bool], aig: &Aig, keep: &Keep, gate: Gate) -> bool
    ensures { result ≡ ((mark_at (first_latch aig.now) marks.now
        (variable gate.rhs0) || may_move aig.now keep.now (variable gate.rhs0))
        && (mark_at (first_latch aig.now) marks.now (variable gate.rhs1)
        || may_move aig.now keep.now (variable gate.rhs1))) }
{
    is_settled(marks, aig, keep, gate.rhs0.var()) && is_settled(marks, aig, keep, gate.rhs1.var())
}

/// Returns the marks of the latches, which are no gates, with room for those of the gates.
fn latch_marks(alloc: Global, aig: &Aig) -> Result<Vec<bool>, NoMemory>
    ensures { IfOk result (λ marks. (held : List ℕ)
        → marks.items
        ≡ table (first_latch aig.now) (length aig.now.latches) (is_passable aig.now held)) }
{
    let mut marks = Vec::with_capacity(alloc, aig.latches_and_gates())?;
    for _latch in aig.latches() {
        marks.push(false)?;
    }
    Ok(marks)
}

/// Appends the marks of the gates. Fan-ins come before their gates, so their marks are there.
fn push_gates(marks: &mut Vec<bool>, aig: &Aig, keep: &Keep) -> Result<(), NoMemory>
    requires { marks.old.items ≡ table (first_latch aig.now) (length aig.now.latches)
        (is_passable aig.now keep.now) }
    ensures filled { OnOk result (marks.new.items ≡ table (first_latch aig.now)
        (latches_and_gates aig.now) (is_passable aig.now keep.now)) }
    ensures small { latches_and_gates aig.now ≤ MAX_VARIABLES }
{
    for gate in aig.gates() {
        let passes = rests_on_settled(marks.as_slice(), aig, keep, *gate);
        marks.push(passes)?;
    }
    Ok(())
}

/// Returns the passable gates: those of which each fan-in's variable is a known latch that isn't
/// held, or a passable gate. Linear in the latches and gates, but for a search among the held
/// latches.
pub fn passable(alloc: Global, aig: &Aig, keep: &Keep) -> Result<PassSet, NoMemory>
    ensures { IfOk result (λ pass. IsPassSet aig.now keep.now pass) }
{
    let mut marks = latch_marks(alloc, aig)?;
    push_gates(&mut marks, aig, keep)?;
    let count = count_marks(marks.as_slice());
    Ok(PassSet {
        first: aig.first_latch(),
        marks,
        count,
    })
}
