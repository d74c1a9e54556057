//! A frame's circuit, with its tables of what passes and of what leaves.
ghost use Rattle.std.specs.Prelude.{◌≡◌, ◌+◌, ◌<◌, ◌≤◌, ℕ, false, IfOk, length, drop};
ghost use Rattle.std.specs.List.{slice_index_or};
ghost use Rattle.aig_graph.specs.Tables.{table};
ghost use Rattle.aig_graph.specs.Graph.{first_latch, first_gate, latches_and_gates};
ghost use Rattle.aig_graph.specs.declared.literal.TheConstants.{MAX_VARIABLES};
ghost use Rattle.frame_net.specs.Passable.{is_passable, IsPassSet};
ghost use Rattle.frame_net.specs.Capacity.{is_observed};

use aig_graph::{Circuit, Keep, NoMemory};
use frame_net::{PassSet, leaving_marks, passable};
use std::alloc::Global;

/// Returns the marks from `place` on.
fn marks_from(marks: &[bool], place: usize) -> &[bool]
    requires { place ≤ length marks.now }
    ensures { result.now ≡ drop place marks.now }
{
    &marks[place..]
}

/// A circuit and its held latches, with its passable gates, and with marks from the first latch on:
/// `leaving` has what is held or read from outside of these gates.
#[derive(Drop)]
pub struct Frame<'a> {
    pub circuit: &'a Circuit,
    pub keep: &'a Keep,
    pub pass: PassSet,
    pub leaving: Vec<bool>,
    ghost pass_is: { IsPassSet circuit.now.aig keep.now pass },
    ghost leaving_are: { leaving.items ≡ table (first_latch circuit.now.aig)
        (latches_and_gates circuit.now.aig) (is_observed circuit.now.aig circuit.now.props
        keep.now) },
}

impl<'a> Frame<'a> {
    /// Returns a circuit's frame, with its passable gates and its marks.
    ///
    /// # Errors
    ///
    /// `NoMemory` if a table is refused.
    pub fn new(alloc: Global, circuit: &'a Circuit, keep: &'a Keep) -> Result<Frame<'a>, NoMemory>
        ensures circuit { IfOk result (λ frame. frame.circuit.now ≡ circuit.now) }
        ensures held { IfOk result (λ frame. frame.keep.now ≡ keep.now) }
    {
        let pass = passable(alloc, circuit.aig(), keep)?;
        let leaving = leaving_marks(alloc, circuit.aig(), circuit.props(), &pass, keep)?;
        Ok(Frame {
            circuit,
            keep,
            pass,
            leaving,
        })
    }

    /// Returns the passable gates.
    pub fn passable(&self) -> &PassSet
        ensures { IsPassSet self.now.circuit.now.aig self.now.keep.now result.now }
    {
        &self.pass
    }

    /// Returns the marks, from the first latch on, of what is held or read from outside of the
    /// passable gates.
    pub fn leaving_marks(&self) -> &[bool]
        ensures { result.now ≡ table (first_latch self.now.circuit.now.aig)
            (latches_and_gates self.now.circuit.now.aig) (is_observed self.now.circuit.now.aig
            self.now.circuit.now.props self.now.keep.now) }
    {
        self.leaving.as_slice()
    }

    /// Returns by gate number if each gate is passable.
    pub(crate) fn passing_gates(&self) -> &[bool]
        ensures len { length result.now ≡ length self.now.circuit.now.aig.gates }
        ensures each { (k : ℕ) → k < length self.now.circuit.now.aig.gates
            → slice_index_or result.now k false ≡ is_passable self.now.circuit.now.aig
            self.now.keep.now (first_gate self.now.circuit.now.aig + k) }
        ensures small { first_gate self.now.circuit.now.aig + length result.now ≤ MAX_VARIABLES }
    {
        marks_from(self.pass.marks(), self.circuit.aig().latches().len())
    }
}
