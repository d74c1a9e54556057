//! What becomes of each variable in a move (Hurst et al. 2007). A gate of the border gets a latch
//! at its output, and all that lies outside the set reads that in its place. Each gate of the set
//! becomes a copy that reads what the latches before it read. So the copy has at each step the
//! gate's value of one step later. Copies come last among the gates, since they may read any other.
ghost use Rattle.std.specs.Prelude.{◌≡◌, ◌*◌, ◌+◌, ◌<◌, ◌≤◌, IfOk, length, true, if◌then◌else◌, Some, None};
ghost use Rattle.aig_graph.specs.declared.literal.TheConstants.{MAX_VARIABLES};
ghost use Rattle.aig_graph.specs.Graph.{IsGraph, variable, variables_end, first_latch, latch_at};
ghost use Rattle.aig_graph.specs.Building.{gate_of};
ghost use Rattle.aig_graph.specs.Move.{move_of};
ghost use Rattle.aig_graph.specs.Counting.{count_below};
ghost use Rattle.aig_graph.specs.Marking.{has};
ghost use Rattle.rebuild.specs.Moved.{is_latched, copies_start, new_variable, copy_variable, moved_literal, advanced, advanced_literal, moved_graph};
ghost use Rattle.rebuild.specs.Entries.{by_variable};

use crate::marks::MarkedSet;
use crate::numbers::{advanced_literals, new_variables, renamed};
use crate::tables::MoveTables;
use aig_graph::{Aig, Gate, Latch, Lit, NoMemory, Reset, count_marks, entry};

/// What becomes of each variable of a circuit if latches move over a set. The tables begin at the
/// first latch.
#[derive(Drop)]
pub(crate) struct Plan<'a> {
    pub(crate) marks: MarkedSet<'a>,
    /// The variable that is read in its place from outside the set.
    variables: Vec<u32>,
    /// The literal that has now the value of one step later, for a latch or a member of the set.
    later: Vec<Lit>,
    ghost moved: { IsGraph (moved_graph (move_of marks.circuit.now marks.keep.now marks.set.now)) },
    ghost room: { copies_start (move_of marks.circuit.now marks.keep.now marks.set.now) + count_below (has marks.set.now) (variables_end marks.circuit.now.aig) ≤ MAX_VARIABLES },
    ghost variables_are: { variables.items ≡ by_variable marks.circuit.now.aig (new_variable (move_of marks.circuit.now marks.keep.now marks.set.now)) },
    ghost later_are: { later.items ≡ by_variable marks.circuit.now.aig (advanced (move_of marks.circuit.now marks.keep.now marks.set.now)) },
}

impl<'a> Plan<'a> {
    ghost use Rattle.rebuild.specs.Planned.{marked, planned};

    /// Returns the plan of these marks, in the memory of other tables.
    pub(crate) fn new(marks: MarkedSet<'a>, memory: MoveTables) -> Result<Plan<'a>, NoMemory>
        requires moved { IsGraph (moved_graph (marked marks)) }
        requires room { copies_start (marked marks) + count_below (has (marked marks).set)
            (variables_end (marked marks).circuit.aig) ≤ MAX_VARIABLES }
        ensures { IfOk result (λ plan. planned plan ≡ marked marks.entry) }
    {
        let gates_start = marks.first + count_marks(marks.latched.as_slice());
        let outside = marks.aig().gates().len() as u32 - count_marks(marks.members.as_slice());
        let first_copy = gates_start + outside;
        let MoveTables { numbers, literals } = memory;
        let variables = new_variables(numbers, &marks, gates_start)?;
        let later = advanced_literals(literals, &marks, variables.as_slice(), first_copy)?;
        Ok(Plan {
            marks,
            variables,
            later,
        })
    }

    /// Returns the tables.
    pub(crate) fn into_tables(self) -> MoveTables {
        let Plan {
            variables,
            later,
            ..
        } = self;
        MoveTables {
            numbers: variables,
            literals: later,
        }
    }

    /// Returns the graph before the move.
    pub(crate) fn aig(&self) -> &Aig
        ensures { result.now ≡ (planned self.now).circuit.aig }
    {
        self.marks.aig()
    }

    /// Returns the literal that is read in the place of `lit` from outside the set.
    pub(crate) fn literal(&self, lit: Lit) -> Lit
        requires { variable lit < variables_end (planned self.now).circuit.aig }
        ensures { result ≡ moved_literal (planned self.now) lit }
    {
        renamed(&self.marks, self.variables.as_slice(), lit)
    }

    /// Returns the literal of a member's copy.
    pub(crate) fn copy(&self, var: u32) -> Lit
        requires from { first_latch (planned self.now).circuit.aig ≤ var }
        requires within { var < variables_end (planned self.now).circuit.aig }
        requires member { has (planned self.now).set var ≡ true }
        ensures { result ≡ 2 * copy_variable (planned self.now) var }
    {
        entry(self.later.as_slice(), self.marks.first, var)
    }

    /// Returns the literal that copies read in the place of one of a latch or member.
    fn advanced_literal(&self, lit: Lit) -> Lit
        requires from { first_latch (planned self.now).circuit.aig ≤ variable lit }
        requires below { variable lit < variables_end (planned self.now).circuit.aig }
        ensures { result ≡ advanced_literal (planned self.now) lit }
    {
        entry(self.later.as_slice(), self.marks.first, lit.var()).signed_as(lit)
    }

    /// Returns a gate outside the set as it is after the move.
    pub(crate) fn gate(&self, gate: Gate) -> Gate
        requires first { variable gate.rhs0 < variables_end (planned self.now).circuit.aig }
        requires second { variable gate.rhs1 < variables_end (planned self.now).circuit.aig }
        ensures { result ≡ gate_of (moved_literal (planned self.now) gate.rhs0)
            (moved_literal (planned self.now) gate.rhs1) }
    {
        Gate::of(self.literal(gate.rhs0), self.literal(gate.rhs1))
    }

    /// Returns the copy of a gate of the set.
    pub(crate) fn copied_gate(&self, gate: Gate) -> Gate
        requires first_from { first_latch (planned self.now).circuit.aig ≤ variable gate.rhs0 }
        requires second_from { first_latch (planned self.now).circuit.aig ≤ variable gate.rhs1 }
        requires first { variable gate.rhs0 < variables_end (planned self.now).circuit.aig }
        requires second { variable gate.rhs1 < variables_end (planned self.now).circuit.aig }
        ensures { result ≡ gate_of (advanced_literal (planned self.now) gate.rhs0)
            (advanced_literal (planned self.now) gate.rhs1) }
    {
        let first = self.advanced_literal(gate.rhs0);
        let second = self.advanced_literal(gate.rhs1);
        Gate::of(first, second)
    }

    /// Returns a latch that stays as it is after the move.
    pub(crate) fn staying_latch(&self, var: u32, latch: Latch) -> Latch
        requires { latch_at (planned self.now).circuit.aig var ≡ Some latch }
        ensures { result ≡ record {
          next = moved_literal (planned self.now) latch.next;
          reset = latch.reset;
        } }
    {
        Latch {
            next: entry(self.later.as_slice(), self.marks.first, var),
            reset: latch.reset,
        }
    }

    /// Returns the latch at the output of a border gate, with its reset.
    pub(crate) fn border_latch(&self, var: u32, reset: Reset) -> Latch
        requires from { first_latch (planned self.now).circuit.aig ≤ var }
        requires within { var < variables_end (planned self.now).circuit.aig }
        requires member { has (planned self.now).set var ≡ true }
        ensures { result ≡ record {
          next = 2 * copy_variable (planned self.now) var;
          reset = reset;
        } }
    {
        Latch {
            next: self.copy(var),
            reset,
        }
    }

    /// Returns the position after the move of the latch at a position, if it stays.
    pub(crate) fn staying_position(&self, position: u32) -> Option<u32>
        requires { position < length (planned self.now).circuit.aig.latches }
        ensures { result ≡
            (if is_latched (planned self.now)
            (first_latch (planned self.now).circuit.aig + position)
            then Some (count_below (is_latched (planned self.now))
            (first_latch (planned self.now).circuit.aig + position))
            else None) }
    {
        let first = self.marks.first;
        if self.marks.is_latched(first + position) {
            Some(entry(self.variables.as_slice(), first, first + position) - first)
        } else {
            None
        }
    }
}
