//! The latches and gates that the properties and the held latches depend on. They are found by a
//! sweep over the gates from the last to the first, and a walk. Fan-ins come before their gates. So
//! a gate that a property or a later gate reads is marked when the sweep comes to it. It needn't
//! wait; latches do. The walk reads the waiting variables, the last one first: the gates behind a
//! latch's next literal lie close together.
ghost use Rattle.std.specs.Prelude.{◌≡◌, ◌+◌, ◌*◌, ◌<◌, ◌≤◌, ◌∷◌, All, IfOk, OnOk, MatchOption, [], length, map};
ghost use Rattle.std.specs.List.{flat_map};
ghost use Rattle.aig_graph.specs.Graph.{variable, first_latch, variables_end, IsLiteralOf, latch_at};
ghost use Rattle.aig_graph.specs.Streams.{property_literals};
ghost use Rattle.aig_graph.specs.Mapped.{OfProps};
ghost use Rattle.cleaned_circuits.specs.Reached.{AreReached};
ghost use Rattle.clean.specs.Sweep.{front_end, no_front, is_marked, with_next, reach, reach_in_sweep, reach_all, reads_of};

use aig_graph::{Aig, Gate, Lit, NoMemory, Props, Sequence, mark_at};
use std::alloc::Global;
use std::marker::Model;

/// The latches and gates that are reached. There is a mark for each variable from the first latch
/// on. The marked variables that wait to be read are in a list, the next one last. A variable waits
/// once at most, so the walk is linear.
pub(crate) struct Reached {
    first: u32,
    latches: usize,
    marks: Vec<bool>,
    waiting: Vec<u32>,
}

impl Drop for Reached {
    // written out: docs/PROOFS.md, Drops and exits
    fn drop(self) {
        let Reached {
            first: _first,
            latches: _latches,
            marks: _marks,
            waiting: _waiting,
        } = self;
    }
}

impl Model for Reached {
    ghost use Rattle.std.specs.Prelude.{◌+◌, ◌≤◌, ◌^◌, length, reverse};
    ghost use Rattle.clean.specs.Sweep.{Front};

    ghost Value = { Front };

    ghost view = { λ r. record {
      first = r.first;
      latches = r.latches;
      marks = r.marks.items;
      waiting = reverse r.waiting.items;
    } };

    ghost invariant = { λ r. r.first + length r.marks.items ≤ 2 ^ 28 };
}

impl Reached {
    /// Returns marks of none of a graph's latches and gates.
    fn none(alloc: Global, aig: &Aig) -> Result<Reached, NoMemory>
        ensures { IfOk result (λ r. r ≡ no_front aig.now) }
    {
        let latches = aig.latches().len();
        let marks = vec![in alloc; false; aig.latches_and_gates()]?;
        let waiting = Vec::new(alloc);
        Ok(Reached {
            first: aig.first_latch(),
            latches,
            marks,
            waiting,
        })
    }

    /// Marks the literal's variable and lets it wait, if it is a latch or a gate and isn't marked.
    fn reach(&mut self, lit: Lit) -> Result<(), NoMemory>
        requires { variable lit < front_end self.old }
        ensures { OnOk result (self.new ≡ reach self.old (variable lit)) }
    {
        let var = lit.var();
        if var < self.first {
            return Ok(());
        }
        let place = (var - self.first) as usize;
        if !self.marks[place] {
            self.waiting.push(var)?;
            self.marks[place] = true;
        }
        Ok(())
    }

    /// Marks the literal's variable before the sweep has come to it: a latch waits, a gate is
    /// marked alone.
    fn reach_in_sweep(&mut self, lit: Lit) -> Result<(), NoMemory>
        requires { variable lit < front_end self.old }
        ensures { OnOk result (self.new ≡ reach_in_sweep self.old (variable lit)) }
    {
        let var = lit.var();
        if var < self.first {
            return Ok(());
        }
        let place = (var - self.first) as usize;
        if place < self.latches {
            return self.reach(lit);
        }
        self.marks[place] = true;
        Ok(())
    }

    fn reach_all(&mut self, lits: &Sequence<Lit>) -> Result<(), NoMemory>
        requires { All (λ lit. variable lit < front_end self.old) lits.now }
        ensures { OnOk result (self.new ≡ reach_all reach_in_sweep self.old lits.now) }
    {
        for lit in lits.as_slice() {
            self.reach_in_sweep(*lit)?;
        }
        Ok(())
    }

    fn reach_justice(&mut self, justice: &Sequence<Sequence<Lit>>) -> Result<(), NoMemory>
        requires { All (λ lits. All (λ lit. variable lit < front_end self.old) lits) justice.now }
        ensures { OnOk result (self.new ≡ reach_all reach_in_sweep self.old
            (flat_map (λ lits. lits) justice.now)) }
    {
        for lits in justice.as_slice() {
            self.reach_all(lits)?;
        }
        Ok(())
    }

    /// Reaches what the properties read, before the sweep.
    fn reach_props(&mut self, props: &Props) -> Result<(), NoMemory>
        requires { OfProps (λ lit. variable lit < front_end self.old) props.now }
        ensures { OnOk result (self.new ≡ reach_all reach_in_sweep self.old
            (property_literals props.now)) }
    {
        self.reach_all(&props.outputs)?;
        self.reach_all(&props.bad)?;
        self.reach_all(&props.constraints)?;
        self.reach_justice(&props.justice)?;
        self.reach_all(&props.fairness)?;
        Ok(())
    }

    /// Reaches the latches at these positions.
    fn reach_held(&mut self, held: &[u32]) -> Result<(), NoMemory>
        requires { All (λ j. self.old.first + j < front_end self.old) held.now }
        ensures { OnOk result (self.new ≡ reach_all reach self.old
            (map (λ j. 2 * (self.old.first + j)) held.now)) }
    {
        let first = self.first;
        for position in held {
            self.reach(Lit::new(first + *position, false))?;
        }
        Ok(())
    }

    /// Returns true if the gate at a place among the gates is reached.
    fn has_gate(&self, place: usize) -> bool
        requires { self.now.latches + place < length self.now.marks }
        ensures { result ≡ is_marked self.now (self.now.first + self.now.latches + place) }
    {
        self.marks[self.latches + place]
    }

    /// Reaches what a gate reads, when the sweep has come to it.
    fn read_gate(&mut self, gate: Gate) -> Result<(), NoMemory>
        requires larger { variable gate.rhs0 < front_end self.old }
        requires smaller { variable gate.rhs1 < front_end self.old }
        ensures { OnOk result (self.new ≡ reach_all reach_in_sweep self.old
            (gate.rhs0 ∷ gate.rhs1 ∷ [])) }
    {
        self.reach_in_sweep(gate.rhs0)?;
        self.reach_in_sweep(gate.rhs1)?;
        Ok(())
    }

    /// Reaches what the latch or the gate at a variable reads.
    fn read(&mut self, aig: &Aig, var: u32) -> Result<(), NoMemory>
        requires { All (λ lit. variable lit < front_end self.old) (reads_of aig.now var) }
        ensures { OnOk result (self.new ≡ reach_all reach self.old (reads_of aig.now var)) }
    {
        if let Some(gate) = aig.gate(var) {
            self.reach(gate.rhs0)?;
            self.reach(gate.rhs1)?;
        } else if let Some(latch) = aig.latch(var) {
            self.reach(latch.next)?;
        }
        Ok(())
    }

    /// Takes the next variable that waits.
    fn next(&mut self) -> Option<u32>
        ensures { MatchOption result ((self.old.waiting ≡ []) × (self.new ≡ self.old))
            (λ var. self.old ≡ with_next self.new var) }
    {
        self.waiting.pop()
    }

    /// Returns the marks of what is reached, by variable from the first latch on.
    pub(crate) fn into_marks(self) -> Vec<bool> {
        let Reached {
            first: _first,
            latches: _latches,
            marks,
            waiting: _waiting,
        } = self;
        marks
    }

    /// Returns true if the latch or the gate at a variable is reached.
    pub(crate) fn has(&self, var: u32) -> bool
        ensures { result ≡ is_marked self.now var }
    {
        mark_at(self.marks.as_slice(), self.first, var)
    }
}

/// Returns what the held latches and the properties depend on.
pub(crate) fn reach_everything(
    alloc: Global,
    aig: &Aig,
    props: &Props,
    held: &[u32],
) -> Result<Reached, NoMemory>
    requires held { All (λ j. j < length aig.now.latches) held.now }
    requires props { OfProps (IsLiteralOf aig.now) props.now }
    ensures reached { IfOk result (λ r. AreReached aig.now props.now held.now (is_marked r)) }
    ensures first { IfOk result (λ r. r.first ≡ first_latch aig.now) }
    ensures long { IfOk result (λ r. front_end r ≡ variables_end aig.now) }
{
    let mut reached = Reached::none(alloc, aig)?;
    reached.reach_held(held)?;
    reached.reach_props(props)?;
    let gates = aig.gates();
    for place in (0..gates.len()).rev() {
        if reached.has_gate(place) {
            reached.read_gate(gates[place])?;
        }
    }
    while let Some(var) = reached.next() {
        reached.read(aig, var)?;
    }
    Ok(reached)
}
