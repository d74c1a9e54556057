//! The substitute of each variable, in both steps of a pass: the literals after merging, and the
//! new numbers of what is kept. A table grows as the graph is walked, so a gate's fan-ins have
//! their entries before the gate is met.
ghost use Rattle.std.specs.Prelude.{◌≡◌, ◌+◌, ◌<◌, ◌≤◌, ◌^◌, ◌++◌, ◌∷◌, [], IfOk, OnOk, length};
ghost use Rattle.aig_graph.specs.Graph.{variable};
ghost use Rattle.cleaned_circuits.specs.Merged.{replaced, replaced_gate, replaced_latch};
ghost use Rattle.clean.specs.Substitutions.{own_literals};

use aig_graph::{Gate, Latch, Lit, NoMemory, Substitute};
use std::alloc::Global;
use std::marker::Model;

/// A literal for each variable. The variables before the first latch, the constant and the inputs,
/// are their own substitutes and take no room. A circuit may have 2^28 - 1 inputs and nothing else.
pub struct Substitution {
    first: u32,
    literals: Vec<Lit>,
}

impl Drop for Substitution {
    // written out: docs/PROOFS.md, Drops and exits
    fn drop(self) {
        let Substitution {
            first: _first,
            literals: _literals,
        } = self;
    }
}

impl Model for Substitution {
    ghost use Rattle.std.specs.Prelude.{List, ℕ, ◌+◌, ◌≤◌, ◌^◌, length};
    ghost use Rattle.clean.specs.Substitutions.{from_first};

    ghost Value = { List ℕ };

    ghost view = { λ s. from_first s.first s.literals.items };

    ghost invariant = { λ s. s.first + length s.literals.items ≤ 2 ^ 28 };
}

impl Substitution {
    /// Returns a table of the variables before `first`, with room for `room` more.
    pub fn new(alloc: Global, first: u32, room: usize) -> Result<Substitution, NoMemory>
        requires { first ≤ 2 ^ 28 }
        ensures { IfOk result (λ s. s ≡ own_literals first) }
    {
        let literals = Vec::with_capacity(alloc, room)?;
        Ok(Substitution { first, literals })
    }

    /// Returns a table of no variable.
    pub(crate) fn none(alloc: Global) -> Substitution {
        Substitution {
            first: 0,
            literals: Vec::new(alloc),
        }
    }

    /// Begins the table anew with the variables before `first` and room for `room` more, in its own
    /// memory.
    pub(crate) fn renew(&mut self, first: u32, room: usize) -> Result<(), NoMemory>
        requires { first ≤ 2 ^ 28 }
        ensures { OnOk result (self.new ≡ own_literals first) }
    {
        self.literals.clear();
        self.first = first;
        self.literals.reserve(room)?;
        Ok(())
    }

    /// Returns the number of variables.
    pub(crate) fn len(&self) -> u32
        ensures long { result ≡ length self.now }
        ensures few { result ≤ 2 ^ 28 }
    {
        self.first + self.literals.len() as u32
    }

    /// Adds a literal for the next variable.
    pub fn push(&mut self, lit: Lit) -> Result<(), NoMemory>
        requires { length self.old < 2 ^ 28 }
        ensures { OnOk result (self.new ≡ self.old ++ lit ∷ []) }
    {
        self.literals.push(lit)?;
        Ok(())
    }

    /// Returns the substitute of a literal.
    pub fn literal(&self, lit: Lit) -> Lit
        requires { variable lit < length self.now }
        ensures { result ≡ replaced self.now lit }
    {
        let var = lit.var();
        if var < self.first {
            return lit;
        }
        self.literals[(var - self.first) as usize].signed_as(lit)
    }

    /// Returns the latch with the substitute of its next literal.
    pub(crate) fn latch(&self, latch: Latch) -> Latch
        requires { variable latch.next < length self.now }
        ensures { result ≡ replaced_latch self.now latch }
    {
        Latch {
            next: self.literal(latch.next),
            reset: latch.reset,
        }
    }

    /// Returns the gate with the substitutes of its literals.
    pub(crate) fn gate(&self, gate: Gate) -> Gate
        requires first { variable gate.rhs0 < length self.now }
        requires second { variable gate.rhs1 < length self.now }
        ensures { result ≡ replaced_gate self.now gate }
    {
        Gate::of(self.literal(gate.rhs0), self.literal(gate.rhs1))
    }
}

impl Substitute for Substitution {
    ghost use Rattle.std.specs.Prelude.{length};
    ghost use Rattle.cleaned_circuits.specs.Merged.{replaced};

    ghost known = { length };

    ghost literal_of = { replaced };

    fn literal(&self, lit: Lit) -> Lit {
        Substitution::literal(self, lit)
    }
}
