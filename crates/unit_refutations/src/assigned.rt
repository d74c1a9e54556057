//! Literals that are known to be 1 in a question. Each question has a number, and a literal that is
//! 1 in it has that number as its mark. So nothing is taken back between two questions.
ghost use Rattle.std.specs.Prelude.{ℕ, ◌≡◌, ◌≤◌, ◌<◌, Bool, true, false, IfOk, Some};
ghost use Rattle.aig_graph.specs.Gates.{IsNegated};
ghost use Rattle.unit_refutations.specs.Assigned.{Holds};

use aig_graph::{Lit, NoMemory};
use std::alloc::Global;
use std::marker::Model;

/// By literal, the last question in which it was 1. Also the literals of the question that was
/// begun last, in the order in which they were found.
pub(crate) struct Assigned {
    question: u32,
    marks: Vec<u32>,
    trail: Vec<Lit>,
}

impl Drop for Assigned {
    // written out: docs/PROOFS.md, Drops and exits
    fn drop(self) {
        let Assigned {
            question: _question,
            marks: _marks,
            trail: _trail,
        } = self;
    }
}

impl Model for Assigned {
    ghost use Rattle.unit_refutations.specs.Assigned.{Table, IsUpTo};

    ghost Value = { Table };

    ghost view = { λ a. record { question = a.question; marks = a.marks.items } };

    ghost invariant = { λ a. IsUpTo a.question a.marks.items };
}

impl Assigned {
    /// Returns a state of no question yet, of `variables` variables.
    pub(crate) fn of(alloc: Global, variables: usize) -> Result<Assigned, NoMemory>
        requires { variables ≤ 268435456 }
    {
        let marks = vec![in alloc; 0u32; 2 * variables]?;
        Ok(Assigned {
            question: 0,
            marks,
            trail: Vec::new(alloc),
        })
    }

    /// Begins a question, in which nothing is known. Whether there is a number left for it.
    pub(crate) fn begin(&mut self) -> bool
        ensures { result ≡ true → (values : ℕ → Bool) → Holds self.new values }
    {
        if self.question == u32::MAX {
            return false;
        }
        self.question += 1;
        self.trail.clear();
        true
    }

    /// Returns true if a literal is known to be 1.
    pub(crate) fn is_one(&self, lit: Lit) -> bool
        ensures { result ≡ true → (values : ℕ → Bool) → Holds self.now values → values lit ≡ true }
    {
        match self.marks.get(lit.code() as usize) {
            Some(mark) => *mark == self.question,
            None => false,
        }
    }

    /// Takes a literal for 1. Whether it is known to be 0.
    pub(crate) fn assume(&mut self, lit: Lit) -> Result<bool, NoMemory>
        ensures { IfOk result (λ clash. (values : ℕ → Bool) → IsNegated values → values lit ≡ true
            → Holds self.old values → (clash ≡ false) × Holds self.new values) }
    {
        if self.is_one(lit.not()) {
            return Ok(true);
        }
        let place = lit.code() as usize;
        if place < self.marks.len() && self.marks[place] != self.question {
            self.trail.push(lit)?;
            self.marks[place] = self.question;
        }
        Ok(false)
    }

    /// Returns the literals that are known to be 1, in the order in which they were found.
    pub(crate) fn trail(&self) -> &[Lit] {
        self.trail.as_slice()
    }
}
