//! The first of equal latches, by a hash table over next literal and reset.
ghost use Rattle.std.specs.Prelude.{◌≡◌, ◌++◌, ◌∷◌, [], None, OnOk, IfOk};
ghost use Rattle.std.specs.Map.{lookup};
ghost use Rattle.cleaned_circuits.specs.Latches.{same_latch};
ghost use Rattle.cleaned_circuits.specs.Merged.{substitute_or_own};
ghost use Rattle.clean.specs.Firsts.{entries_after};

use aig_graph::{Latch, Lit, NoMemory};
use indexmap::IndexMap;
use std::alloc::Global;
use std::marker::Model;

/// The first latch of each next literal and reset, with its literal.
pub(crate) struct FirstLatches {
    literals: IndexMap<Latch, Lit>,
}

impl Drop for FirstLatches {
    // written out: docs/PROOFS.md, Drops and exits
    fn drop(self) {
        let FirstLatches {
            literals: _literals,
        } = self;
    }
}

impl Model for FirstLatches {
    ghost use Rattle.std.specs.Prelude.{List, ℕ};
    ghost use Rattle.aig_graph.specs.declared.graph.Latch.{Latch};

    ghost Value = { List (Latch × ℕ) };

    ghost view = { λ f. f.literals.entries };
}

impl FirstLatches {
    /// Returns a table of no latches.
    pub(crate) fn new(alloc: Global) -> FirstLatches
        ensures { result ≡ [] }
    {
        FirstLatches {
            literals: IndexMap::new(alloc),
        }
    }

    /// Returns the literal of the latch of this next literal and reset.
    fn find(&self, latch: &Latch) -> Option<Lit>
        ensures { result ≡ lookup (same_latch latch.now) self.now }
    {
        self.literals.get(latch).copied()
    }

    /// Adds a latch of another next literal or reset than each one's.
    fn add(&mut self, latch: Latch, own: Lit) -> Result<(), NoMemory>
        requires { lookup (same_latch latch) self.old ≡ None }
        ensures { OnOk result (self.new ≡ self.old ++ (latch, own) ∷ []) }
    {
        self.literals.insert(latch, own)?;
        Ok(())
    }

    /// Returns the literal of the first latch that this one duplicates, or its own if there is
    /// none.
    pub(crate) fn first_duplicate(&mut self, latch: Latch, own: Lit) -> Result<Lit, NoMemory>
        ensures literal { IfOk result (λ lit. lit ≡ substitute_or_own own
            (lookup (same_latch latch) self.old)) }
        ensures entries { OnOk result (self.new ≡ entries_after self.old own latch
            (lookup (same_latch latch) self.old)) }
    {
        match self.find(&latch) {
            Some(first) => Ok(first),
            None => {
                self.add(latch, own)?;
                Ok(own)
            }
        }
    }
}
