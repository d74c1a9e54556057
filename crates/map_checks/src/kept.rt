//! Which free latches of the first circuit those of the second begin as.
ghost use Rattle.std.specs.Prelude.{◌≡◌, IfOk, [], length, true};
ghost use Rattle.aig_graph.specs.Graph.{free_before};
ghost use Rattle.aig_graph.specs.Tables.{table};
ghost use Rattle.map_checks.specs.Starts.{Takes};

use crate::starting::free_place;
use aig_graph::{Aig, Latch, Lit, NoMemory, Reset, opening_literal};
use std::alloc::Global;
use std::marker::Model;

/// Places among the free latches, each after those before it.
#[derive(Drop)]
pub(crate) struct KeptPlaces {
    places: Vec<u32>,
    next: u32,
}

impl Model for KeptPlaces {
    ghost use Rattle.std.specs.Prelude.{List, ℕ};
    ghost use Rattle.map_checks.specs.Starts.{AreRising};

    ghost Value = { List ℕ };

    ghost view = { λ k. k.places.items };

    ghost invariant = { λ k. AreRising k.places.items k.next };
}

impl KeptPlaces {
    ghost use Rattle.std.specs.List.Sorted.{IsStrictlyIncreasing};

    /// Returns a list of no places.
    pub(crate) fn none(alloc: Global) -> KeptPlaces
        ensures { result ≡ [] }
    {
        KeptPlaces {
            places: Vec::new(alloc),
            next: 0,
        }
    }

    /// States what holds of all places. Costs nothing.
    pub(crate) fn known(&self)
        ensures { IsStrictlyIncreasing self.now }
    {
        let _places = self.places.as_slice();
    }

    /// Returns the places.
    pub(crate) fn into_vec(self) -> Vec<u32>
        ensures { result.items ≡ self }
    {
        self.places
    }

    /// Takes what a latch is at step 0, by its literal. That is its reset, or a free latch of the
    /// first circuit after those that were taken. Returns true if it is that.
    pub(crate) fn take(
        &mut self,
        first: &Aig,
        free: &[u32],
        latch: &Latch,
        lit: Lit,
    ) -> Result<bool, NoMemory>
        requires { free.now ≡ table 0 (length first.now.latches) (free_before first.now) }
        ensures { IfOk result (λ yes. yes ≡ true → Takes first.now latch.now.reset lit self.old
            self.new) }
    {
        if latch.reset != Reset::Free {
            return Ok(lit == opening_literal(latch.reset, lit));
        }
        match free_place(first, free, lit) {
            Some(place) if self.next <= place => {
                self.places.push(place)?;
                self.next = place + 1;
                Ok(true)
            }
            _ => Ok(false),
        }
    }
}
