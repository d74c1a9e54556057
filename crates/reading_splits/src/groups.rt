//! Groups of the latches that are told another name than before, by their class and by what they
//! are told.
use aig_graph::{Lit, NoMemory};
use indexmap::IndexMap;
use std::alloc::Global;

/// The name of a latch's class, and that of what it is told. Both are negated if it begins with 1.
#[derive(Clone, Copy, PartialEq, Eq, Hash)]
pub(crate) struct Signature {
    pub(crate) class: Lit,
    pub(crate) told: Lit,
}

/// Latches of one signature, counted.
#[derive(Clone, Copy)]
pub(crate) struct Group {
    pub(crate) class: Lit,
    pub(crate) latches: u32,
}

/// The groups of a turn, by signature, each with its name once it has one.
pub(crate) struct Groups {
    places: IndexMap<Signature, usize>,
    pub(crate) groups: Vec<Group>,
    pub(crate) names: Vec<Lit>,
}

impl Drop for Groups {
    // written out: docs/PROOFS.md, Drops and exits
    fn drop(self) {
        let Groups {
            places: _places,
            groups: _groups,
            names: _names,
        } = self;
    }
}

impl Groups {
    /// Returns no groups.
    pub(crate) fn none(alloc: Global) -> Groups {
        Groups {
            places: IndexMap::new(alloc),
            groups: Vec::new(alloc),
            names: Vec::new(alloc),
        }
    }

    fn begin(&mut self, signature: Signature) -> Result<(), NoMemory> {
        let place = self.groups.len();
        let group = Group {
            class: signature.class,
            latches: 1,
        };
        self.groups.push(group)?;
        self.places.insert(signature, place)?;
        Ok(())
    }

    /// Adds a latch to the group of its signature.
    pub(crate) fn add(&mut self, signature: Signature) -> Result<(), NoMemory> {
        let Some(place) = self.places.get(&signature).copied() else {
            return self.begin(signature);
        };
        if place < self.groups.len() {
            self.groups[place].latches = self.groups[place].latches.saturating_add(1);
        }
        Ok(())
    }

    /// Returns the name of a group.
    pub(crate) fn name(&self, signature: &Signature) -> Lit {
        match self.places.get(signature) {
            Some(place) => self.names.get(*place).copied().unwrap_or(Lit::FALSE),
            None => Lit::FALSE,
        }
    }
}
