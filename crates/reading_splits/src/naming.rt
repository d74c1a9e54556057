//! Names of variables from the first latch on. Latches of a class have one name, and a gate has the
//! name of its fan-ins' pair.
use crate::marks::Marks;
use crate::pairs::PairNames;
use crate::readers::{Marked, Readers};
use aig_graph::{Aig, Gate, Lit, NoMemory};
use std::alloc::Global;

/// The names so far, and the marks of the latches and gates that read what was renamed.
pub(crate) struct Naming {
    readers: Readers,
    pub(crate) marked: Marked,
    first: u32,
    names: Vec<Lit>,
    pairs: PairNames,
}

impl Drop for Naming {
    // written out: docs/PROOFS.md, Drops and exits
    fn drop(self) {
        let Naming {
            readers: _readers,
            marked: _marked,
            first: _first,
            names: _names,
            pairs: _pairs,
        } = self;
    }
}

/// Returns the names of latches that a reading gives, and the constant for each gate.
fn first_names(alloc: Global, aig: &Aig, reads: &[Lit]) -> Result<Vec<Lit>, NoMemory> {
    let mut names = Vec::with_capacity(alloc, aig.latches_and_gates())?;
    names.extend_from_slice(reads)?;
    for _ in aig.gates() {
        names.push(Lit::FALSE)?;
    }
    Ok(names)
}

impl Naming {
    /// Names latches by a reading. All latches and gates are marked.
    pub(crate) fn by(alloc: Global, aig: &Aig, reads: &[Lit]) -> Result<Naming, NoMemory> {
        let latches = aig.latches().len();
        aig.known();
        let marked = Marked {
            latches: Marks::all(alloc, latches)?,
            gates: Marks::all(alloc, aig.gates().len())?,
        };
        let after = aig.first_gate().saturating_add(latches as u32);
        Ok(Naming {
            readers: Readers::of(alloc, aig)?,
            marked,
            first: aig.first_latch(),
            names: first_names(alloc, aig, reads)?,
            pairs: PairNames::none(alloc, aig, after.saturating_add(1))?,
        })
    }

    /// Returns the name of the latch at a place.
    pub(crate) fn of_latch(&self, place: usize) -> Lit {
        self.names.get(place).copied().unwrap_or(Lit::FALSE)
    }

    /// Returns the name of a literal. Each variable before the latches is its own name.
    pub(crate) fn named(&self, lit: Lit) -> Lit {
        let var = lit.var();
        if var < self.first {
            return lit;
        }
        let entry = (var - self.first) as usize;
        if entry < self.names.len() {
            self.names[entry].signed_as(lit)
        } else {
            lit
        }
    }

    /// Renames the variable of an entry, and marks its readers if that is another name.
    pub(crate) fn rename(&mut self, entry: usize, name: Lit) {
        if entry < self.names.len() && self.names[entry] != name {
            self.names[entry] = name;
            self.readers.mark(entry, &mut self.marked);
        }
    }

    /// Names the gate at a place. Returns false if names have run out.
    fn name_gate(&mut self, aig: &Aig, place: usize) -> Result<bool, NoMemory> {
        let Some(gate) = aig.gates().get(place) else {
            return Ok(true);
        };
        let pair = Gate::of(self.named(gate.rhs0), self.named(gate.rhs1));
        let Some(name) = self.pairs.name(pair)? else {
            return Ok(false);
        };
        self.rename(aig.latches().len().saturating_add(place), name);
        Ok(true)
    }

    /// Names the gates that are marked. Returns false if names have run out.
    pub(crate) fn name_gates(&mut self, aig: &Aig) -> Result<bool, NoMemory> {
        for _ in 0..u64::MAX {
            let Some(place) = self.marked.gates.take() else {
                return Ok(true);
            };
            if !self.name_gate(aig, place)? {
                return Ok(false);
            }
        }
        Ok(false)
    }
}
