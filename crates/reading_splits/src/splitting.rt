//! Splitting: names part classes by what changes.
//!
//! In each turn a latch is told the name of its next literal. The latches of a class that are told
//! another name than before get another name, group by group. Then each gate gets the name of its
//! fan-ins' pair.
//!
//! The readers of a renamed variable are marked, and only what is marked is looked at. So a turn
//! costs what it changes: a delay line costs no more than its length.
use crate::classes::Classes;
use crate::groups::{Groups, Signature};
use crate::marks::Marks;
use crate::naming::Naming;
use crate::parting::own_literal;
use aig_graph::{Aig, Latch, Lit, NoMemory};
use clean::constant_of;
use indexmap::IndexMap;
use std::alloc::Global;

/// What a turn goes on from.
struct Splitting {
    naming: Naming,
    /// By latch the name that it is told.
    told: Vec<Lit>,
    /// Marks of the latches that are told another name than before, for one turn.
    leaving: Marks,
}

impl Drop for Splitting {
    // written out: docs/PROOFS.md, Drops and exits
    fn drop(self) {
        let Splitting {
            naming: _naming,
            told: _told,
            leaving: _leaving,
        } = self;
    }
}

impl Splitting {
    /// Starts with the names of latches that a reading gives, before any gate has a name.
    fn start(alloc: Global, aig: &Aig, reads: &[Lit]) -> Result<Splitting, NoMemory> {
        let latches = aig.latches().len();
        Ok(Splitting {
            naming: Naming::by(alloc, aig, reads)?,
            told: vec![in alloc; Lit::FALSE; latches]?,
            leaving: Marks::none(alloc, latches)?,
        })
    }

    /// Returns the signature of a latch by the names.
    fn signature(&self, place: usize, latch: &Latch) -> Signature {
        let start = constant_of(latch.reset);
        Signature {
            class: self.naming.of_latch(place).signed_as(start),
            told: self.naming.named(latch.next).signed_as(start),
        }
    }

    /// Tells a marked latch its name. If that is another one, it goes to the group of its
    /// signature.
    fn tell(&mut self, aig: &Aig, groups: &mut Groups, place: usize) -> Result<(), NoMemory> {
        let Some(latch) = aig.latches().get(place) else {
            return Ok(());
        };
        let signature = self.signature(place, latch);
        if place < self.told.len() && self.told[place] != signature.told {
            self.told[place] = signature.told;
            self.leaving.add(place);
            groups.add(signature)?;
        }
        Ok(())
    }

    /// Tells all marked latches their names.
    fn tell_all(&mut self, aig: &Aig, groups: &mut Groups) -> Result<(), NoMemory> {
        for _ in 0..u64::MAX {
            let Some(place) = self.naming.marked.latches.take() else {
                return Ok(());
            };
            self.tell(aig, groups, place)?;
        }
        Ok(())
    }

    /// Gives a latch the name of its group.
    fn regroup(&mut self, aig: &Aig, groups: &Groups, place: usize) {
        let (Some(latch), Some(told)) = (aig.latches().get(place), self.told.get(place)) else {
            return;
        };
        let start = constant_of(latch.reset);
        let signature = Signature {
            class: self.naming.of_latch(place).signed_as(start),
            told: *told,
        };
        let name = groups.name(&signature).signed_as(start);
        self.naming.rename(place, name);
    }

    /// Gives all latches that were told another name the names of their groups.
    fn regroup_all(&mut self, aig: &Aig, groups: &Groups) {
        for _ in 0..u64::MAX {
            let Some(place) = self.leaving.take() else {
                return;
            };
            self.regroup(aig, groups, place);
        }
    }

    /// Takes one turn. Returns false if names have run out.
    fn turn(&mut self, alloc: Global, aig: &Aig, classes: &mut Classes) -> Result<bool, NoMemory> {
        let mut groups = Groups::none(alloc);
        self.tell_all(aig, &mut groups)?;
        classes.name(&mut groups)?;
        self.regroup_all(aig, &groups);
        drop(groups);
        self.naming.name_gates(aig)
    }

    /// Takes turns until nothing is marked. Returns false if names have run out.
    fn run(&mut self, alloc: Global, aig: &Aig, classes: &mut Classes) -> Result<bool, NoMemory> {
        let mut goes_on = self.naming.name_gates(aig)?;
        for _ in 0..u64::MAX {
            if !goes_on {
                return Ok(false);
            }
            if !self.naming.marked.latches.any() {
                return Ok(true);
            }
            goes_on = self.turn(alloc, aig, classes)?;
        }
        Ok(false)
    }
}

/// Returns the first latch of a name by its own literal. If there is none yet, `own` is the first.
fn first_of(firsts: &mut IndexMap<u32, Lit>, name: Lit, own: Lit) -> Result<Lit, NoMemory> {
    if name.var() == 0 {
        return Ok(name);
    }
    if let Some(first) = firsts.get(&name.var()) {
        return Ok(first.signed_as(name));
    }
    firsts.insert(name.var(), own.signed_as(name))?;
    Ok(own)
}

/// Returns the reading in which each latch reads as the first of its name.
fn reads_by_names(alloc: Global, aig: &Aig, naming: &Naming) -> Result<Vec<Lit>, NoMemory> {
    let mut firsts = IndexMap::new(alloc);
    let mut reads = Vec::with_capacity(alloc, aig.latches().len())?;
    for place in 0..aig.latches().len() {
        let own = own_literal(aig, place);
        reads.push(first_of(&mut firsts, naming.of_latch(place), own)?)?;
    }
    Ok(reads)
}

/// Parts the classes of a reading to the end, or returns `None` if names run out.
pub(crate) fn split(alloc: Global, aig: &Aig, reads: &[Lit]) -> Result<Option<Vec<Lit>>, NoMemory> {
    let mut classes = Classes::of(alloc, aig, reads)?;
    let mut splitting = Splitting::start(alloc, aig, reads)?;
    if !splitting.run(alloc, aig, &mut classes)? {
        return Ok(None);
    }
    let finer = reads_by_names(alloc, aig, &splitting.naming)?;
    Ok(Some(finer))
}
