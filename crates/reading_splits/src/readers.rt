//! The latches and gates that read a variable, as linked lists: each fan-in links to the one before
//! it that reads that variable.
use crate::marks::Marks;
use aig_graph::{Aig, NoMemory};
use std::alloc::Global;

/// The latches and gates that are marked, to be looked at again.
#[derive(Drop)]
pub(crate) struct Marked {
    pub(crate) latches: Marks,
    pub(crate) gates: Marks,
}

/// The readers of each variable from the first latch on.
///
/// A link is one more than the place of a fan-in, and 0 at the end of a list. The fan-ins are those
/// of the latches, and after them those of the gates.
#[derive(Drop)]
pub(crate) struct Readers {
    first: u32,
    latches: usize,
    heads: Vec<u32>,
    links: Vec<u32>,
    fan_ins: u32,
}

impl Readers {
    /// Returns the readers in a circuit.
    pub(crate) fn of(alloc: Global, aig: &Aig) -> Result<Readers, NoMemory> {
        let room = aig.latches_and_gates().saturating_add(aig.gates().len());
        let mut readers = Readers {
            first: aig.first_latch(),
            latches: aig.latches().len(),
            heads: vec![in alloc; 0u32; aig.latches_and_gates()]?,
            links: Vec::with_capacity(alloc, room)?,
            fan_ins: 0,
        };
        for latch in aig.latches() {
            readers.link(latch.next.var())?;
        }
        for gate in aig.gates() {
            readers.link(gate.rhs0.var())?;
            readers.link(gate.rhs1.var())?;
        }
        Ok(readers)
    }

    /// Links the next fan-in, which reads `var`.
    fn link(&mut self, var: u32) -> Result<(), NoMemory> {
        let entry = var.wrapping_sub(self.first) as usize;
        self.fan_ins = self.fan_ins.wrapping_add(1);
        if var >= self.first && entry < self.heads.len() {
            self.links.push(self.heads[entry])?;
            self.heads[entry] = self.fan_ins;
        } else {
            self.links.push(0)?;
        }
        Ok(())
    }

    /// Marks the latch or gate that has the fan-in at a place.
    fn mark_reader(&self, marked: &mut Marked, place: usize) {
        if place < self.latches {
            marked.latches.add(place);
        } else {
            marked.gates.add((place - self.latches) / 2);
        }
    }

    /// Marks the latches and gates that read the variable of an entry.
    pub(crate) fn mark(&self, entry: usize, marked: &mut Marked) {
        let mut link = self.heads.get(entry).copied().unwrap_or(0);
        for _ in 0..self.links.len() {
            if link == 0 {
                return;
            }
            let place = (link - 1) as usize;
            self.mark_reader(marked, place);
            link = self.links.get(place).copied().unwrap_or(0);
        }
    }
}
