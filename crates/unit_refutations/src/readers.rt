//! Which gate is looked at next: the gate of each literal that was found, and then those that read
//! its variable. Nothing that is proved rests on it.
use aig_graph::{Aig, Lit, NoMemory};
use checked_tables::{entry_or, put_if_there};
use std::alloc::Global;

/// Links by variable and by fan-in. A variable has the link to the last fan-in that reads it. A
/// fan-in, two a gate, has the link to the one before it. A link is a fan-in's number plus one, and
/// 0 is none. Also the place that the walk along a trail has come to.
pub(crate) struct Readers {
    first_gate: u32,
    last: Vec<u32>,
    before: Vec<u32>,
    fan_ins: u32,
    head: usize,
    link: u32,
}

impl Drop for Readers {
    // written out: docs/PROOFS.md, Drops and exits
    fn drop(self) {
        let Readers {
            first_gate: _first_gate,
            last: _last,
            before: _before,
            fan_ins: _fan_ins,
            head: _head,
            link: _link,
        } = self;
    }
}

impl Readers {
    /// Returns those of a graph's gates.
    pub(crate) fn of(alloc: Global, aig: &Aig) -> Result<Readers, NoMemory> {
        let mut readers = Readers {
            first_gate: aig.first_gate(),
            last: vec![in alloc; 0u32; aig.variables()]?,
            before: Vec::with_capacity(alloc, 2 * aig.gates().len())?,
            fan_ins: 0,
            head: 0,
            link: 0,
        };
        for gate in aig.gates() {
            readers.add(gate.rhs0)?;
            readers.add(gate.rhs1)?;
        }
        Ok(readers)
    }

    /// Adds a fan-in.
    fn add(&mut self, lit: Lit) -> Result<(), NoMemory> {
        let var = lit.var() as usize;
        self.before.push(entry_or(self.last.as_slice(), var, 0))?;
        self.fan_ins = self.fan_ins.wrapping_add(1);
        put_if_there(self.last.as_mut_slice(), var, self.fan_ins);
        Ok(())
    }

    /// Goes back to the beginning of the trail.
    pub(crate) fn begin(&mut self) {
        self.head = 0;
        self.link = 0;
    }

    /// Returns the place of the gate that is to be looked at next, or one past all gates. Gives
    /// none if the trail is at its end.
    pub(crate) fn next(&mut self, trail: &[Lit]) -> Option<usize> {
        if self.link == 0 {
            if self.head >= trail.len() {
                return None;
            }
            let var = trail[self.head].var();
            self.head += 1;
            if (var as usize) < self.last.len() {
                self.link = self.last[var as usize];
            }
            return Some((var as usize).wrapping_sub(self.first_gate as usize));
        }
        let slot = (self.link - 1) as usize;
        self.link = 0;
        if slot < self.before.len() {
            self.link = self.before[slot];
        }
        Some(slot / 2)
    }
}
