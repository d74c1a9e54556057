//! Drops the gates that nothing reads. The others keep their order, and get new numbers.

use crate::opening::Opening;
use aig_graph::Memory;
use backward_sets::{Literal, Pair, entry, has_mark, number, set_entry};
use checked_tables::put_if_covered;

/// Marks the gate that a literal reads, if it reads one.
fn mark(read: &mut [bool], first: u32, lit: Literal) {
    put_if_covered(read, lit.var().wrapping_sub(first) as usize, true);
}

/// Marks by gate those that literals read, over other gates or not.
fn mark_read(first: u32, gates: &[Pair], literals: &[Literal], read: &mut [bool]) {
    for lit in literals {
        mark(read, first, *lit);
    }
    for place in (0..gates.len()).rev() {
        if has_mark(read, number(place)) {
            mark(read, first, gates[place].larger);
            mark(read, first, gates[place].smaller);
        }
    }
}

/// Numbers the gates that are read, from `first` on.
fn number_read(read: &[bool], first: u32, numbers: &mut [u32]) {
    let mut next = first;
    for place in 0..number(read.len()) {
        set_entry(numbers, place, next);
        next = next.wrapping_add(u32::from(has_mark(read, place)));
    }
}

/// The gates that are read, with their new numbers.
pub struct Swept {
    /// The variable of the first gate.
    first: u32,
    gates: Vec<Pair>,
    numbers: Vec<u32>,
}

impl Drop for Swept {
    // written out: docs/PROOFS.md, Drops and exits
    fn drop(self) {
        let Swept {
            first: _first,
            gates: _gates,
            numbers: _numbers,
        } = self;
    }
}

impl Swept {
    /// Returns those of the gates, whose variables begin at `first`, that literals read.
    pub fn of(memory: &mut Memory, first: u32, gates: &[Pair], literals: &[Literal]) -> Swept {
        let mut read = memory.table(false, gates.len());
        let mut numbers = memory.table(0u32, gates.len());
        mark_read(first, gates, literals, read.as_mut_slice());
        number_read(read.as_slice(), first, numbers.as_mut_slice());
        let mut swept = Swept {
            first,
            gates: memory.nothing(),
            numbers,
        };
        swept.put_read(memory, gates, read.as_slice());
        swept
    }

    /// Puts the gates that are read.
    fn put_read(&mut self, memory: &mut Memory, gates: &[Pair], read: &[bool]) {
        for place in 0..gates.len() {
            if has_mark(read, number(place)) {
                let pair = Pair {
                    larger: self.literal(gates[place].larger),
                    smaller: self.literal(gates[place].smaller),
                };
                memory.push(&mut self.gates, pair);
            }
        }
    }

    /// Returns the new literal of a gate, or another literal as it is.
    pub fn literal(&self, lit: Literal) -> Literal {
        let place = lit.var().wrapping_sub(self.first);
        if (place as usize) < self.numbers.len() {
            Literal::of(entry(self.numbers.as_slice(), place)).signed_as(lit)
        } else {
            lit
        }
    }

    /// Renumbers literals.
    pub fn renumber(&self, literals: &mut [Literal]) {
        for place in 0..literals.len() {
            literals[place] = self.literal(literals[place]);
        }
    }

    /// Returns the gates, and drops their numbers.
    pub fn into_gates(self) -> Vec<Pair> {
        let Swept {
            first: _first,
            gates,
            numbers: _numbers,
        } = self;
        gates
    }
}

/// Returns all literals that an opened circuit reads, but those of its gates.
fn literals_read(memory: &mut Memory, opening: &Opening) -> Vec<Literal> {
    let mut literals = memory.list(opening.latches.len());
    for latch in &opening.latches {
        memory.push(&mut literals, latch.load);
    }
    for lit in &opening.observed {
        memory.push(&mut literals, *lit);
    }
    for lit in &opening.holds {
        memory.push(&mut literals, *lit);
    }
    literals
}

/// Returns the circuit with those of these gates that are read, in the place of its own.
pub(crate) fn with_gates_read(
    memory: &mut Memory,
    mut opening: Opening,
    gates: &[Pair],
) -> Opening {
    let literals = literals_read(memory, &opening);
    let swept = Swept::of(memory, opening.first_gate(), gates, literals.as_slice());
    for place in 0..opening.latches.len() {
        opening.latches[place].load = swept.literal(opening.latches[place].load);
    }
    swept.renumber(opening.observed.as_mut_slice());
    swept.renumber(opening.holds.as_mut_slice());
    opening.gates = swept.into_gates();
    opening
}
