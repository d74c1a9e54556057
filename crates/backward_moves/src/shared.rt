//! Gates of which no two have equal fan-ins, by the rules by which maps are checked. An open table
//! has the places of the gates.

use aig_graph::Memory;
use backward_sets::{Literal, Pair, entry, number, set_entry, table_size};
use checked_tables::{entry_or, put_if_there};

/// Gates from a first variable on, and a table by fan-ins: one more than the place of each gate, 0
/// if there is none.
#[derive(Drop)]
pub(crate) struct Shared {
    first: u32,
    /// Room for all that are put.
    gates: Vec<Pair>,
    /// The number of gates that were put.
    many: u32,
    table: Vec<u32>,
}

/// Returns the gate at `place`.
pub(crate) fn pair_at(pairs: &[Pair], place: u32) -> Pair {
    entry_or(pairs, place as usize, Pair::NONE)
}

/// Puts a gate at `place`, if the table has it.
pub(crate) fn set_pair(pairs: &mut [Pair], place: u32, pair: Pair) {
    put_if_there(pairs, place as usize, pair);
}

impl Shared {
    /// Returns no gates yet, from the variable `first` on, with room for `room`. There must not be
    /// more.
    pub fn after(memory: &mut Memory, first: u32, room: usize) -> Shared {
        let gates = memory.table(Pair::NONE, room);
        let table = memory.table(0u32, table_size(room));
        Shared {
            first,
            gates,
            many: 0,
            table,
        }
    }

    /// Returns true if an entry is empty, or that of this gate.
    fn fits(&self, known: u32, pair: &Pair) -> bool {
        let own = self.gate(known.wrapping_sub(1));
        (known == 0) | own.equals(pair)
    }

    /// Returns the slot of a gate, or the empty one at which it would stand.
    fn find(&self, pair: &Pair) -> u32 {
        let mask = self.table.len().saturating_sub(1);
        let mut at = pair.slot(mask);
        for _ in 0..self.table.len() {
            let known = entry(self.table.as_slice(), number(at));
            if self.fits(known, pair) {
                return number(at);
            }
            at = at.wrapping_add(1) & mask;
        }
        number(at)
    }

    /// Returns the literal of the conjunction of two literals.
    pub fn and(&mut self, a: Literal, b: Literal) -> Literal {
        let pair = Pair::of(a, b);
        if pair.is_false() {
            return Literal::FALSE;
        }
        if pair.is_larger() {
            return pair.larger;
        }
        self.put(pair)
    }

    /// Returns the literal of a gate, which is put if it isn't there yet.
    fn put(&mut self, pair: Pair) -> Literal {
        let at = self.find(&pair);
        let known = entry(self.table.as_slice(), at);
        if known > 0 {
            return self.literal(known);
        }
        set_pair(self.gates.as_mut_slice(), self.many, pair);
        self.many = self.many.wrapping_add(1);
        set_entry(self.table.as_mut_slice(), at, self.many);
        self.literal(self.many)
    }

    /// Returns the literal of the gate that has an entry.
    fn literal(&self, entry: u32) -> Literal {
        Literal::of(self.first.wrapping_add(entry).wrapping_sub(1))
    }

    /// Returns the number of gates so far.
    pub fn many(&self) -> u32 {
        self.many
    }

    /// Returns the gate at `place`.
    pub fn gate(&self, place: u32) -> Pair {
        pair_at(self.gates.as_slice(), place)
    }

    /// Returns the gates, and drops the table.
    pub fn into_gates(self) -> Vec<Pair> {
        let Shared {
            first: _first,
            mut gates,
            many,
            table: _table,
        } = self;
        gates.truncate(many as usize);
        gates
    }
}
