//! Gates of which no two have equal fan-ins, as they are put one after another.
//!
//! A gate is looked for on the list of those that have its larger fan-in. They are few, and most of
//! them were put close together. A gate that would make a list longer than `LONGEST` stands in an
//! open table.

use crate::literals::{TRUE, opposite};
use aig_graph::Memory;
use backward_sets::{LARGEST_TABLE, Literal, Pair, entry, number, set_entry, table_size};
use checked_tables::entry_or;
use std::mem;

/// How many gates a list takes.
const LONGEST: u32 = 8;

/// Gates from a first variable on. Their entries are their places and one more, 0 for none.
#[derive(Drop)]
pub struct Sharing {
    first: u32,
    gates: Vec<Pair>,
    /// The last gate on the list of each variable.
    lists: Vec<u32>,
    /// The one before each gate on its list.
    before: Vec<u32>,
    /// The gates that no list took, by fan-ins.
    table: Vec<u32>,
    /// The number of these.
    tabled: usize,
}

/// Where a gate is found, or put.
#[derive(Clone, Copy)]
enum Slot {
    /// It is the gate with this entry.
    Known(u32),
    /// At the end of the list of its larger fan-in.
    List,
    /// In the table, at this place.
    Table(u32),
}

impl Sharing {
    /// Returns no gates yet, from the variable `first` on, with room for `room`.
    pub fn new(memory: &mut Memory, first: u32, room: usize) -> Sharing {
        Sharing {
            first,
            gates: memory.list(room),
            lists: memory.table(0u32, first as usize),
            before: memory.list(room),
            table: memory.nothing(),
            tabled: 0,
        }
    }

    /// Returns the variable of the first gate.
    pub fn first(&self) -> u32 {
        self.first
    }

    /// Returns the number of gates.
    pub fn many(&self) -> u32 {
        number(self.gates.len())
    }

    /// Returns the gates.
    pub fn gates(&self) -> &[Pair] {
        self.gates.as_slice()
    }

    /// Returns the gates, and drops the tables.
    pub fn into_gates(self) -> Vec<Pair> {
        let Sharing {
            first: _first,
            gates,
            lists: _lists,
            before: _before,
            table: _table,
            tabled: _tabled,
        } = self;
        gates
    }

    /// Returns true if a variable is a gate of these.
    pub fn is_gate(&self, var: u32) -> bool {
        (var.wrapping_sub(self.first) as usize) < self.gates.len()
    }

    /// Returns the gate at a variable, or one of constants if there is none.
    pub fn gate(&self, var: u32) -> Pair {
        entry_or(
            self.gates.as_slice(),
            var.wrapping_sub(self.first) as usize,
            Pair::NONE,
        )
    }

    /// Returns the variable of the gate that has an entry.
    fn var_of(&self, known: u32) -> u32 {
        self.first.wrapping_add(known).wrapping_sub(1)
    }

    /// Returns true if an entry is that of this gate.
    fn is(&self, known: u32, pair: &Pair) -> bool {
        self.gate(self.var_of(known)).equals(pair)
    }

    /// Returns the place in the table of a gate, or the empty one at which it would stand.
    fn place_in_table(&self, pair: &Pair) -> u32 {
        let mask = self.table.len().saturating_sub(1);
        let mut at = pair.slot(mask);
        for _ in 0..self.table.len() {
            let known = entry(self.table.as_slice(), number(at));
            if (known == 0) | self.is(known, pair) {
                return number(at);
            }
            at = at.wrapping_add(1) & mask;
        }
        number(at)
    }

    /// Takes a larger table if gates fill this one by half.
    fn grow(&mut self, memory: &mut Memory) {
        let size = self.table.len();
        let full = (self.tabled >= size / 2) & (size < LARGEST_TABLE);
        if full & !memory.is_refused() {
            let larger = memory.table(0u32, table_size(self.tabled.saturating_mul(2)));
            let smaller = mem::replace(&mut self.table, larger);
            for known in &smaller {
                if *known > 0 {
                    let at = self.place_in_table(&self.gate(self.var_of(*known)));
                    set_entry(self.table.as_mut_slice(), at, *known);
                }
            }
        }
    }

    /// Returns where a gate is that no list took, or its place in the table.
    fn slot_in_table(&self, pair: &Pair) -> Slot {
        let at = self.place_in_table(pair);
        let known = entry(self.table.as_slice(), at);
        if known > 0 {
            Slot::Known(known)
        } else {
            Slot::Table(at)
        }
    }

    /// Returns where a gate is, or where it is to be put.
    fn slot(&self, pair: &Pair) -> Slot {
        let mut known = entry(self.lists.as_slice(), pair.larger.var());
        for _ in 0..LONGEST {
            if known == 0 {
                return Slot::List;
            }
            if self.is(known, pair) {
                return Slot::Known(known);
            }
            known = entry(self.before.as_slice(), known.wrapping_sub(1));
        }
        self.slot_in_table(pair)
    }

    /// Puts a gate behind the others, so that it is found in this slot. A gate that is known isn't
    /// looked for. Returns its entry.
    fn put_at(&mut self, memory: &mut Memory, pair: &Pair, slot: Slot) -> u32 {
        let var = pair.larger.var();
        let last = entry(self.lists.as_slice(), var);
        memory.push(&mut self.gates, *pair);
        memory.push(&mut self.before, last);
        memory.push(&mut self.lists, 0);
        let own = self.many();
        match slot {
            Slot::Known(_) => {}
            Slot::List => set_entry(self.lists.as_mut_slice(), var, own),
            Slot::Table(at) => {
                set_entry(self.table.as_mut_slice(), at, own);
                self.tabled = self.tabled.saturating_add(1);
            }
        }
        own
    }

    /// Puts gates behind those that are there, as they are. Of gates with equal fan-ins the first
    /// is found.
    pub fn put_all(&mut self, memory: &mut Memory, pairs: &[Pair]) {
        for pair in pairs {
            self.grow(memory);
            let slot = self.slot(pair);
            self.put_at(memory, pair, slot);
        }
    }

    /// Returns the literal of a gate, which is put if it isn't there yet.
    fn put(&mut self, memory: &mut Memory, pair: Pair) -> Literal {
        self.grow(memory);
        let known = match self.slot(&pair) {
            Slot::Known(known) => known,
            slot => self.put_at(memory, &pair, slot),
        };
        Literal::of(self.var_of(known))
    }

    /// Returns the literal of the conjunction of two literals. It is simplified only if a fan-in is
    /// constant, or both have one variable.
    pub fn and(&mut self, memory: &mut Memory, a: Literal, b: Literal) -> Literal {
        let pair = Pair::of(a, b);
        if pair.is_false() {
            return Literal::FALSE;
        }
        if pair.is_larger() {
            return pair.larger;
        }
        self.put(memory, pair)
    }

    /// Returns the literal of the disjunction of two literals.
    pub fn or(&mut self, memory: &mut Memory, a: Literal, b: Literal) -> Literal {
        opposite(self.and(memory, opposite(a), opposite(b)))
    }

    /// Returns the literal that is `then` if `select` is 1, else `other`.
    pub fn mux(
        &mut self,
        memory: &mut Memory,
        select: Literal,
        then: Literal,
        other: Literal,
    ) -> Literal {
        if then == other {
            return then;
        }
        if then == TRUE {
            return self.or(memory, select, other);
        }
        if other == TRUE {
            return self.or(memory, opposite(select), then);
        }
        let first = self.and(memory, select, then);
        let second = self.and(memory, opposite(select), other);
        self.or(memory, first, second)
    }
}
