//! The circuit on which a draft moves latches of classes. Its variables are numbered as those of a
//! circuit, and a table by variable begins at the first latch.

use aig_graph::{Memory, Reset};
use backward_sets::{Literal, Pair, number, set_mark};
use checked_tables::{entry_or, put_if_there};
use hold_drafts::TRUE;

/// The number of literals that say what a class is.
const MARKS: usize = 3;

/// What latches of one class have in common, as codes of literals. While the hold is 1 they keep
/// their values. Else they get those of their next literals if the mask of loads is 1, and else
/// their resets. Readers see their values if the mask of readers is 1, and else their resets.
#[derive(Clone, Copy, PartialEq, Eq, PartialOrd, Ord)]
pub struct Class {
    pub hold: u32,
    pub load_mask: u32,
    pub read_mask: u32,
}

impl Class {
    /// The class of plain latches.
    pub const PLAIN: Class = Class {
        hold: 0,
        load_mask: 1,
        read_mask: 1,
    };

    /// Returns how many gates of a path the hold and the masks take.
    pub fn levels(self) -> u32 {
        let hold = if self.hold == 0 { 0 } else { 2 };
        let load = if self.load_mask == TRUE.code { 0 } else { 1 };
        let reader = if self.read_mask == TRUE.code { 0 } else { 1 };
        hold + load + reader
    }
}

/// A latch of a class.
#[derive(Clone, Copy)]
pub struct ClassLatch {
    pub next: Literal,
    pub reset: Reset,
    /// The number of its class, from 1, or 0 if it stays where it is.
    pub class: u32,
    /// What it holds, over the latches of the first circuit, which have the variables from 1 on.
    pub value: Literal,
}

impl ClassLatch {
    /// Stands for no latch.
    pub const NONE: ClassLatch = ClassLatch {
        next: Literal::FALSE,
        reset: Reset::Free,
        class: 0,
        value: Literal::FALSE,
    };
}

/// A circuit whose latches have classes.
pub struct Net {
    pub inputs: u32,
    pub latches: Vec<ClassLatch>,
    pub gates: Vec<Pair>,
    /// The literals of properties, and then the hold and the masks of each class.
    pub observed: Vec<Literal>,
    /// The number of literals of properties.
    pub properties: usize,
    /// The number of classes.
    pub classes: u32,
}

impl Drop for Net {
    // written out: docs/PROOFS.md, Drops and exits
    fn drop(self) {
        let Net {
            inputs: _inputs,
            latches: _latches,
            gates: _gates,
            observed: _observed,
            properties: _properties,
            classes: _classes,
        } = self;
    }
}

/// Returns the literal at `place`, or the constant false past the end.
pub fn literal_at(literals: &[Literal], place: usize) -> Literal {
    entry_or(literals, place, Literal::FALSE)
}

/// Puts a literal at `place`, if the table has it.
pub fn set_literal(literals: &mut [Literal], place: u32, lit: Literal) {
    put_if_there(literals, place as usize, lit);
}

/// Returns the gate at `place`, or one of constants past the end.
pub fn pair_at(pairs: &[Pair], place: usize) -> Pair {
    entry_or(pairs, place, Pair::NONE)
}

impl Net {
    /// Returns the variable of the first latch.
    pub fn first_latch(&self) -> u32 {
        self.inputs.wrapping_add(1)
    }

    /// Returns the number of latches.
    pub fn many_latches(&self) -> u32 {
        number(self.latches.len())
    }

    /// Returns the variable of the first gate.
    pub fn first_gate(&self) -> u32 {
        self.first_latch().wrapping_add(self.many_latches())
    }

    /// Returns the number of gates.
    pub fn many_gates(&self) -> u32 {
        number(self.gates.len())
    }

    /// Returns the number of entries of a table by variable.
    pub fn size(&self) -> usize {
        self.latches.len().saturating_add(self.gates.len())
    }

    /// Returns a variable's place in a table by variable. Constants and inputs have one past any
    /// end.
    pub fn place(&self, var: u32) -> u32 {
        var.wrapping_sub(self.first_latch())
    }

    /// Returns the latch with number `place`, or one that stays if there is none.
    pub fn latch(&self, place: u32) -> ClassLatch {
        entry_or(self.latches.as_slice(), place as usize, ClassLatch::NONE)
    }

    /// Returns the gate with number `place`, or one of constants if there is none.
    pub fn gate(&self, place: u32) -> Pair {
        pair_at(self.gates.as_slice(), place as usize)
    }

    /// Returns the hold of a class, and its masks of loads and readers. A latch that stays has
    /// none.
    pub fn class(&self, class: u32) -> Class {
        if class == 0 {
            return Class::PLAIN;
        }
        let observed = self.observed.as_slice();
        let place = (class as usize).wrapping_sub(1).wrapping_mul(MARKS);
        let first = self.properties.wrapping_add(place);
        Class {
            hold: literal_at(observed, first).code,
            load_mask: literal_at(observed, first.wrapping_add(1)).code,
            read_mask: literal_at(observed, first.wrapping_add(2)).code,
        }
    }

    /// Puts the hold and the masks of a class behind those of the others.
    pub fn put_class(&mut self, memory: &mut Memory, class: Class) {
        for code in [class.hold, class.load_mask, class.read_mask] {
            memory.push(&mut self.observed, Literal { code });
        }
        self.classes = self.classes.wrapping_add(1);
    }

    /// Returns by class if it has a gate that reads two of its latches: latches of other classes
    /// don't move.
    pub fn busy_classes(&self, memory: &mut Memory) -> Vec<bool> {
        let mut busy = memory.table(false, (self.classes as usize).saturating_add(1));
        for place in 0..self.many_gates() {
            let pair = self.gate(place);
            let larger = self.latch(self.place(pair.larger.var())).class;
            let smaller = self.latch(self.place(pair.smaller.var())).class;
            if (larger == smaller) & (larger != 0) {
                set_mark(busy.as_mut_slice(), larger, true);
            }
        }
        busy
    }

    /// Returns by place if a latch has a class.
    pub fn opened_latches(&self, memory: &mut Memory) -> Vec<bool> {
        let mut opened = memory.list(self.latches.len());
        for latch in &self.latches {
            memory.push(&mut opened, latch.class != 0);
        }
        opened
    }
}
