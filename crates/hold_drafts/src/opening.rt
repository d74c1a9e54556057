//! Opened circuits. Their variables are numbered as those of a circuit: the constant, all inputs,
//! latches, gates. A table by variable begins at the first latch, since a short file can have
//! hundreds of millions of inputs.

use crate::literals::literal_at;
use aig_graph::Reset;
use backward_sets::{Literal, Pair, number};
use checked_tables::entry_or;

/// The class of latches without a hold.
pub const PLAIN: u32 = 0;

/// The class of latches that are free or held back, and of gates that aren't within one class.
pub const STAYS: u32 = u32::MAX;

/// The origin of a latch that a move made.
pub const NOWHERE: u32 = u32::MAX;

/// A latch of an opened circuit. While the hold of its class is 1 it keeps its value; else it gets
/// that of its load.
#[derive(Clone, Copy)]
pub struct OpenLatch {
    pub load: Literal,
    pub reset: Reset,
    /// [`PLAIN`], [`STAYS`], or the number of a hold, from 1.
    pub class: u32,
    /// Its position in the first circuit, or [`NOWHERE`].
    pub origin: u32,
    /// True if it is held back by name.
    pub held: bool,
}

impl OpenLatch {
    /// Stands for no latch.
    pub const NONE: OpenLatch = OpenLatch {
        load: Literal::FALSE,
        reset: Reset::Free,
        class: STAYS,
        origin: NOWHERE,
        held: true,
    };

    /// Returns true if it may move: its reset isn't free, and it isn't held back.
    pub fn may_move(&self) -> bool {
        (self.reset != Reset::Free) & !self.held
    }
}

/// A circuit that is opened. Its gates come after their fan-ins.
pub struct Opening {
    pub inputs: u32,
    pub latches: Vec<OpenLatch>,
    pub gates: Vec<Pair>,
    /// The literals of properties, in their order.
    pub observed: Vec<Literal>,
    /// The holds of the classes from 1 on.
    pub holds: Vec<Literal>,
}

impl Drop for Opening {
    // written out: docs/PROOFS.md, Drops and exits
    fn drop(self) {
        let Opening {
            inputs: _inputs,
            latches: _latches,
            gates: _gates,
            observed: _observed,
            holds: _holds,
        } = self;
    }
}

impl Opening {
    /// Returns the variable of the first latch.
    pub fn first_latch(&self) -> u32 {
        self.inputs.wrapping_add(1)
    }

    /// Returns the number of latches.
    pub fn many_latches(&self) -> u32 {
        number(self.latches.len())
    }

    /// Returns the number of gates.
    pub fn many_gates(&self) -> u32 {
        number(self.gates.len())
    }

    /// Returns the variable of the first gate.
    pub fn first_gate(&self) -> u32 {
        self.first_latch().wrapping_add(self.many_latches())
    }

    /// Returns the number of variables.
    pub fn end(&self) -> u32 {
        self.first_gate().wrapping_add(self.many_gates())
    }

    /// Returns the number of entries of a table by variable.
    pub fn size(&self) -> usize {
        self.latches.len().saturating_add(self.gates.len())
    }

    /// Returns a variable's place in a table by variable. Constants and inputs have one past any
    /// end.
    pub fn place(&self, var: u32) -> u32 {
        var.wrapping_sub(self.first_latch())
    }

    /// Returns the latch with number `place`, from 0, or one that stays if there is none.
    pub fn latch(&self, place: u32) -> OpenLatch {
        entry_or(self.latches.as_slice(), place as usize, OpenLatch::NONE)
    }

    /// Returns true if a variable is a gate.
    pub fn is_gate(&self, var: u32) -> bool {
        (var.wrapping_sub(self.first_gate()) as usize) < self.gates.len()
    }

    /// Returns the gate at a variable, or one of constants if there is none.
    pub fn gate(&self, var: u32) -> Pair {
        entry_or(
            self.gates.as_slice(),
            var.wrapping_sub(self.first_gate()) as usize,
            Pair::NONE,
        )
    }

    /// Returns the literal of the property with number `place`, from 0.
    pub fn observed(&self, place: u32) -> Literal {
        literal_at(self.observed.as_slice(), place)
    }

    /// Returns the hold of a class, or the constant false if it has none.
    pub fn hold(&self, class: u32) -> Literal {
        literal_at(self.holds.as_slice(), class.wrapping_sub(1))
    }

    /// Returns the number of latches whose reset is known.
    pub fn known_latches(&self) -> u32 {
        let mut count = 0u32;
        for place in 0..self.many_latches() {
            let known = self.latch(place).reset != Reset::Free;
            count = count.wrapping_add(u32::from(known));
        }
        count
    }
}
