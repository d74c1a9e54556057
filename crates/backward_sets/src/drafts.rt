//! Circuits as they are drafted. Variable 0 is the constant; after it come the inputs that
//! something reads, the latches, and the gates.

use crate::literals::Literal;
use crate::tables::number;
use checked_tables::entry_or;

/// The value of a latch at step 0.
#[derive(Clone, Copy, PartialEq, Eq)]
pub enum DraftReset {
    Zero,
    One,
    Free,
    /// 0 or 1, as is wished later.
    Any,
}

impl DraftReset {
    /// Returns true if the value at step 0 is settled.
    pub fn is_settled(self) -> bool {
        match self {
            DraftReset::Zero | DraftReset::One => true,
            DraftReset::Free | DraftReset::Any => false,
        }
    }

    /// Returns the reset with this value.
    pub fn of(value: bool) -> DraftReset {
        if value {
            DraftReset::One
        } else {
            DraftReset::Zero
        }
    }
}

/// A latch of a draft. If it is a latch of the first circuit, `origin` is its position there.
#[derive(Clone, Copy)]
pub struct DraftLatch {
    pub next: Literal,
    pub reset: DraftReset,
    pub origin: Option<u32>,
    pub held: bool,
    /// A number that no other latch or gate of a run has. Latches stand by rising names.
    pub name: u32,
    /// One more than the number of a list of latches that are left out before it in its row; 0 if
    /// there is none.
    pub list: u32,
}

impl DraftLatch {
    /// Stands for no latch.
    pub const NONE: DraftLatch = DraftLatch {
        next: Literal::NONE,
        reset: DraftReset::Free,
        origin: None,
        held: true,
        name: 0,
        list: 0,
    };

    /// Returns true if it may move: its reset isn't free, and it isn't held.
    pub fn takes_part(&self) -> bool {
        (self.reset != DraftReset::Free) & !self.held
    }

    /// Returns true if it isn't held, and its value at step 0 is settled.
    pub fn is_settled(&self) -> bool {
        self.reset.is_settled() & !self.held
    }

    /// Returns true if its value at step 0 is 1.
    pub fn starts_at_1(&self) -> bool {
        self.reset == DraftReset::One
    }
}

/// The fan-ins of a gate.
#[derive(Clone, Copy)]
pub struct Pair {
    pub larger: Literal,
    pub smaller: Literal,
}

impl Pair {
    /// Stands for no gate.
    pub const NONE: Pair = Pair {
        larger: Literal::FALSE,
        smaller: Literal::FALSE,
    };
}

/// A circuit as it is drafted.
pub struct Draft {
    pub inputs: u32,
    pub latches: Vec<DraftLatch>,
    pub gates: Vec<Pair>,
    /// The literals of properties, in their order.
    pub observed: Vec<Literal>,
    /// The first name that nothing has yet. Names begin with 1.
    pub names: u32,
}

impl Drop for Draft {
    // written out: docs/PROOFS.md, Drops and exits
    fn drop(self) {
        let Draft {
            inputs: _inputs,
            latches: _latches,
            gates: _gates,
            observed: _observed,
            names: _names,
        } = self;
    }
}

impl Draft {
    /// Returns the latches and the gates, and drops the rest.
    pub fn into_latches_and_gates(self) -> (Vec<DraftLatch>, Vec<Pair>) {
        let Draft {
            inputs: _inputs,
            latches,
            gates,
            observed: _observed,
            names: _names,
        } = self;
        (latches, gates)
    }

    /// Returns the variable of the first latch.
    pub fn first_latch(&self) -> u32 {
        self.inputs.wrapping_add(1)
    }

    /// Returns the number of latches.
    pub fn many_latches(&self) -> u32 {
        number(self.latches.len())
    }

    /// Returns the variable of the first gate.
    pub fn first_gate(&self) -> u32 {
        self.first_latch().wrapping_add(self.many_latches())
    }

    /// Returns the number of variables.
    pub fn end(&self) -> u32 {
        self.first_gate().wrapping_add(number(self.gates.len()))
    }

    /// Returns the number of entries of a table by variable.
    pub fn size(&self) -> usize {
        self.end() as usize
    }

    /// Returns the latch with number `place`, from 0, or one that takes no part if there is none.
    pub fn latch(&self, place: u32) -> DraftLatch {
        entry_or(self.latches.as_slice(), place as usize, DraftLatch::NONE)
    }

    /// Returns the gate at a variable, or one of constants if there is none.
    pub fn gate(&self, var: u32) -> Pair {
        entry_or(
            self.gates.as_slice(),
            var.wrapping_sub(self.first_gate()) as usize,
            Pair::NONE,
        )
    }

    /// Returns the literal of the property with number `place`, from 0.
    pub fn observed(&self, place: u32) -> Literal {
        entry_or(self.observed.as_slice(), place as usize, Literal::FALSE)
    }

    /// Returns the number of latches that take part.
    pub fn taking_part(&self) -> u32 {
        let mut count = 0u32;
        for place in 0..self.many_latches() {
            count = count.wrapping_add(u32::from(self.latch(place).takes_part()));
        }
        count
    }
}
