//! Maps of states as numbers: gates over the latches of one circuit, and a literal for each latch
//! of another. Maps follow one another.

use crate::nets::{literal_at, set_literal};
use aig_graph::{Lit, Memory};
use backward_sets::{Literal, Pair, number};
use checked_tables::put_if_covered;
use hold_drafts::{Sharing, TRUE};
use retiming_maps::StateMap;

/// Bits of a byte that are of the number; the one above them is set if another byte follows.
const LOW_BITS: u32 = 7;

/// The most bytes of a number.
const MOST_BYTES: u32 = 5;

/// A map from the states of a circuit, whose latches have the variables from 1 on.
pub struct NumberMap {
    pub inputs: u32,
    pub gates: Vec<Pair>,
    pub outputs: Vec<Literal>,
    pub constraints: Vec<Literal>,
}

impl Drop for NumberMap {
    // written out: docs/PROOFS.md, Drops and exits
    fn drop(self) {
        let NumberMap {
            inputs: _inputs,
            gates: _gates,
            outputs: _outputs,
            constraints: _constraints,
        } = self;
    }
}

/// Returns a draft's literal for one of a circuit.
pub fn literal_of(lit: Lit) -> Literal {
    Literal { code: lit.code() }
}

/// Returns literals as those of a draft.
pub fn literals_of(memory: &mut Memory, lits: &[Lit]) -> Vec<Literal> {
    let mut literals = memory.list(lits.len());
    for lit in lits {
        memory.push(&mut literals, literal_of(*lit));
    }
    literals
}

/// The bytes of deltas, and the place of the next one.
#[derive(Drop)]
struct Deltas<'a> {
    bytes: &'a [u8],
    place: usize,
}

impl<'a> Deltas<'a> {
    /// Returns the next byte, or 0 past the end.
    fn byte(&mut self) -> u32 {
        let place = self.place;
        self.place = place.wrapping_add(1);
        if place < self.bytes.len() {
            u32::from(self.bytes[place])
        } else {
            0
        }
    }

    /// Returns the next number.
    fn next(&mut self) -> u32 {
        let mut number = 0u32;
        for turn in 0..MOST_BYTES {
            let byte = self.byte();
            number |= (byte & 127).wrapping_shl(LOW_BITS.wrapping_mul(turn));
            if byte < 128 {
                return number;
            }
        }
        number
    }
}

/// Returns the gates of a map, which stand there as deltas.
fn gates_of(memory: &mut Memory, map: &StateMap) -> Vec<Pair> {
    let mut deltas = Deltas {
        bytes: map.gates().deltas(),
        place: 0,
    };
    let count = map.gates().count();
    let mut gates = memory.list(count as usize);
    let mut own = Literal::of(map.gates().inputs().wrapping_add(1)).code;
    for _ in 0..count {
        let larger = own.wrapping_sub(deltas.next());
        let smaller = larger.wrapping_sub(deltas.next());
        let pair = Pair {
            larger: Literal { code: larger },
            smaller: Literal { code: smaller },
        };
        memory.push(&mut gates, pair);
        own = own.wrapping_add(2);
    }
    gates
}

/// Returns a map as numbers.
pub fn number_map(memory: &mut Memory, map: &StateMap) -> NumberMap {
    NumberMap {
        inputs: map.gates().inputs(),
        gates: gates_of(memory, map),
        outputs: literals_of(memory, map.props().outputs.as_slice()),
        constraints: literals_of(memory, map.props().constraints.as_slice()),
    }
}

/// Returns the replacement for a literal of a map, by variable.
fn standing(stands: &[Literal], lit: Literal) -> Literal {
    literal_at(stands, lit.var() as usize).signed_as(lit)
}

impl NumberMap {
    /// Returns the number of variables.
    fn size(&self) -> usize {
        (self.inputs as usize)
            .saturating_add(1)
            .saturating_add(self.gates.len())
    }

    /// Returns the variable of the first gate.
    fn first_gate(&self) -> u32 {
        self.inputs.wrapping_add(1)
    }

    /// Marks the inputs that a gate reads.
    pub fn mark_read(&self, read: &mut [bool]) {
        for pair in &self.gates {
            put_if_covered(read, pair.larger.var() as usize, true);
            put_if_covered(read, pair.smaller.var() as usize, true);
        }
    }
}

/// A map that grows.
pub struct GrowingMap {
    inputs: u32,
    gates: Sharing,
    pub outputs: Vec<Literal>,
    constraints: Vec<Literal>,
}

impl Drop for GrowingMap {
    // written out: docs/PROOFS.md, Drops and exits
    fn drop(self) {
        let GrowingMap {
            inputs: _inputs,
            gates: _gates,
            outputs: _outputs,
            constraints: _constraints,
        } = self;
    }
}

impl GrowingMap {
    /// Returns the map of the states of a circuit with this number of latches to themselves.
    pub fn identity(memory: &mut Memory, latches: u32) -> GrowingMap {
        let first = latches.wrapping_add(1);
        let mut outputs = memory.list(latches as usize);
        for var in 1..first {
            memory.push(&mut outputs, Literal::of(var));
        }
        GrowingMap {
            inputs: latches,
            gates: Sharing::new(memory, first, 0),
            outputs,
            constraints: memory.nothing(),
        }
    }

    /// Puts the gates and constraints of a map whose inputs are these literals. Returns what its
    /// outputs are.
    pub fn put(
        &mut self,
        memory: &mut Memory,
        map: &NumberMap,
        inputs: &[Literal],
    ) -> Vec<Literal> {
        let mut stands = memory.table(Literal::FALSE, map.size());
        for place in 0..number(inputs.len()) {
            let own = literal_at(inputs, place as usize);
            set_literal(stands.as_mut_slice(), place.wrapping_add(1), own);
        }
        let mut var = map.first_gate();
        for pair in &map.gates {
            let larger = standing(stands.as_slice(), pair.larger);
            let smaller = standing(stands.as_slice(), pair.smaller);
            let own = self.gates.and(memory, larger, smaller);
            set_literal(stands.as_mut_slice(), var, own);
            var = var.wrapping_add(1);
        }
        for lit in &map.constraints {
            let own = standing(stands.as_slice(), *lit);
            if own != TRUE {
                memory.push(&mut self.constraints, own);
            }
        }
        let mut outputs = memory.list(map.outputs.len());
        for lit in &map.outputs {
            memory.push(&mut outputs, standing(stands.as_slice(), *lit));
        }
        outputs
    }

    /// Goes on with a map from the states that this one has come to.
    pub fn follow(&mut self, memory: &mut Memory, map: &NumberMap) {
        let inputs = std::mem::replace(&mut self.outputs, memory.nothing());
        self.outputs = self.put(memory, map, inputs.as_slice());
    }

    /// Returns the map as it is, with these outputs.
    pub fn into_map(self) -> NumberMap {
        let GrowingMap {
            inputs,
            gates,
            outputs,
            constraints,
        } = self;
        NumberMap {
            inputs,
            gates: gates.into_gates(),
            outputs,
            constraints,
        }
    }
}
