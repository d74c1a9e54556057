//! A circuit as a draft. Inputs that nothing reads are left out, since a file of thirty bytes can
//! have hundreds of millions of them.

use crate::copies::literal_at;
use aig_graph::{Aig, Circuit, Gate, Keep, Latch, Lit, Memory, Reset};
use backward_sets::{Draft, DraftLatch, DraftReset, Literal, Pair, entry, number, set_entry};
use checked_tables::put_if_covered;

/// The inputs that something reads, rising.
#[derive(Drop)]
pub(crate) struct Inputs {
    /// The number of the circuit's inputs.
    all: u32,
    /// The number of the draft's inputs.
    many: u32,
    /// Their variables, if some are left out.
    read: Vec<u32>,
}

/// The inputs that are read, once for each time.
#[derive(Drop)]
struct Notes {
    inputs: u32,
    /// Room for all that are noted.
    read: Vec<u32>,
    many: u32,
}

impl Notes {
    /// Notes the variable of a literal, if it is an input.
    fn note(&mut self, lit: Lit) {
        if (lit.var() > 0) & (lit.var() <= self.inputs) {
            set_entry(self.read.as_mut_slice(), self.many, lit.var());
            self.many = self.many.wrapping_add(1);
        }
    }

    /// Notes the inputs that properties, latches and gates read.
    fn note_all(&mut self, observed: &[Lit], latches: &[Latch], gates: &[Gate]) {
        for lit in observed {
            self.note(*lit);
        }
        for latch in latches {
            self.note(latch.next);
        }
        for gate in gates {
            self.note(gate.rhs0);
            self.note(gate.rhs1);
        }
    }

    /// Returns the inputs that were noted, rising.
    fn into_rising(self) -> Vec<u32> {
        let Notes {
            inputs: _inputs,
            mut read,
            many,
        } = self;
        read.truncate(many as usize);
        read.sort_unstable();
        read.dedup();
        read
    }
}

/// Returns the inputs that something reads, rising.
fn inputs_read(memory: &mut Memory, circuit: &Circuit, observed: &[Lit]) -> Vec<u32> {
    let aig = circuit.aig();
    let both = aig.latches_and_gates().saturating_add(aig.gates().len());
    let read = memory.table(0u32, observed.len().saturating_add(both));
    let mut notes = Notes {
        inputs: aig.inputs(),
        read,
        many: 0,
    };
    notes.note_all(observed, aig.latches(), aig.gates());
    notes.into_rising()
}

impl Inputs {
    /// Returns all inputs if they are few, else those that something reads. The properties read
    /// `observed`.
    pub fn of(memory: &mut Memory, circuit: &Circuit, observed: &[Lit]) -> Inputs {
        let all = circuit.aig().inputs();
        if all as usize <= circuit.aig().latches_and_gates() {
            return Inputs {
                all,
                many: all,
                read: memory.nothing(),
            };
        }
        let read = inputs_read(memory, circuit, observed);
        Inputs {
            all,
            many: number(read.len()),
            read,
        }
    }

    /// Returns the draft's variable for one of the circuit.
    fn var(&self, var: u32) -> u32 {
        if self.many == self.all || var == 0 {
            return var;
        }
        if var > self.all {
            return var.wrapping_sub(self.all).wrapping_add(self.many);
        }
        match self.read.as_slice().binary_search(&var) {
            Ok(place) => number(place).wrapping_add(1),
            Err(_) => 0,
        }
    }

    /// Returns the draft's literal for one of the circuit.
    fn literal(&self, lit: Lit) -> Literal {
        Literal::of(self.var(lit.var())).negated_if(lit.is_negated())
    }

    /// Returns the circuit's literal for one of the draft.
    pub fn original(&self, lit: Literal) -> Literal {
        let var = lit.var();
        if self.many == self.all {
            return lit;
        }
        let own = if var > self.many {
            var.wrapping_sub(self.many).wrapping_add(self.all)
        } else {
            entry(self.read.as_slice(), var.wrapping_sub(1))
        };
        Literal::of(own).signed_as(lit)
    }
}

/// Returns the draft's latch for one of the circuit.
fn latch_of(inputs: &Inputs, keep: &Keep, latch: &Latch, position: u32) -> DraftLatch {
    DraftLatch {
        next: inputs.literal(latch.next),
        reset: match latch.reset {
            Reset::Zero => DraftReset::Zero,
            Reset::One => DraftReset::One,
            Reset::Free => DraftReset::Free,
        },
        origin: Some(position),
        held: keep.has(position),
        name: position.wrapping_add(1),
        list: 0,
    }
}

/// Puts the latches of a draft.
fn put_latches(inputs: &Inputs, keep: &Keep, latches: &[Latch], drafted: &mut [DraftLatch]) {
    for place in 0..drafted.len() {
        if place < latches.len() {
            drafted[place] = latch_of(inputs, keep, &latches[place], number(place));
        }
    }
}

/// Puts the gates of a draft.
fn put_gates(inputs: &Inputs, gates: &[Gate], drafted: &mut [Pair]) {
    for place in 0..drafted.len() {
        if place < gates.len() {
            drafted[place] = Pair {
                larger: inputs.literal(gates[place].rhs0),
                smaller: inputs.literal(gates[place].rhs1),
            };
        }
    }
}

/// Puts the literals that properties read in a draft.
fn put_observed(inputs: &Inputs, properties: &[Lit], observed: &mut [Literal]) {
    for place in 0..observed.len() {
        if place < properties.len() {
            observed[place] = inputs.literal(properties[place]);
        }
    }
}

/// Returns a draft in which latches, gates and properties stand for none.
fn blank(memory: &mut Memory, aig: &Aig, inputs: u32, properties: usize) -> Draft {
    let latches = memory.table(DraftLatch::NONE, aig.latches().len());
    let gates = memory.table(Pair::NONE, aig.gates().len());
    let observed = memory.table(Literal::FALSE, properties);
    Draft {
        inputs,
        latches,
        gates,
        observed,
        names: number(aig.latches().len()).wrapping_add(1),
    }
}

/// Returns the draft of a circuit, with these inputs, whose properties read `properties`.
pub(crate) fn draft_of(
    memory: &mut Memory,
    circuit: &Circuit,
    keep: &Keep,
    inputs: &Inputs,
    properties: &[Lit],
) -> Draft {
    let aig = circuit.aig();
    let mut draft = blank(memory, aig, inputs.many, properties.len());
    put_latches(inputs, keep, aig.latches(), draft.latches.as_mut_slice());
    put_gates(inputs, aig.gates(), draft.gates.as_mut_slice());
    put_observed(inputs, properties, draft.observed.as_mut_slice());
    draft
}

/// Puts the replacement for each latch and gate that a property reads, by variable from `first` on.
fn put_stands(stands: &mut [Literal], first: u32, properties: &[Lit], observed: &[Literal]) {
    for place in 0..properties.len() {
        let lit = properties[place];
        let own = literal_at(observed, number(place)).negated_if(lit.is_negated());
        put_if_covered(stands, lit.var().wrapping_sub(first) as usize, own);
    }
}

/// Returns the replacement for each latch and gate of a circuit that a property reads, if
/// `observed` replace the literals of its properties.
pub(crate) fn stands_of(
    memory: &mut Memory,
    aig: &Aig,
    properties: &[Lit],
    observed: &[Literal],
) -> Vec<Literal> {
    let mut stands = memory.table(Literal::FALSE, aig.latches_and_gates());
    let first = aig.first_latch();
    put_stands(stands.as_mut_slice(), first, properties, observed);
    stands
}
