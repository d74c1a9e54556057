//! A part that was retimed, put back into its circuit. The part's inputs are those of the circuit
//! and its other latches. So these come before the latches of the class, and the part's literals
//! stay as they are. The gates outside of the part come after those of it.

use crate::cuts::Cut;
use aig_graph::{Circuit, Memory};
use backward_sets::{Literal, Pair, entry, number};
use class_nets::{ClassLatch, GrowingMap, Net, NumberMap, literal_at, literal_of, set_literal};

/// Returns what the latches of a part hold.
fn values_of(memory: &mut Memory, net: &Net, cut: &Cut) -> Vec<Literal> {
    let mut values = memory.nothing();
    for place in 0..net.many_latches() {
        if cut.has(place) {
            memory.push(&mut values, net.latch(place).value);
        }
    }
    values
}

/// The circuit that is put together, and the replacements for the variables of the one before.
#[derive(Drop)]
struct Joint<'a> {
    net: &'a Net,
    cut: &'a Cut,
    part: &'a Circuit,
    stands: Vec<Literal>,
}

impl<'a> Joint<'a> {
    /// Returns the replacement for a literal.
    fn literal(&self, lit: Literal) -> Literal {
        let place = self.net.place(lit.var()) as usize;
        if place < self.stands.len() {
            self.stands[place].signed_as(lit)
        } else {
            lit
        }
    }

    /// Returns the replacement for the latch or gate at `place`, if it is one of the part, or a
    /// latch.
    fn standing(&self, place: u32) -> Literal {
        if !self.cut.has(place) {
            return Literal::of(entry(self.cut.numbers.as_slice(), place));
        }
        let outputs = self.part.props().outputs.as_slice();
        let outlet = (entry(self.cut.outlets.as_slice(), place) as usize).wrapping_sub(1);
        if outlet < outputs.len() {
            literal_of(outputs[outlet])
        } else {
            Literal::FALSE
        }
    }

    /// Puts the replacements for the latches, and for the gates of the part.
    fn put_standing(&mut self) {
        for place in 0..number(self.net.size()) {
            let own = self.standing(place);
            set_literal(self.stands.as_mut_slice(), place, own);
        }
    }

    /// Puts the latches that aren't of the class. Their next literals are still those of before.
    fn put_others(&self, memory: &mut Memory, joined: &mut Net) {
        for place in 0..self.net.many_latches() {
            if !self.cut.has(place) {
                memory.push(&mut joined.latches, self.net.latch(place));
            }
        }
    }

    /// Puts the latches and the gates of the part.
    fn put_part(&self, memory: &mut Memory, joined: &mut Net, values: &[Literal]) {
        let aig = self.part.aig();
        let mut place = 0usize;
        for latch in aig.latches() {
            let moved = ClassLatch {
                next: literal_of(latch.next),
                reset: latch.reset,
                class: self.cut.class,
                value: literal_at(values, place),
            };
            memory.push(&mut joined.latches, moved);
            place = place.wrapping_add(1);
        }
        for gate in aig.gates() {
            let pair = Pair {
                larger: literal_of(gate.rhs0),
                smaller: literal_of(gate.rhs1),
            };
            memory.push(&mut joined.gates, pair);
        }
    }

    /// Puts the gates outside of the part.
    fn put_outer(&mut self, memory: &mut Memory, joined: &mut Net) {
        let latches = self.net.many_latches();
        for gate in 0..self.net.many_gates() {
            let place = latches.wrapping_add(gate);
            if !self.cut.has(place) {
                let pair = self.net.gate(gate);
                let own = Pair {
                    larger: self.literal(pair.larger),
                    smaller: self.literal(pair.smaller),
                };
                let var = joined.first_gate().wrapping_add(joined.many_gates());
                memory.push(&mut joined.gates, own);
                set_literal(self.stands.as_mut_slice(), place, Literal::of(var));
            }
        }
    }

    /// Puts the literals of properties and classes, and the next literals of other latches, of
    /// which there are `others`.
    fn put_reads(&self, memory: &mut Memory, joined: &mut Net, others: usize) {
        for lit in &self.net.observed {
            memory.push(&mut joined.observed, self.literal(*lit));
        }
        for place in 0..others {
            if place < joined.latches.len() {
                let next = self.literal(joined.latches[place].next);
                joined.latches[place].next = next;
            }
        }
    }
}

/// Returns an empty circuit with the inputs of another one, and as many properties and classes.
fn empty_like(memory: &mut Memory, net: &Net) -> Net {
    Net {
        inputs: net.inputs,
        latches: memory.nothing(),
        gates: memory.list(net.gates.len()),
        observed: memory.list(net.observed.len()),
        properties: net.properties,
        classes: net.classes,
    }
}

/// Returns the circuit in which the part of a class is replaced by a retimed one, with this map.
pub(crate) fn joined(
    memory: &mut Memory,
    net: &Net,
    cut: &Cut,
    part: &Circuit,
    map: &NumberMap,
    growing: &mut GrowingMap,
) -> Net {
    let before = values_of(memory, net, cut);
    let values = growing.put(memory, map, before.as_slice());
    let mut joint = Joint {
        net,
        cut,
        part,
        stands: memory.table(Literal::FALSE, net.size()),
    };
    let mut joined = empty_like(memory, net);
    joint.put_standing();
    joint.put_others(memory, &mut joined);
    let others = joined.latches.len();
    joint.put_part(memory, &mut joined, values.as_slice());
    joint.put_outer(memory, &mut joined);
    joint.put_reads(memory, &mut joined, others);
    joined
}
