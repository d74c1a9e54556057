//! The part of a circuit that the latches of one class need: the gates that read such latches
//! alone, and those before their next literals. The other latches are inputs of it, and what
//! anything else reads is its outputs. So the latches of the class may move over the gates that
//! read them alone, and paths to other latches don't count.

use aig_graph::{Circuit, Memory};
use backward_sets::{DraftLatch, Literal, Pair, entry, has_mark, number, set_entry, set_mark};
use checked_tables::put_if_covered;
use class_nets::{Net, draft_latch};
use sealed_drafts::{SealError, drawn_outputs};
use std::alloc::Global;

/// The part of a class. Its tables are by variable of the circuit.
pub(crate) struct Cut {
    pub class: u32,
    /// Marks the latches of the class, and the gates of the part.
    pub inner: Vec<bool>,
    /// The variable in the part of each latch, and of each gate of the part.
    pub numbers: Vec<u32>,
    /// One more than the number of the output of each variable that has one.
    pub outlets: Vec<u32>,
    /// The outputs, as literals of the part.
    pub outputs: Vec<Literal>,
}

impl Drop for Cut {
    // written out: docs/PROOFS.md, Drops and exits
    fn drop(self) {
        let Cut {
            class: _class,
            inner: _inner,
            numbers: _numbers,
            outlets: _outlets,
            outputs: _outputs,
        } = self;
    }
}

/// Marks the latch or gate of a literal, if it is of one.
fn mark(net: &Net, lit: Literal, inner: &mut [bool]) {
    put_if_covered(inner, net.place(lit.var()) as usize, true);
}

/// Marks the latches of a class, and no others.
fn mark_latches(net: &Net, class: u32, inner: &mut [bool]) {
    for place in 0..net.many_latches() {
        set_mark(inner, place, net.latch(place).class == class);
    }
}

/// Marks the gates that read marked variables alone.
fn mark_gates_after(net: &Net, inner: &mut [bool]) {
    let latches = net.many_latches();
    for place in 0..net.many_gates() {
        let pair = net.gate(place);
        let larger = has_mark(inner, net.place(pair.larger.var()));
        let smaller = has_mark(inner, net.place(pair.smaller.var()));
        set_mark(inner, latches.wrapping_add(place), larger & smaller);
    }
}

/// Marks the gates before the next literals of the latches of a class.
fn mark_gates_before(net: &Net, class: u32, inner: &mut [bool]) {
    let latches = net.many_latches();
    for place in 0..latches {
        if net.latch(place).class == class {
            mark(net, net.latch(place).next, inner);
        }
    }
    for place in (0..net.many_gates()).rev() {
        if has_mark(inner, latches.wrapping_add(place)) {
            let pair = net.gate(place);
            mark(net, pair.larger, inner);
            mark(net, pair.smaller, inner);
        }
    }
}

/// Numbers the variables that are marked as `marked` is, among latches or gates, from `next` on.
/// Returns the number after them.
fn number_marked(
    numbers: &mut [u32],
    inner: &[bool],
    (begin, end): (u32, u32),
    marked: bool,
    next: u32,
) -> u32 {
    let mut next = next;
    for place in begin..end {
        if has_mark(inner, place) == marked {
            set_entry(numbers, place, next);
            next = next.wrapping_add(1);
        }
    }
    next
}

impl Cut {
    /// Returns the part of a class.
    pub fn of(memory: &mut Memory, net: &Net, class: u32) -> Cut {
        let mut cut = Cut {
            class,
            inner: memory.table(false, net.size()),
            numbers: memory.table(0u32, net.size()),
            outlets: memory.table(0u32, net.size()),
            outputs: memory.nothing(),
        };
        let inner = cut.inner.as_mut_slice();
        mark_latches(net, class, inner);
        mark_gates_after(net, inner);
        mark_gates_before(net, class, inner);
        mark_latches(net, class, inner);
        cut.number(net);
        cut.put_outlets(memory, net);
        cut
    }

    /// Numbers the variables of the part: other latches, then those of the class, then gates.
    fn number(&mut self, net: &Net) {
        let (latches, end) = (net.many_latches(), number(net.size()));
        let numbers = self.numbers.as_mut_slice();
        let inner = self.inner.as_slice();
        let own = number_marked(numbers, inner, (0, latches), false, net.first_latch());
        let gates = number_marked(numbers, inner, (0, latches), true, own);
        number_marked(numbers, inner, (latches, end), true, gates);
    }

    /// Returns true if a latch or gate is of the part.
    pub fn has(&self, place: u32) -> bool {
        has_mark(self.inner.as_slice(), place)
    }

    /// Returns the part's literal for one of the circuit.
    fn literal(&self, net: &Net, lit: Literal) -> Literal {
        let place = net.place(lit.var());
        if (place as usize) < self.numbers.len() {
            Literal::of(entry(self.numbers.as_slice(), place)).signed_as(lit)
        } else {
            lit
        }
    }

    /// Puts an output for the variable of a literal, if it is of the part and has none yet.
    fn put_outlet(&mut self, memory: &mut Memory, net: &Net, lit: Literal) {
        let place = net.place(lit.var());
        if self.has(place) & (entry(self.outlets.as_slice(), place) == 0) {
            let own = Literal::of(entry(self.numbers.as_slice(), place));
            memory.push(&mut self.outputs, own);
            set_entry(
                self.outlets.as_mut_slice(),
                place,
                number(self.outputs.len()),
            );
        }
    }

    /// Puts the outputs, for all that is read from outside of the part.
    fn put_outlets(&mut self, memory: &mut Memory, net: &Net) {
        let latches = net.many_latches();
        for place in 0..latches {
            if !self.has(place) {
                self.put_outlet(memory, net, net.latch(place).next);
            }
        }
        for place in 0..net.many_gates() {
            if !self.has(latches.wrapping_add(place)) {
                self.put_outlet(memory, net, net.gate(place).larger);
                self.put_outlet(memory, net, net.gate(place).smaller);
            }
        }
        for lit in &net.observed {
            self.put_outlet(memory, net, *lit);
        }
    }

    /// Returns the latches of the part.
    fn latches(&self, memory: &mut Memory, net: &Net) -> Vec<DraftLatch> {
        let mut latches = memory.nothing();
        for place in 0..net.many_latches() {
            let latch = net.latch(place);
            if self.has(place) {
                let next = self.literal(net, latch.next);
                memory.push(&mut latches, draft_latch(next, latch.reset, None));
            }
        }
        latches
    }

    /// Returns the gates of the part.
    fn gates(&self, memory: &mut Memory, net: &Net) -> Vec<Pair> {
        let latches = net.many_latches();
        let mut gates = memory.nothing();
        for place in 0..net.many_gates() {
            let pair = net.gate(place);
            if self.has(latches.wrapping_add(place)) {
                let own = Pair {
                    larger: self.literal(net, pair.larger),
                    smaller: self.literal(net, pair.smaller),
                };
                memory.push(&mut gates, own);
            }
        }
        gates
    }

    /// Returns the part as a circuit.
    pub fn circuit(
        &self,
        alloc: Global,
        memory: &mut Memory,
        net: &Net,
    ) -> Result<Circuit, SealError> {
        let latches = self.latches(memory, net);
        let gates = self.gates(memory, net);
        let others = net.latches.len().saturating_sub(latches.len());
        let inputs = net.inputs.wrapping_add(number(others));
        let outputs = self.outputs.as_slice();
        drawn_outputs(alloc, inputs, latches.as_slice(), gates.as_slice(), outputs)
    }
}
