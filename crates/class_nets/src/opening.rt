//! The circuit in which latches have classes, from one that is opened and its masks.

use crate::masks::Masks;
use crate::nets::{Class, ClassLatch, Net, literal_at};
use aig_graph::Memory;
use backward_sets::{Literal, Pair, number};
use hold_drafts::{OpenLatch, Opening, STAYS, Swept, TRUE};
use std::mem;

/// Returns the class of a latch by its hold and its masks.
fn class_of(opening: &Opening, masks: &Masks, place: u32) -> Class {
    let latch = opening.latch(place);
    if latch.class == STAYS {
        return Class::PLAIN;
    }
    Class {
        hold: opening.hold(latch.class).code,
        load_mask: literal_at(masks.loads.as_slice(), place as usize).code,
        read_mask: literal_at(masks.readers.as_slice(), place as usize).code,
    }
}

/// Returns the classes of latches but that of plain ones, rising, each once.
fn classes_of_latches(memory: &mut Memory, opening: &Opening, masks: &Masks) -> Vec<Class> {
    let mut classes = memory.nothing();
    for place in 0..opening.many_latches() {
        let class = class_of(opening, masks, place);
        if class != Class::PLAIN {
            memory.push(&mut classes, class);
        }
    }
    classes.sort_unstable();
    classes.dedup();
    classes
}

/// Returns the number of a class, from 1, or 0 if it is that of plain latches.
fn number_of(classes: &[Class], class: Class) -> u32 {
    match classes.binary_search(&class) {
        Ok(place) => number(place).wrapping_add(1),
        Err(_) => 0,
    }
}

/// Returns what is left of a load without its mask.
fn bare_load(opening: &Opening, latch: &OpenLatch, mask: Literal) -> Literal {
    if mask == TRUE {
        return latch.load;
    }
    let pair = opening.gate(latch.load.var());
    let left = if pair.larger == mask {
        pair.smaller
    } else {
        pair.larger
    };
    left.signed_as(latch.load)
}

/// Returns the latch with number `place`, without its masks.
fn bare_latch(opening: &Opening, masks: &Masks, classes: &[Class], place: u32) -> ClassLatch {
    let latch = opening.latch(place);
    let mask = literal_at(masks.loads.as_slice(), place as usize);
    ClassLatch {
        next: bare_load(opening, &latch, mask),
        reset: latch.reset,
        class: number_of(classes, class_of(opening, masks, place)),
        value: Literal::of(place.wrapping_add(1)),
    }
}

/// Returns true if a gate is a latch's literal with the mask of its readers.
fn is_masked(opening: &Opening, masks: &Masks, lit: Literal, mask: Literal) -> bool {
    let place = opening.place(lit.var()) as usize;
    (mask.var() > 0) & (literal_at(masks.readers.as_slice(), place) == mask)
}

/// Returns the gate without the mask of readers.
fn bare_gate(opening: &Opening, masks: &Masks, pair: Pair) -> Pair {
    let kept = if is_masked(opening, masks, pair.larger, pair.smaller) {
        pair.larger
    } else if is_masked(opening, masks, pair.smaller, pair.larger) {
        pair.smaller
    } else {
        return pair;
    };
    Pair {
        larger: kept,
        smaller: kept,
    }
}

/// Puts the latches and gates without masks.
fn put_bare(
    memory: &mut Memory,
    net: &mut Net,
    opening: &Opening,
    masks: &Masks,
    classes: &[Class],
) {
    for place in 0..opening.many_latches() {
        let latch = bare_latch(opening, masks, classes, place);
        memory.push(&mut net.latches, latch);
    }
    for var in opening.first_gate()..opening.end() {
        let pair = bare_gate(opening, masks, opening.gate(var));
        memory.push(&mut net.gates, pair);
    }
}

/// Returns all literals that a circuit of classes reads, but those of its gates.
fn literals_read(memory: &mut Memory, net: &Net) -> Vec<Literal> {
    let mut literals = memory.list(net.latches.len());
    for latch in &net.latches {
        memory.push(&mut literals, latch.next);
    }
    for lit in &net.observed {
        memory.push(&mut literals, *lit);
    }
    literals
}

/// Drops the gates that nothing reads any more, as are those that had the masks of loads. The parts
/// of classes would keep a latch for each gate that one of them reads.
fn sweep(memory: &mut Memory, net: &mut Net) {
    let literals = literals_read(memory, net);
    let gates = net.gates.as_slice();
    let swept = Swept::of(memory, net.first_gate(), gates, literals.as_slice());
    for place in 0..net.latches.len() {
        let next = swept.literal(net.latches[place].next);
        net.latches[place].next = next;
    }
    swept.renumber(net.observed.as_mut_slice());
    drop(mem::replace(&mut net.gates, swept.into_gates()));
}

/// Returns the circuit in which the latches of an opened one have classes.
pub(crate) fn net_of(memory: &mut Memory, opening: &Opening, masks: &Masks) -> Net {
    let classes = classes_of_latches(memory, opening, masks);
    let mut net = Net {
        inputs: opening.inputs,
        latches: memory.list(opening.latches.len()),
        gates: memory.list(opening.gates.len()),
        observed: memory.nothing(),
        properties: opening.observed.len(),
        classes: 0,
    };
    put_bare(memory, &mut net, opening, masks, classes.as_slice());
    for lit in &opening.observed {
        memory.push(&mut net.observed, *lit);
    }
    for class in &classes {
        net.put_class(memory, *class);
    }
    sweep(memory, &mut net);
    net
}
