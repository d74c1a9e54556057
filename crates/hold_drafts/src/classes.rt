//! The classes of variables. A gate is of a class if both fan-ins are latches or gates of it.

use crate::opening::{Opening, STAYS};
use aig_graph::Memory;
use backward_sets::Literal;
use checked_tables::entry_or;

/// Returns the class at `place`, or [`STAYS`] past the end, as that of an input.
pub(crate) fn class_at(classes: &[u32], place: u32) -> u32 {
    entry_or(classes, place as usize, STAYS)
}

/// Returns the class of a gate whose fan-ins have these.
pub(crate) fn common_class(first: u32, second: u32) -> u32 {
    if first == second { first } else { STAYS }
}

/// Returns the class of a literal's variable.
fn class_of(opening: &Opening, classes: &[u32], lit: Literal) -> u32 {
    class_at(classes, opening.place(lit.var()))
}

/// Returns, by variable from the first latch on, its class. A set may have the gates whose class
/// isn't [`STAYS`].
pub fn classes_of(memory: &mut Memory, opening: &Opening) -> Vec<u32> {
    let mut classes = memory.list(opening.size());
    for place in 0..opening.many_latches() {
        memory.push(&mut classes, opening.latch(place).class);
    }
    for var in opening.first_gate()..opening.end() {
        let pair = opening.gate(var);
        let larger = class_of(opening, classes.as_slice(), pair.larger);
        let smaller = class_of(opening, classes.as_slice(), pair.smaller);
        memory.push(&mut classes, common_class(larger, smaller));
    }
    classes
}
