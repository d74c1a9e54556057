//! Parts classes: a latch that isn't told what its class's first is leaves the class. Those of it
//! that are told as it is go with it.
use aig_graph::{Aig, Lit};

/// A latch that leaves its class: the variable as which it reads, what it is told, and its place.
pub type Leaving = (u32, u64, usize);

/// Returns the literal of the latch at a place, and what the constant is if there is none.
pub(crate) fn own_literal(aig: &Aig, place: usize) -> Lit {
    aig.known();
    if place < aig.latches().len() {
        Lit::new(aig.first_latch() + place as u32, false)
    } else {
        Lit::FALSE
    }
}

/// Returns true if a latch reads as another one, or as a constant.
pub fn reads_another(aig: &Aig, place: usize, lit: Lit) -> bool {
    lit.var() != own_literal(aig, place).var()
}

/// Takes these latches, which stand class by class, out of their classes. Those of a class that are
/// told alike are a new class, of which the first one reads as itself.
pub fn part(aig: &Aig, reads: &mut Vec<Lit>, leaving: &[Leaving]) {
    let mut class = (0, 0);
    let mut first = Lit::FALSE;
    for (at, (var, told, place)) in leaving.iter().enumerate() {
        if *place < reads.len() {
            let sign = reads[*place];
            if at == 0 || class != (*var, *told) {
                class = (*var, *told);
                first = own_literal(aig, *place).signed_as(sign);
            }
            reads[*place] = first.signed_as(sign);
        }
    }
}
