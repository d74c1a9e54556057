//! A circuit whose latches read as a reading says, and what two latches of a class are told there.
use aig_graph::{Aig, Lit};
use gate_sharing::{SharedCircuits, SharingError, leaves_below};
use std::alloc::Global;

/// Returns the circuit in which each latch reads so, with shared gates. There is none if a latch
/// reads as something else than a variable before the gates. Linear.
///
/// # Errors
///
/// `NoMemory` if memory is refused, and `TooLarge` if there are too many gates.
pub fn merged(alloc: Global, aig: &Aig, reads: &[Lit]) -> Result<Option<Aig>, SharingError> {
    let first = aig.first_gate();
    if reads.len() != aig.latches().len() {
        return Ok(None);
    }
    let Some(leaves) = leaves_below(alloc, aig.first_latch(), reads, first)? else {
        return Ok(None);
    };
    let (circuits, copied) = SharedCircuits::after(alloc, first).with(alloc, aig, leaves)?;
    drop(copied);
    Ok(Some(circuits.graph(alloc)?))
}

/// Returns what a latch is told, with the sign with which it reads, and what that is told which it
/// reads as.
pub fn sides(merged: &Aig, place: usize, lit: Lit) -> (Lit, Lit) {
    let told = match merged.latches().get(place) {
        Some(latch) => latch.next.signed_as(lit),
        None => Lit::FALSE,
    };
    match merged.latch(lit.var()) {
        Some(first) => (told, first.next),
        None => (told, Lit::FALSE),
    }
}
