//! What the latches of both circuits read as: a literal each, by its place in the list of them all.
ghost use Rattle.std.specs.Prelude.{◌≡◌, true};
ghost use Rattle.pair_checks.specs.Openings.{BeginAlike, BeginsAs};

use aig_graph::{Lit, NoMemory};
use std::alloc::Global;

/// Returns true if that which a latch reads as begins as this.
fn begins_as(first: u32, begins: &[Lit], lit: Lit, opening: Lit) -> bool
    ensures { result ≡ true → BeginsAs first begins.now lit opening }
{
    if lit.var() == 0 {
        return opening == lit;
    }
    if lit.var() < first {
        return false;
    }
    match begins.get((lit.var() - first) as usize) {
        Some(other) => opening == other.signed_as(lit),
        None => false,
    }
}

/// Returns true if each latch begins as what it reads as.
pub(crate) fn begin_alike(first: u32, begins: &[Lit], reads: &[Lit]) -> bool
    ensures { result ≡ true → BeginAlike first begins.now reads.now }
{
    if reads.len() != begins.len() {
        return false;
    }
    for (place, lit) in reads.iter().enumerate() {
        if !begins_as(first, begins, *lit, begins[place]) {
            return false;
        }
    }
    true
}

/// Returns the literal of a latch, by its place in the list.
fn own_literal(first: u32, place: usize) -> Lit {
    let room = (1 << 28) - 1 - place.min((1 << 28) - 1);
    if (first as usize) < room {
        Lit::new(first + place as u32, false)
    } else {
        Lit::FALSE
    }
}

/// Returns the reading in which each latch reads as itself.
pub(crate) fn own_reading(alloc: Global, first: u32, count: usize) -> Result<Vec<Lit>, NoMemory> {
    let mut reads = Vec::new(alloc);
    for place in 0..count {
        reads.push(own_literal(first, place))?;
    }
    Ok(reads)
}

/// Reads each latch as what it begins as. A known one reads as a constant, and a free one as the
/// first latch of the list that begins so.
pub(crate) fn widest_reading(
    alloc: Global,
    first: u32,
    begins: &[Lit],
) -> Result<Vec<Lit>, NoMemory> {
    let mut reads = Vec::new(alloc);
    let mut free = Vec::new(alloc);
    for (place, opening) in begins.iter().enumerate() {
        let own = own_literal(first, place);
        if opening.var() == 0 {
            reads.push(*opening)?;
        } else {
            match free.get((opening.var() - 1) as usize) {
                Some(lit) => reads.push(*lit)?,
                None => {
                    reads.push(own)?;
                    free.push(own)?;
                }
            }
        }
    }
    Ok(reads)
}
