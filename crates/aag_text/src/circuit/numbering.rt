//! Literals by the places of their variables.
ghost use Rattle.std.specs.Prelude.{◌≡◌, ◌<◌, ◌^◌, Some, None, if◌then◌else◌};
ghost use Rattle.ascii_file.specs.Meaning as meaning;
ghost use Rattle.file_words.specs.declared.fault.ReadError.TheVariants.{NoMemory};
ghost use Rattle.file_words.specs.Answering.{Gives};
ghost use Rattle.aag_text.specs.Numbering.{is_placed, is_gate_placed, placed, placed_gate, placed_literals, placed_latches, placed_gates};

use aig_graph::{Gate, Latch, Lit, Reset};
use ascii_file::{Places, RawGate, RawLatch};
use file_words::ReadError;
use std::alloc::Global;

/// Returns the literal of the place of its variable, if that has a place below `count`.
fn literal(places: &Places, count: u32, lit: u32) -> Option<Lit>
    requires few { count < 2 ^ 28 }
    ensures { result ≡ (if is_placed places.now count lit then Some
        (placed places.now lit) else None) }
{
    if lit < 2 {
        return Some(Lit::new(0, lit == 1));
    }
    match places.place(lit / 2) {
        Some(place) if place < count => Some(Lit::new(place + 1, lit % 2 == 1)),
        _ => None,
    }
}

/// Returns the literals, or `Undefined`.
pub(crate) fn literals(
    alloc: Global,
    places: &Places,
    count: u32,
    lits: &[u32],
) -> Result<Vec<Lit>, ReadError>
    requires few { count < 2 ^ 28 }
    ensures { Gives NoMemory (λ v. v.items) result (placed_literals places.now count lits.now) }
{
    let mut found = Vec::with_capacity(alloc, lits.len())?;
    for lit in lits {
        let Some(literal) = literal(places, count, *lit) else {
            return Err(ReadError::Undefined);
        };
        found.push_reserved(literal);
    }
    Ok(found)
}

/// Returns the reset that a number on a latch's line stands for.
fn reset_of(number: u32) -> Reset
    ensures { result ≡ meaning.reset_of number }
{
    match number {
        0 => Reset::Zero,
        1 => Reset::One,
        _ => Reset::Free,
    }
}

/// Returns the latches, or `Undefined`.
pub(crate) fn latches(
    alloc: Global,
    places: &Places,
    count: u32,
    raws: &[RawLatch],
) -> Result<Vec<Latch>, ReadError>
    requires few { count < 2 ^ 28 }
    ensures { Gives NoMemory (λ v. v.items) result (placed_latches places.now count raws.now) }
{
    let mut found = Vec::with_capacity(alloc, raws.len())?;
    for latch in raws {
        let Some(next) = literal(places, count, latch.next) else {
            return Err(ReadError::Undefined);
        };
        found.push_reserved(Latch {
            next,
            reset: reset_of(latch.reset),
        });
    }
    Ok(found)
}

/// Returns the fan-ins of a gate, in the order of its line.
fn gate(places: &Places, count: u32, raw: &RawGate) -> Option<Gate>
    requires few { count < 2 ^ 28 }
    ensures { result ≡ (if is_gate_placed places.now count raw.now then Some
        (placed_gate places.now raw.now) else None) }
{
    let rhs0 = literal(places, count, raw.rhs0)?;
    let rhs1 = literal(places, count, raw.rhs1)?;
    Some(Gate { rhs0, rhs1 })
}

/// Returns the gates in the order of the file, or `Undefined`.
pub(crate) fn gates(
    alloc: Global,
    places: &Places,
    count: u32,
    raws: &[RawGate],
) -> Result<Vec<Gate>, ReadError>
    requires few { count < 2 ^ 28 }
    ensures { Gives NoMemory (λ v. v.items) result (placed_gates places.now count raws.now) }
{
    let mut found = Vec::with_capacity(alloc, raws.len())?;
    for raw in raws {
        let Some(gate) = gate(places, count, raw) else {
            return Err(ReadError::Undefined);
        };
        found.push_reserved(gate);
    }
    Ok(found)
}
