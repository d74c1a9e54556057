//! A guess of a reading, which is to be judged. Simulation and propagation find it within a budget.
//! Where that is spent, hashing parts the classes that are left.
ghost use Rattle.std.specs.Prelude.{◌≡◌, length};

use crate::reading::may_merge;
use aig_graph::{Aig, Circuit, Keep, Lit, NoMemory};
use clean::{Held, constant_of, own_literal};
use gate_sharing::SharingError;
use latch_classes::{Budget, GuessedReads, guess};
use reading_splits::hashed;
use std::alloc::Global;

/// The units of work that any guess may take.
const LEAST: u64 = 3 << 20;

/// How many more there are for each gate, and for each latch.
const FOR_GATE: u64 = 128;

const FOR_LATCH: u64 = 64;

/// How many there are for each gate if latches leave their classes.
const IN_RESERVE: u64 = 512;

/// The units that the guess of a large circuit may take.
const MOST: u64 = 1 << 26;

/// Returns the budget of a guess. It grows with the circuit, as the time does that retiming takes,
/// up to a bound.
fn budget_of(aig: &Aig) -> Budget {
    let (gates, latches) = (aig.gates().len(), aig.latches().len());
    let for_gates = (gates as u64).saturating_mul(FOR_GATE);
    let for_latches = (latches as u64).saturating_mul(FOR_LATCH);
    let units = LEAST.saturating_add(for_gates).saturating_add(for_latches);
    let units = units.min(MOST);
    let reserve = (gates as u64).saturating_mul(IN_RESERVE).min(MOST - units);
    Budget::of(units, reserve, latches)
}

/// Returns the reading in which all latches that may be merged are of the constant's class.
fn widest_reading(alloc: Global, aig: &Aig, held: &Held<'_>) -> Result<Vec<Lit>, NoMemory>
    requires { length held.now.marks.items ≡ length aig.now.latches }
{
    let mut reads = Vec::with_capacity(alloc, aig.latches().len())?;
    for (place, latch) in aig.latches().iter().enumerate() {
        if may_merge(held, place, latch) {
            reads.push(constant_of(latch.reset))?;
        } else {
            reads.push(own_literal(aig, place))?;
        }
    }
    Ok(reads)
}

/// Guesses what each latch of a circuit may read as: itself, an earlier latch, negated if their
/// resets differ, or a constant. It is a function of the circuit and the held latches alone. No
/// latch reads as itself that hashing merges with another.
///
/// # Errors
///
/// `NoMemory` if memory is refused, and `TooLarge` if there are too many gates.
pub fn guessed_reading(
    alloc: Global,
    circuit: &Circuit,
    keep: &Keep,
) -> Result<Vec<Lit>, SharingError> {
    let aig = circuit.aig();
    let held = Held::new(alloc, keep.positions(), aig.latches().len())?;
    let widest = widest_reading(alloc, aig, &held);
    drop(held);
    let GuessedReads { reads, is_settled } = guess(alloc, aig, widest?, budget_of(aig))?;
    if is_settled {
        Ok(reads)
    } else {
        hashed(alloc, aig, reads)
    }
}
