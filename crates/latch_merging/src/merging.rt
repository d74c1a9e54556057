//! Merging by a reading that is guessed and then judged.
//!
//! A latch that the judge doesn't confirm leaves its class, and the rest is judged again. If that
//! goes on, hashing parts the classes that are left. So no latch reads as itself that hashing
//! merges with another. At last each latch reads as itself, which needs no question.
ghost use Rattle.std.specs.Prelude.{◌≡◌, IfOk};
ghost use Rattle.merged_circuits.specs.Inductive.{IsMergedBy};
ghost use Rattle.merged_circuits.specs.Lines.{merged_lines};
ghost use Rattle.latch_merging.specs.Merging.{IsMergedCircuit, IsRound};

use aig_graph::{Aig, Circuit, Keep, Lit, NoMemory, Sequence};
use certificates::MergedLatch;
use clean::own_literal;
use gate_sharing::SharingError;
use latch_readings::{
    Judgement, circuit_by, guessed_reading, hashed, judge, merged_lines, own_reading,
};
use std::alloc::Global;

/// How many latches leave their classes at most before hashing parts the rest.
const MOST_ROUNDS: u32 = 16;

/// A circuit that was merged, and how.
#[derive(Drop)]
pub struct MergedCircuit {
    /// The circuit in which latches read so. It isn't cleaned.
    pub circuit: Circuit,
    /// What each latch of the circuit before reads as.
    pub reads: Vec<Lit>,
    /// The latches of the circuit before that don't read as themselves, in order.
    pub merged: Sequence<MergedLatch>,
}

/// What a round leaves.
#[derive(Drop)]
enum Round {
    /// The judge's circuit.
    Merged(MergedCircuit),
    /// A reading in which a latch more reads as itself.
    Parted(Vec<Lit>),
}

/// Returns the circuit that a circuit is merged to by a reading, with both.
pub(crate) fn merged_with(
    alloc: Global,
    before: &Circuit,
    keep: &Keep,
    circuit: Circuit,
    reads: Vec<Lit>,
) -> Result<MergedCircuit, NoMemory>
    requires { IsMergedBy keep.now reads.items before.now circuit }
    ensures is { IfOk result (IsMergedCircuit keep.now before.now) }
    ensures merged { IfOk result (λ m. m.merged ≡ merged_lines before.now.aig reads.items) }
{
    let _keep = keep;
    let merged = merged_lines(alloc, before.aig(), reads.as_slice())?;
    Ok(MergedCircuit {
        circuit,
        reads,
        merged,
    })
}

/// Lets the latch at a place read as itself.
fn without_latch(aig: &Aig, reads: Vec<Lit>, place: usize) -> Vec<Lit> {
    let mut reads = reads;
    if place < aig.latches().len() {
        if let Some(lit) = reads.get_mut(place) {
            *lit = own_literal(aig, place);
        }
    }
    reads
}

/// Judges a reading. If it isn't shown, the latch at which the judge stopped leaves its class.
fn judged_round(
    alloc: Global,
    circuit: &Circuit,
    keep: &Keep,
    reads: Vec<Lit>,
) -> Result<Round, NoMemory>
    ensures { IfOk result (IsRound keep.now circuit.now) }
{
    match judge(alloc, circuit, keep, reads.as_slice())? {
        Judgement::Merged(merged) => {
            let merged = merged_with(alloc, circuit, keep, merged, reads)?;
            Ok(Round::Merged(merged))
        }
        Judgement::Misread(place) | Judgement::Open(place) => {
            Ok(Round::Parted(without_latch(circuit.aig(), reads, place)))
        }
    }
}

/// Merges no latch: each reads as itself.
fn unmerged(alloc: Global, circuit: &Circuit, keep: &Keep) -> Result<MergedCircuit, NoMemory>
    ensures { IfOk result (IsMergedCircuit keep.now circuit.now) }
{
    let reads = own_reading(alloc, circuit.aig())?;
    let merged = circuit_by(alloc, circuit, keep, reads.as_slice())?;
    merged_with(alloc, circuit, keep, merged, reads)
}

/// Returns a guess. If there are too many gates for it, each latch reads as itself.
fn guess_or_own(
    alloc: Global,
    aig: &Aig,
    guess: Result<Vec<Lit>, SharingError>,
) -> Result<Vec<Lit>, NoMemory> {
    match guess {
        Ok(reads) => Ok(reads),
        Err(SharingError::NoMemory) => Err(NoMemory),
        Err(SharingError::TooLarge) => own_reading(alloc, aig),
    }
}

/// Merges by what hashing shows of a reading, or if that isn't shown, no latch.
fn merge_by_hashing(
    alloc: Global,
    circuit: &Circuit,
    keep: &Keep,
    reads: Vec<Lit>,
) -> Result<MergedCircuit, NoMemory>
    ensures { IfOk result (IsMergedCircuit keep.now circuit.now) }
{
    let parted = hashed(alloc, circuit.aig(), reads);
    let reads = guess_or_own(alloc, circuit.aig(), parted)?;
    match judged_round(alloc, circuit, keep, reads)? {
        Round::Merged(merged) => Ok(merged),
        Round::Parted(reads) => {
            drop(reads);
            unmerged(alloc, circuit, keep)
        }
    }
}

/// Merges the latches that always agree, as far as a guess finds them. Held latches take no part.
/// Names stay, and nothing goes. It is a function of the circuit and the held latches alone.
///
/// # Errors
///
/// `NoMemory` if memory is refused.
pub fn merge_latches(
    alloc: Global,
    circuit: &Circuit,
    keep: &Keep,
) -> Result<MergedCircuit, NoMemory>
    ensures { IfOk result (IsMergedCircuit keep.now circuit.now) }
{
    let guessed = guessed_reading(alloc, circuit, keep);
    let mut reads = guess_or_own(alloc, circuit.aig(), guessed)?;
    for _ in 0..MOST_ROUNDS {
        match judged_round(alloc, circuit, keep, reads)? {
            Round::Merged(merged) => return Ok(merged),
            Round::Parted(finer) => reads = finer,
        }
    }
    merge_by_hashing(alloc, circuit, keep, reads)
}
