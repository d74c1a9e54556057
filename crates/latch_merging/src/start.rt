//! The start of a run that merges: a circuit cleaned, and then merged.
//!
//! It is cleaned first so that a class's first latch is one that something depends on. Also, a
//! circuit in which no two latches agree is then what it is without merging.
ghost use Rattle.std.specs.Prelude.{◌<◌, All, IfOk, length};
ghost use Rattle.aig_graph.specs.Streams.{SameStreams};
ghost use Rattle.retimed_circuits.specs.Merging.{MergesIn};
ghost use Rattle.retimed_circuits.specs.Names.{StayHeld};
ghost use Rattle.latch_merging.specs.Starts.{IsStartOf};

use crate::merging::{MergedCircuit, merge_latches};
use aig_graph::{Circuit, Keep, NoMemory, Sequence};
use certificates::MergedLatch;
use clean::{Cleaned, clean};
use std::alloc::Global;

/// A circuit that was cleaned and then merged.
#[derive(Drop)]
pub struct MergedStart {
    /// The merged circuit, which isn't cleaned again.
    pub circuit: Circuit,
    /// The held latches, at their positions in that circuit.
    pub keep: Keep,
    /// For each free latch of that circuit its place, from 0, among the free latches of the circuit
    /// that was given.
    pub kept_free: Sequence<u32>,
    /// The latches of the cleaned circuit that were merged, in order, and what each reads as.
    pub merged: Sequence<MergedLatch>,
}

/// Merges the latches of a cleaned circuit. Its held latches take no part.
fn start_of(alloc: Global, cleaned: Cleaned) -> Result<MergedStart, NoMemory>
    ensures { IfOk result (IsStartOf cleaned) }
{
    let Cleaned {
        circuit: before,
        keep,
        kept_free,
        ..
    } = cleaned;
    let merging = merge_latches(alloc, &before, &keep);
    drop(before);
    match merging {
        Ok(
            MergedCircuit {
                circuit,
                merged,
                ..
            },
        ) => Ok(MergedStart {
            circuit,
            keep,
            kept_free,
            merged,
        }),
        Err(error) => Err(error),
    }
}

/// Cleans a circuit, and merges its latches that always agree. The held latches stay and take no
/// part.
///
/// # Errors
///
/// `NoMemory` if memory is refused.
pub fn merged_start(alloc: Global, circuit: &Circuit, keep: &Keep) -> Result<MergedStart, NoMemory>
    requires in_range { All (λ j. j < length circuit.now.aig.latches) keep.now }
    ensures merges { IfOk result (λ m. MergesIn keep.now circuit.now m.circuit m.kept_free
        m.keep m.merged) }
    ensures streams { IfOk result (λ m. SameStreams circuit.now m.circuit m.kept_free) }
    ensures stay { IfOk result (λ m. StayHeld keep.now circuit.now m.keep m.circuit) }
    ensures in_range { IfOk result (λ m. All (λ j. j < length m.circuit.aig.latches) m.keep) }
{
    // Tells the prover that it is a circuit.
    circuit.known();
    let cleaned = clean(alloc, circuit, keep)?;
    start_of(alloc, cleaned)
}
