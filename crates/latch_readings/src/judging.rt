//! The judge of a reading. It makes the circuit in which latches read so, and asks of each latch
//! there if its signature is that of what it reads as. Nobody has to believe how the reading was
//! found.
ghost use Rattle.std.specs.Prelude.{IfOk};
ghost use Rattle.merged_circuits.specs.Readings.{IsReading};
ghost use Rattle.latch_readings.specs.Judgements.{IsJudgement};

use crate::reading::first_misread;
use crate::substitutes::circuit_by;
use aig_graph::{Circuit, Keep, Lit, NoMemory};
use clean::Held;
use std::alloc::Global;
use unit_refutations::{Propagation, first_open};

/// How many visits of gates the question of a latch may take.
const VISITS: u32 = 200_000;

/// What the judge of a reading answers.
#[derive(Drop)]
pub enum Judgement {
    /// The circuit in which latches read so: steps preserve the reading.
    Merged(Circuit),
    /// The first place at which a latch may not read as its literal.
    Misread(usize),
    /// The first latch that isn't shown to be told what that is told which it reads as.
    Open(usize),
}

/// Judges a reading of which each latch may read as its literal.
fn judge_reading(
    alloc: Global,
    circuit: &Circuit,
    keep: &Keep,
    reads: &[Lit],
) -> Result<Judgement, NoMemory>
    requires { IsReading circuit.now.aig keep.now reads.now }
    ensures { IfOk result (IsJudgement circuit.now keep.now reads.now) }
{
    circuit.known();
    let merged = circuit_by(alloc, circuit, keep, reads)?;
    let aig = merged.aig();
    let mut propagation = Propagation::of(alloc, aig)?;
    let open = first_open(alloc, &mut propagation, aig, reads, VISITS)?;
    match open {
        None => Ok(Judgement::Merged(merged)),
        Some(place) => Ok(Judgement::Open(place)),
    }
}

/// Judges whether steps preserve a reading, by unit propagation and probing. If so, the answer is
/// the circuit in which latches read so. `Open` says nothing of the latch: more visits of gates may
/// show it.
///
/// # Errors
///
/// `NoMemory` if memory is refused.
pub fn judge(
    alloc: Global,
    circuit: &Circuit,
    keep: &Keep,
    reads: &[Lit],
) -> Result<Judgement, NoMemory>
    ensures { IfOk result (IsJudgement circuit.now keep.now reads.now) }
{
    let aig = circuit.aig();
    let held = Held::new(alloc, keep.positions(), aig.latches().len())?;
    let misread = first_misread(aig, &held, reads);
    drop(held);
    match misread {
        Some(place) => Ok(Judgement::Misread(place)),
        None => judge_reading(alloc, circuit, keep, reads),
    }
}
