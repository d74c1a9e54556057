//! The circuit that a block makes of its own.
ghost use Rattle.std.specs.Prelude.{ℕ, ◌≡◌, ◌<◌, ◌≤◌, All, IfOk, List, Option, length};
ghost use Rattle.std.specs.List.Sorted.{IsStrictlyIncreasing};
ghost use Rattle.aig_graph.specs.Closed.{IsClosedSet};
ghost use Rattle.aig_graph.specs.Move.{move_of};
ghost use Rattle.aig_graph.specs.declared.literal.TheConstants.{MAX_VARIABLES};
ghost use Rattle.rebuild.specs.Moved.{moved_size};
ghost use Rattle.retimed_circuits.specs.Frames.{held_over, moved_over};
ghost use Rattle.certificate_audits.specs.Audits.{IsNext, Saves};

use aig_graph::{Circuit, ClosedSet, Keep, NoMemory};
use certificates::Certificate;
use clean::{Cleaned, clean};
use rebuild::{MoveMarks, moved_by};
use std::alloc::Global;

/// A circuit that a block is for, or that blocks end in, and its held latches.
#[derive(Drop)]
pub struct Stage {
    pub circuit: Circuit,
    pub keep: Keep,
}

/// Makes a stage of a cleaned circuit and its held latches.
pub(crate) fn stage_of(cleaned: Cleaned) -> Stage
    ensures circuit { result.circuit ≡ cleaned.circuit }
    ensures keep { result.keep ≡ cleaned.keep }
{
    let Cleaned { circuit, keep, .. } = cleaned;
    Stage { circuit, keep }
}

/// Makes a set of gates whose variables rise.
fn set_of(alloc: Global, gates: &[u32]) -> Result<ClosedSet, NoMemory>
    requires { IsStrictlyIncreasing gates.now }
    ensures { IfOk result (λ set. set ≡ gates.now) }
{
    let mut vars = Vec::with_capacity(alloc, gates.len())?;
    vars.extend_from_slice(gates)?;
    match ClosedSet::new(vars) {
        Some(set) => Ok(set),
        None => unreachable!(),
    }
}

/// Moves the latches of a circuit over `set`. The result has the held latches at their new
/// positions.
fn moved_stage(alloc: Global, stage: &Stage, set: &ClosedSet) -> Result<Stage, NoMemory>
    requires in_range { All (λ j. j < length stage.now.circuit.aig.latches) stage.now.keep }
    requires closed { IsClosedSet stage.now.circuit.aig stage.now.keep set.now }
    requires room { moved_size (move_of stage.now.circuit stage.now.keep set.now) ≤ MAX_VARIABLES }
    ensures circuit { IfOk result (λ after. after.circuit
        ≡ moved_over stage.now.keep stage.now.circuit set.now) }
    ensures keep { IfOk result (λ after. after.keep
        ≡ held_over stage.now.keep stage.now.circuit set.now) }
{
    let marks = MoveMarks::new(alloc, &stage.circuit, set, &stage.keep)?;
    let keep = marks.held_after(alloc, &stage.circuit, set, &stage.keep)?;
    let circuit = moved_by(alloc, &stage.circuit, set, &stage.keep, marks)?;
    Ok(Stage { circuit, keep })
}

/// Moves the latches of a circuit over the set of `block`, which saves latches.
pub(crate) fn moved_over(
    alloc: Global,
    stage: &Stage,
    block: &Certificate,
) -> Result<Stage, NoMemory>
    requires in_range { All (λ j. j < length stage.now.circuit.aig.latches) stage.now.keep }
    requires saves { (bound : Option ℕ) × Saves bound stage.now.keep stage.now.circuit block.now }
    ensures circuit { IfOk result (λ after. after.circuit
        ≡ moved_over stage.now.keep stage.now.circuit block.now.gates) }
    ensures keep { IfOk result (λ after. after.keep
        ≡ held_over stage.now.keep stage.now.circuit block.now.gates) }
{
    // Tells the prover that the circuit is a graph.
    stage.circuit.known();
    let set = set_of(alloc, block.gates.as_slice())?;
    let moved = moved_stage(alloc, stage, &set);
    drop(set);
    moved
}

/// Makes the circuit of the next block: moves latches over this block's set, and cleans.
fn next_stage(alloc: Global, stage: &Stage, block: &Certificate) -> Result<Stage, NoMemory>
    requires in_range { All (λ j. j < length stage.now.circuit.aig.latches) stage.now.keep }
    requires saves { (bound : Option ℕ) × Saves bound stage.now.keep stage.now.circuit block.now }
    ensures next { IfOk result (λ next. IsNext stage.now.keep stage.now.circuit block.now
        next.circuit next.keep) }
    ensures in_range { IfOk result (λ next.
        All (λ j. j < length next.circuit.aig.latches) next.keep) }
{
    let after = moved_over(alloc, stage, block)?;
    let cleaned = clean(alloc, &after.circuit, &after.keep);
    drop(after);
    match cleaned {
        Ok(found) => Ok(stage_of(found)),
        Err(error) => Err(error),
    }
}

/// Makes the circuit of the next block, and drops this one.
pub(crate) fn after_block(
    alloc: Global,
    stage: Stage,
    block: &Certificate,
) -> Result<Stage, NoMemory>
    requires in_range { All (λ j. j < length stage.circuit.aig.latches) stage.keep }
    requires saves { (bound : Option ℕ) × Saves bound stage.keep stage.circuit block.now }
    ensures next { IfOk result (λ next. IsNext stage.keep stage.circuit block.now
        next.circuit next.keep) }
    ensures in_range { IfOk result (λ next.
        All (λ j. j < length next.circuit.aig.latches) next.keep) }
{
    let next = next_stage(alloc, &stage, block);
    drop(stage);
    next
}
