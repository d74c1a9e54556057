//! A map that follows a cleaning, pass after pass. The substitute of a latch gives a constraint,
//! and latches that stay keep their functions.
ghost use Rattle.std.specs.Prelude.{◌≡◌, ◌<◌, ◌≤◌, ◌⊎◌, All, IfOk, OnOk, false, length, true};
ghost use Rattle.std.specs.List.Sorted.{IsStrictlyIncreasing};
ghost use Rattle.aig_graph.specs.Graph.{free_latches, latches_and_gates};
ghost use Rattle.clean.specs.Settled.{AreOwnLatches};
ghost use Rattle.clean.specs.Tracing.{IsTraced};
ghost use Rattle.retiming_maps.specs.Mapping.{IsCleanedAlong, IsNextAlong, IsPassAlong, IsSomeMapTo, LeadsOn};

use crate::parts::MapParts;
use aig_graph::{Circuit, Keep, Sequence};
use clean::{Cleaned, TracedPass, composed, has_more, kept_twice, traced_pass};
use map_circuits::{MapError, add_constraints};
use std::alloc::Global;

/// Follows a pass that was made with these latches held.
fn follow_pass(
    parts: &mut MapParts,
    circuit: &Circuit,
    held: &[u32],
    pass: &TracedPass,
) -> Result<(), MapError>
    requires map { IsSomeMapTo circuit.now parts.old }
    requires traced { IsTraced held.now circuit.now pass.now }
    ensures { OnOk result (LeadsOn circuit.now parts.old pass.now.circuit
        pass.now.kept_free.items parts.new) }
{
    let _held = held;
    let functions = parts.functions.as_slice();
    let first = circuit.aig().first_latch();
    let substitutes = pass.substitutes.as_slice();
    add_constraints(
        &mut parts.gates,
        &mut parts.constraints,
        functions,
        first,
        substitutes,
    )?;
    let stays = pass.stays.as_slice();
    parts.functions.follow_pass(stays);
    Ok(())
}

/// Runs a pass of cleaning, with the latches at these positions held.
fn passed(
    alloc: Global,
    parts: &mut MapParts,
    circuit: &Circuit,
    held: &[u32],
) -> Result<TracedPass, MapError>
    requires map { IsSomeMapTo circuit.now parts.old }
    requires in_range { All (λ j. j < length circuit.now.aig.latches) held.now }
    ensures { IfOk result (IsPassAlong held.now circuit.now parts.old parts.new) }
{
    let pass = traced_pass(alloc, circuit, held)?;
    match follow_pass(parts, circuit, held, &pass) {
        Ok(()) => Ok(pass),
        Err(error) => {
            drop(pass);
            Err(error)
        }
    }
}

/// Runs the pass after a pass. The places of the last pass may be counted among the free latches of
/// an earlier circuit; those of this one are then too.
fn pass_after(
    alloc: Global,
    parts: &mut MapParts,
    last: &TracedPass,
) -> Result<TracedPass, MapError>
    requires map { IsSomeMapTo last.now.circuit parts.old }
    requires in_range { All (λ j. j < length last.now.circuit.aig.latches) last.now.held.items }
    requires places { length last.now.kept_free.items ≡ free_latches last.now.circuit.aig }
    ensures { IfOk result (IsNextAlong last.now parts.old parts.new) }
{
    // That it is a circuit is what its readers ensure.
    last.circuit.known();
    let mut next = passed(alloc, parts, &last.circuit, last.held.as_slice())?;
    let places = composed(alloc, last.kept_free.as_slice(), next.kept_free.as_slice())?;
    let kept = kept_twice(alloc, last.kept.as_slice(), next.kept.as_slice())?;
    next.kept_free = places;
    next.kept = kept;
    Ok(next)
}

/// Runs the pass after a pass, and drops that one.
fn next_pass(alloc: Global, parts: &mut MapParts, last: TracedPass) -> Result<TracedPass, MapError>
    requires map { IsSomeMapTo last.circuit parts.old }
    requires in_range { All (λ j. j < length last.circuit.aig.latches) last.held.items }
    requires places { length last.kept_free.items ≡ free_latches last.circuit.aig }
    ensures { IfOk result (IsNextAlong last parts.old parts.new) }
{
    let next = pass_after(alloc, parts, &last);
    drop(last);
    next
}

/// Returns what the last pass leaves.
fn cleaned_by(last: TracedPass) -> Cleaned
    requires { IsStrictlyIncreasing last.held.items }
    ensures circuit { result.circuit ≡ last.circuit }
    ensures keep { result.keep ≡ last.held.items }
    ensures kept_free { result.kept_free ≡ last.kept_free.items }
{
    let TracedPass {
        circuit,
        kept_free,
        held,
        kept,
        ..
    } = last;
    Cleaned {
        circuit,
        keep: Keep::new(held),
        kept_free: Sequence::from_vec(kept_free),
        kept,
    }
}

/// Returns true if another pass is to be made of what the last one left. `before` is the number of
/// latches and gates before the last pass.
fn goes_on(alloc: Global, last: &TracedPass, before: usize) -> bool
    requires { All (λ j. j < length last.now.circuit.aig.latches) last.now.held.items }
    ensures fewer { result ≡ true → latches_and_gates last.now.circuit.aig < before }
    ensures done { result ≡ false → (before ≤ latches_and_gates last.now.circuit.aig)
        ⊎ AreOwnLatches last.now.circuit.aig last.now.held.items }
{
    has_more(alloc, &last.circuit, last.held.as_slice(), before)
}

/// Cleans the circuit pass after pass until one changes nothing, as [`clean::clean`] does, and
/// follows it with the map.
///
/// # Errors
///
/// `NoMemory` if memory is refused, `TooLarge` if the map would have more variables than a graph
/// may have.
pub fn cleaned_along(
    alloc: Global,
    parts: &mut MapParts,
    circuit: &Circuit,
    keep: &Keep,
) -> Result<Cleaned, MapError>
    requires map { IsSomeMapTo circuit.now parts.old }
    requires in_range { All (λ j. j < length circuit.now.aig.latches) keep.now }
    ensures { IfOk result (IsCleanedAlong keep.now circuit.now parts.old parts.new) }
{
    let mut before = circuit.aig().latches_and_gates();
    let mut last = passed(alloc, parts, circuit, keep.positions())?;
    while goes_on(alloc, &last, before) {
        before = last.circuit.aig().latches_and_gates();
        last = next_pass(alloc, parts, last)?;
    }
    Ok(cleaned_by(last))
}
