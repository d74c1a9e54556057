//! The graph of a draft.
ghost use Rattle.std.specs.Prelude.{◌≡◌, ◌+◌, ◌≤◌, IfOk, OnOk, length, map};
ghost use Rattle.aig_graph.specs.declared.literal.TheConstants.{MAX_VARIABLES};
ghost use Rattle.aig_graph.specs.Graph.{variables_end};
ghost use Rattle.sealed_drafts.specs.Sealed.{IsGrown, IsSealed, IsWired, reset_of};

use crate::seals::{SealError, literal_below};
use aig_graph::{Aig, AigBuilder, MAX_VARIABLES, NoMemory, Reset};
use backward_sets::{DraftLatch, DraftReset, Pair};
use std::alloc::Global;

/// Returns the value of a draft's latch at step 0. One that may have either value has 0.
fn reset_of(reset: DraftReset) -> Reset
    ensures { result ≡ reset_of reset }
{
    match reset {
        DraftReset::Zero | DraftReset::Any => Reset::Zero,
        DraftReset::One => Reset::One,
        DraftReset::Free => Reset::Free,
    }
}

/// Returns the resets of latches.
fn resets_of(alloc: Global, latches: &[DraftLatch]) -> Result<Vec<Reset>, NoMemory>
    ensures { IfOk result (λ resets. resets.items ≡ map (λ latch. reset_of latch.reset)
        latches.now) }
{
    let mut resets = Vec::with_capacity(alloc, latches.len())?;
    for latch in latches {
        resets.push(reset_of(latch.reset))?;
    }
    Ok(resets)
}

/// Adds gates, of which the first gets this variable.
fn add_gates(builder: &mut AigBuilder, first: usize, pairs: &[Pair]) -> Result<(), SealError>
    requires room { first + length pairs.now ≤ MAX_VARIABLES }
    requires first { variables_end builder.old ≡ first }
    ensures { OnOk result (IsGrown builder.old (length pairs.now) builder.new) }
{
    for (place, pair) in pairs.iter().enumerate() {
        let larger = literal_below(pair.larger, first + place)?;
        let smaller = literal_below(pair.smaller, first + place)?;
        builder.and(larger, smaller)?;
    }
    Ok(())
}

/// Gives the latches their next literals, whose variables are before this end.
fn set_nexts(builder: &mut AigBuilder, end: usize, latches: &[DraftLatch]) -> Result<(), SealError>
    requires room { end ≤ MAX_VARIABLES }
    requires end { variables_end builder.old ≡ end }
    requires many { length latches.now ≡ length builder.old.latches }
    ensures { OnOk result (IsWired builder.old builder.new) }
{
    for (place, latch) in latches.iter().enumerate() {
        let next = literal_below(latch.next, end)?;
        builder.set_latch(place, next);
    }
    Ok(())
}

/// Returns the graph with these inputs, latches and gates.
///
/// # Errors
///
/// `NoMemory` if memory is refused, `OutOfRange` if a literal isn't one of the graph, or there are
/// too many variables.
pub(crate) fn sealed_graph(
    alloc: Global,
    inputs: u32,
    latches: &[DraftLatch],
    gates: &[Pair],
) -> Result<Aig, SealError>
    ensures { IfOk result (IsSealed inputs (length latches.now) (length gates.now)) }
{
    let resets = resets_of(alloc, latches)?;
    let mut builder = AigBuilder::new(alloc, inputs, resets)?;
    let first = 1 + inputs as usize + latches.len();
    if gates.len() > MAX_VARIABLES - first {
        return Err(SealError::OutOfRange);
    }
    add_gates(&mut builder, first, gates)?;
    set_nexts(&mut builder, first + gates.len(), latches)?;
    Ok(builder.finish())
}
