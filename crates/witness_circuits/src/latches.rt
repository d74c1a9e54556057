//! The latches: those of the circuit, then the witness's own. A builder begins with their resets,
//! and they get their next literals when the gates are there.
ghost use Rattle.std.specs.Prelude.{ℕ, ◌≡◌, ◌<◌, ◌++◌, All, IfOk, OnOk, length, map};
ghost use Rattle.aig_graph.specs.Circuits.{AreLiteralsOf};
ghost use Rattle.aig_graph.specs.Graph.{IsGraph, variable};
ghost use Rattle.map_circuits.specs.Instances.{substitute};
ghost use Rattle.witness_circuits.specs.Latches.{AreOwn, with_nexts};

use crate::literals::is_own;
use aig_graph::{AigBuilder, Latch, Lit, NoMemory, Reset};
use map_circuits::Instance;
use std::alloc::Global;

/// Returns the latches whose places are shared with none.
pub(crate) fn own_latches(
    alloc: Global,
    places: &[Option<u32>],
    latches: &[Latch],
) -> Result<Vec<Latch>, NoMemory>
    requires { length places.now ≡ length latches.now }
    ensures { IfOk result (λ own. AreOwn places.now latches.now (length places.now) own.items) }
{
    let mut own = Vec::new(alloc);
    for (place, latch) in latches.iter().enumerate() {
        if is_own(&places[place]) {
            own.push(*latch)?;
        }
    }
    Ok(own)
}

/// Appends the resets of latches.
///
/// # Errors
///
/// `NoMemory` if memory is refused; some may have been appended.
pub fn push_resets(resets: &mut Vec<Reset>, latches: &[Latch]) -> Result<(), NoMemory>
    ensures { OnOk result (resets.new.items ≡ resets.old.items ++ map (λ latch. latch.reset)
        latches.now) }
{
    for latch in latches {
        resets.push(latch.reset)?;
    }
    Ok(())
}

/// Appends the literals that stand for the next literals of latches.
///
/// # Errors
///
/// `NoMemory` if memory is refused; some may have been appended.
pub fn push_nexts(
    nexts: &mut Vec<Lit>,
    instance: &Instance,
    latches: &[Latch],
) -> Result<(), NoMemory>
    requires { All (λ latch. variable latch.next < length instance.now) latches.now }
    ensures { OnOk result (nexts.new.items ≡ nexts.old.items ++ map
        (λ latch. substitute instance.now latch.next) latches.now) }
{
    for latch in latches {
        nexts.push(instance.literal(latch.next))?;
    }
    Ok(())
}

/// Gives each latch its next literal.
pub fn set_nexts(gates: &mut AigBuilder, nexts: &[Lit])
    requires many { length nexts.now ≡ length gates.old.latches }
    requires within { AreLiteralsOf gates.old nexts.now }
    requires graph { IsGraph gates.old }
    ensures is { gates.new ≡ record gates.old {
      latches = with_nexts nexts.now
          gates.old.latches;
    } }
    ensures graph { IsGraph gates.new }
{
    for (place, next) in nexts.iter().enumerate() {
        gates.set_latch(place, *next);
    }
}
