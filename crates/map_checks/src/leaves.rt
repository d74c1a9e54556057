//! What the inputs and latches of a circuit are among shared gates, before its gates are copied.
ghost use Rattle.std.specs.Prelude.{◌≡◌, ◌<◌, ◌++◌, All, IfOk, OnOk, map};
ghost use Rattle.aig_graph.specs.Graph.{variable};
ghost use Rattle.gate_sharing.specs.Equal.{StaysRight};
ghost use Rattle.gate_sharing.specs.Copies.{copied_end, copy_of};
ghost use Rattle.map_checks.specs.Images.{StandForLatches, nexts_of, copy_of_literals};

use aig_graph::{Aig, Lit, NoMemory};
use gate_sharing::{Copied, Equalities};
use std::alloc::Global;

/// Returns the substitute of each latch, from a variable on.
pub(crate) fn latch_leaves(
    alloc: Global,
    equal: &mut Equalities,
    aig: &Aig,
    first: u32,
) -> Result<Copied, NoMemory>
    ensures right { OnOk result (StaysRight equal.old equal.new) }
    ensures leaves { IfOk result (StandForLatches equal.old aig.now first) }
{
    let first_latch = aig.first_latch();
    let mut literals = Vec::with_capacity(alloc, aig.latches().len())?;
    for place in 0..aig.latches().len() as u32 {
        literals.push(equal.find(Lit::new(first_latch + place, false)))?;
    }
    Ok(Copied::of(first, literals))
}

/// Returns the next literals of all latches.
pub(crate) fn nexts(alloc: Global, aig: &Aig) -> Result<Vec<Lit>, NoMemory>
    ensures { IfOk result (λ lits. lits.items ≡ nexts_of aig.now.latches) }
{
    let mut lits = Vec::with_capacity(alloc, aig.latches().len())?;
    for latch in aig.latches() {
        lits.push(latch.next)?;
    }
    Ok(lits)
}

/// Adds the shared literals of these.
pub(crate) fn push_copies(
    literals: &mut Vec<Lit>,
    copied: &Copied,
    lits: &[Lit],
) -> Result<(), NoMemory>
    requires { All (λ lit. variable lit < copied_end copied.now) lits.now }
    ensures { OnOk result (literals.new.items
        ≡ literals.old.items ++ map (copy_of copied.now) lits.now) }
{
    literals.reserve(lits.len())?;
    for lit in lits {
        literals.push(copied.literal(*lit))?;
    }
    Ok(())
}

/// Returns the shared literals of these, from a variable on.
pub(crate) fn picked(
    alloc: Global,
    first: u32,
    copied: &Copied,
    lits: &[Lit],
) -> Result<Copied, NoMemory>
    requires { All (λ lit. variable lit < copied_end copied.now) lits.now }
    ensures { IfOk result (λ leaves. leaves ≡ copy_of_literals first copied.now lits.now) }
{
    let mut literals = Vec::new(alloc);
    push_copies(&mut literals, copied, lits)?;
    Ok(Copied::of(first, literals))
}
