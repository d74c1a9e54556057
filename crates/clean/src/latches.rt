//! The substitute of a latch: its reset's constant, if it never leaves that. Otherwise it is the
//! first latch with its next literal and its known reset, or the latch itself. Two free latches are
//! never one, since they may begin with different values. A held latch is its own substitute, and
//! others may become it.
ghost use Rattle.std.specs.Prelude.{◌≡◌, ◌<◌, ◌+◌, ◌*◌, ◌&&◌, ◌||◌, ◌==◌, not, slice_get, length, true, Some, OnOk, IfOk};
ghost use Rattle.aig_graph.specs.Graph.{first_latch, first_gate, is_free};
ghost use Rattle.aig_graph.specs.Tables.{table};
ghost use Rattle.cleaned_circuits.specs.Latches.{constant_of, latch_substitute, leaf_substitute};
ghost use Rattle.clean.specs.Firsts.{AreFirsts};
ghost use Rattle.clean.specs.Settled.{AreOwnLatches};
ghost use Rattle.clean.specs.Substitutions.{own_literals};

use crate::firsts::FirstLatches;
use crate::held::Held;
use crate::substitution::Substitution;
use aig_graph::{Aig, Latch, Lit, NoMemory, Reset};
use std::alloc::Global;

/// Returns the constant of a known reset.
pub fn constant_of(reset: Reset) -> Lit
    ensures { result ≡ constant_of reset }
{
    match reset {
        Reset::Zero => Lit::FALSE,
        Reset::One => Lit::TRUE,
        Reset::Free => Lit::FALSE,
    }
}

/// Returns true if the latch is known, isn't held, and reads itself or the constant of its reset.
fn is_constant_latch(latch: Latch, own: Lit, is_held: bool) -> bool
    ensures { result ≡ (not (is_free latch) && not is_held &&
        (latch.next == own || latch.next == constant_of latch.reset)) }
{
    let stays = (latch.next == own) | (latch.next == constant_of(latch.reset));
    (latch.reset != Reset::Free) & !is_held & stays
}

/// Returns the literal of the latch at a place.
pub fn own_literal(aig: &Aig, place: usize) -> Lit
    requires { place < length aig.now.latches }
    ensures { result ≡ 2 * (first_latch aig.now + place) }
{
    Lit::new(aig.first_latch() + place as u32, false)
}

/// Returns the substitute of the latch at a place, beside the first latches before it.
pub(crate) fn substitute_for_latch(
    firsts: &mut FirstLatches,
    aig: &Aig,
    held: &Held<'_>,
    place: usize,
    latch: Latch,
) -> Result<Lit, NoMemory>
    requires there { slice_get aig.now.latches place ≡ Some latch }
    requires held { length held.now.marks.items ≡ length aig.now.latches }
    requires firsts { AreFirsts aig.now held.now.positions.now place firsts.old }
    ensures literal { IfOk result (λ lit. lit ≡ latch_substitute aig.now held.now.positions.now
        place
        (Some latch)) }
    ensures firsts { OnOk result (AreFirsts aig.now held.now.positions.now (place + 1) firsts.new) }
{
    let own = own_literal(aig, place);
    let is_held = held.has(place);
    if is_constant_latch(latch, own, is_held) {
        return Ok(constant_of(latch.reset));
    }
    if latch.reset == Reset::Free {
        return Ok(own);
    }
    let first = firsts.first_duplicate(latch, own)?;
    if is_held { Ok(own) } else { Ok(first) }
}

/// Adds the substitute of each latch to those of the variables before them.
pub(crate) fn latch_substitutes(
    alloc: Global,
    aig: &Aig,
    held: &Held<'_>,
    substitutes: &mut Substitution,
) -> Result<(), NoMemory>
    requires held { length held.now.marks.items ≡ length aig.now.latches }
    requires inputs { substitutes.old ≡ own_literals (first_latch aig.now) }
    ensures { OnOk result (substitutes.new ≡ table 0 (first_gate aig.now)
        (leaf_substitute aig.now held.now.positions.now)) }
{
    let mut firsts = FirstLatches::new(alloc);
    for (place, latch) in aig.latches().iter().enumerate() {
        let substitute = substitute_for_latch(&mut firsts, aig, held, place, *latch)?;
        substitutes.push(substitute)?;
    }
    Ok(())
}

/// Returns true if each latch is its own substitute.
pub(crate) fn are_own_latches(alloc: Global, aig: &Aig, held: &Held<'_>) -> Result<bool, NoMemory>
    requires held { length held.now.marks.items ≡ length aig.now.latches }
    ensures { IfOk result (λ yes. yes ≡ true → AreOwnLatches aig.now held.now.positions.now) }
{
    let mut firsts = FirstLatches::new(alloc);
    for (place, latch) in aig.latches().iter().enumerate() {
        let substitute = substitute_for_latch(&mut firsts, aig, held, place, *latch)?;
        let is_own = substitute == own_literal(aig, place);
        if !is_own {
            return Ok(false);
        }
    }
    Ok(true)
}
