//! Literals by the ranks of their gates.
ghost use Rattle.std.specs.Prelude.{◌≡◌, ◌+◌, ◌<◌, length, map, All, IfOk};
ghost use Rattle.aag_text.specs.Arranging.{AreMovable, IsBelow, HasFanInsBelow, gates_in_order, moved, moved_latch};

use aig_graph::{Gate, Latch, Lit, NoMemory};
use std::alloc::Global;

/// Returns the literal with its gate's rank in the place of its file place.
fn literal(first: u32, ranks: &[u32], lit: Lit) -> Lit
    requires movable { AreMovable first ranks.now }
    requires below { IsBelow (first + length ranks.now) lit }
    ensures { result ≡ moved first ranks.now lit }
{
    if lit.var() < first {
        lit
    } else {
        let rank = ranks[(lit.var() - first) as usize];
        Lit::new(first + rank, lit.is_negated())
    }
}

/// Returns the numbers of the literals.
pub(crate) fn literals(
    alloc: Global,
    first: u32,
    ranks: &[u32],
    lits: &[Lit],
) -> Result<Vec<u32>, NoMemory>
    requires movable { AreMovable first ranks.now }
    requires below { All (IsBelow (first + length ranks.now)) lits.now }
    ensures { IfOk result (λ codes. codes.items ≡ map (moved first ranks.now) lits.now) }
{
    let mut codes = Vec::with_capacity(alloc, lits.len())?;
    for lit in lits {
        codes.push_reserved(literal(first, ranks, *lit).code());
    }
    Ok(codes)
}

/// Returns the latches, with their literals by rank.
pub(crate) fn latches(
    alloc: Global,
    first: u32,
    ranks: &[u32],
    latches: &[Latch],
) -> Result<Vec<Latch>, NoMemory>
    requires movable { AreMovable first ranks.now }
    requires below { All (λ latch. IsBelow (first + length ranks.now) latch.next) latches.now }
    ensures { IfOk result (λ found. found.items ≡ map (moved_latch first ranks.now) latches.now) }
{
    let mut found = Vec::with_capacity(alloc, latches.len())?;
    for latch in latches {
        found.push_reserved(Latch {
            next: literal(first, ranks, latch.next),
            reset: latch.reset,
        });
    }
    Ok(found)
}

/// Returns the gates in order, the larger fan-in of each first.
pub(crate) fn gates(
    alloc: Global,
    first: u32,
    ranks: &[u32],
    order: &[u32],
    gates: &[Gate],
) -> Result<Vec<Gate>, NoMemory>
    requires movable { AreMovable first ranks.now }
    requires order { All (λ g. g < length gates.now) order.now }
    requires below { All (HasFanInsBelow (first + length ranks.now)) gates.now }
    ensures { IfOk result (λ found. found.items ≡ gates_in_order first ranks.now order.now
        gates.now) }
{
    let mut found = Vec::with_capacity(alloc, order.len())?;
    for place in order {
        let gate = gates[*place as usize];
        found.push_reserved(Gate::of(
            literal(first, ranks, gate.rhs0),
            literal(first, ranks, gate.rhs1),
        ));
    }
    Ok(found)
}
