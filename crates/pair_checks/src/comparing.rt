//! Asks of each property whether it is that of the other circuit.
ghost use Rattle.std.specs.Prelude.{◌≡◌, ◌<◌, None, true, All, IfNone, IfOk, length};
ghost use Rattle.std.specs.List.{slice_index_or};
ghost use Rattle.aig_graph.specs.Gates.{AreEqualIn, gates_of};
ghost use Rattle.aig_graph.specs.Graph.{variable};
ghost use Rattle.gate_sharing.specs.Copies.{copied_end, copy_of};
ghost use Rattle.pair_checks.specs.Sides.{AreEqualAt};

use crate::judging::VISITS;
use crate::pairs::Pair;
use aig_graph::{Lit, NoMemory};
use std::alloc::Global;
use unit_refutations::{Propagation, equal_by_probing};

/// The first literal that isn't shown to be that of the other circuit, and how many are.
#[derive(Clone, Copy)]
pub(crate) struct Compared {
    pub(crate) open: Option<usize>,
    pub(crate) shown: usize,
}

/// Returns the literal at a place.
fn literal_at(lits: &[Lit], place: usize) -> Lit
    requires { place < length lits.now }
    ensures { result ≡ slice_index_or lits.now place 0 }
{
    lits[place]
}

/// Returns true if a literal of the second circuit is shown to be equal to one of the first.
fn is_equal(
    alloc: Global,
    propagation: &mut Propagation,
    pair: &Pair,
    first: Lit,
    second: Lit,
) -> Result<bool, NoMemory>
    requires first { variable first < copied_end pair.now.first }
    requires second { variable second < copied_end pair.now.second }
    ensures { IfOk result (λ equal. equal ≡ true → AreEqualIn (gates_of pair.now.graph)
        (copy_of pair.now.second second) (copy_of pair.now.first first)) }
{
    let theirs = pair.second.literal(second);
    let ours = pair.first.literal(first);
    propagation.allow(VISITS);
    equal_by_probing(alloc, propagation, &pair.graph, theirs, ours)
}

/// Returns what was found, and whether the literals of one more place are equal.
fn with_place(found: Compared, place: usize, equal: bool) -> Compared
    ensures { result.open ≡ None → (equal ≡ true) × (found.open ≡ None) }
{
    if equal {
        Compared {
            open: found.open,
            shown: found.shown.wrapping_add(1),
        }
    } else if found.open.is_none() {
        Compared {
            open: Some(place),
            shown: found.shown,
        }
    } else {
        found
    }
}

/// Asks of literals of both circuits whether those of one place are equal.
pub(crate) fn compare(
    alloc: Global,
    pair: &Pair,
    first: &[Lit],
    second: &[Lit],
) -> Result<Compared, NoMemory>
    requires long { length second.now ≡ length first.now }
    requires first { All (λ lit. variable lit < copied_end pair.now.first) first.now }
    requires second { All (λ lit. variable lit < copied_end pair.now.second) second.now }
    ensures { IfOk result (λ found. IfNone found.open (AreEqualAt pair.now first.now second.now
        (length first.now))) }
{
    let mut propagation = Propagation::of(alloc, &pair.graph)?;
    let mut found = Compared {
        open: None,
        shown: 0,
    };
    for place in 0..first.len() {
        let ours = literal_at(first, place);
        let theirs = literal_at(second, place);
        let equal = is_equal(alloc, &mut propagation, pair, ours, theirs)?;
        found = with_place(found, place, equal);
    }
    Ok(found)
}
