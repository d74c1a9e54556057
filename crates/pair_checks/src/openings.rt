//! How the latches of both circuits begin: a known one as its reset, and a free one as a variable
//! of its own. It shares that with the free latch of the other circuit that it stands for.
ghost use Rattle.std.specs.Prelude.{◌≡◌, ◌<◌, ◌-◌, ◌^◌, All, IfOk};
ghost use Rattle.std.specs.List.{slice_index_or};
ghost use Rattle.aig_graph.specs.Graph.{free_latches};
ghost use Rattle.aig_graph.specs.Value.{opening_literal};
ghost use Rattle.pair_checks.specs.Openings as wanted;

use aig_graph::{Aig, Latch, Lit, NoMemory, opening_literal};
use clean::all_places;
use map_checks::free_places;
use std::alloc::Global;

/// Returns the entry of a list at a place, and 0 past its end.
fn entry_at(list: &[u32], place: usize) -> u32
    ensures value { result ≡ slice_index_or list.now place 0 }
    ensures small { All (λ entry. entry < 2 ^ 28 - 1) list.now → result < 2 ^ 28 - 1 }
{
    list.get(place).copied().unwrap_or(0)
}

/// Returns how a latch begins that is at this place if it is free.
fn opening_of(place: u32, latch: &Latch) -> Lit
    requires { place < 2 ^ 28 - 1 }
    ensures { result ≡ opening_literal latch.now.reset (wanted.choice_literal place) }
{
    opening_literal(latch.reset, Lit::new(1 + place, false))
}

/// Returns how the latches of a circuit begin, of which the free ones are at these places.
fn openings_of(alloc: Global, aig: &Aig, kept: &[u32]) -> Result<Vec<Lit>, NoMemory>
    requires { All (λ place. place < 2 ^ 28 - 1) kept.now }
    ensures { IfOk result (λ begins. begins.items ≡ wanted.openings_of aig.now kept.now) }
{
    let numbers = free_places(alloc, aig)?;
    let mut begins = Vec::new(alloc);
    for (place, latch) in aig.latches().iter().enumerate() {
        let number = entry_at(numbers.as_slice(), place) as usize;
        let kept_place = entry_at(kept, number);
        begins.push(opening_of(kept_place, latch))?;
    }
    Ok(begins)
}

/// Returns how those of both circuits begin, if the free ones of the second are these of the first.
pub(crate) fn openings(
    alloc: Global,
    first: &Aig,
    second: &Aig,
    kept: &[u32],
) -> Result<Vec<Lit>, NoMemory>
    requires { All (λ place. place < free_latches first.now) kept.now }
    ensures { IfOk result (λ begins. begins.items ≡ wanted.openings first.now second.now kept.now) }
{
    first.known();
    let all = all_places(alloc, first)?;
    let mut begins = openings_of(alloc, first, all.as_slice())?;
    let others = openings_of(alloc, second, kept)?;
    begins.extend_from_slice(others.as_slice())?;
    Ok(begins)
}
