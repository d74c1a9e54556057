//! Held latches. Each is a latch of the new circuit, with its reset and its name. Its place there
//! is that of an output of the map, which is looked up in a table. The table is a hint: what it
//! says is looked at in the map.
ghost use Rattle.std.specs.Prelude.{◌≡◌, ◌+◌, ◌*◌, All, Contains, IfOk, IfSome, IsTrue, Some, slice_get};
ghost use Rattle.class_circuits.specs.MovedOn.{AreHeldOn, IsHeldOn, IsNamedOn};

use aig_graph::{Circuit, Keep, NoMemory, Symbol};
use backward_circuits::{held_place, is_named_at, starts_alike};
use std::alloc::Global;

/// Returns the place of an output for each latch that is one, and 0 for the others.
fn places_of(alloc: Global, circuit: &Circuit, map: &Circuit) -> Result<Vec<u32>, NoMemory> {
    let mut places = Vec::from_elem(alloc, 0, circuit.aig().latches().len())?;
    let mut place = 0u32;
    for _ in map.props().outputs.as_slice() {
        if let Some(position) = held_place(map, place) {
            if let Some(entry) = places.as_mut_slice().get_mut(position as usize) {
                *entry = place;
            }
        }
        place = place.wrapping_add(1);
    }
    Ok(places)
}

/// Returns the place of an output of the map that is the latch at a position, if the table has it.
fn place_of(map: &Circuit, places: &[u32], position: u32) -> Option<u32>
    ensures { IfSome result (λ place. slice_get map.now.props.outputs place
        ≡ Some (2 * (1 + position))) }
{
    let place = *places.get(position as usize)?;
    if held_place(map, place)? == position {
        Some(place)
    } else {
        None
    }
}

/// Returns true if the latch at a position is one of the new circuit, which starts as it does, or
/// if no latch is there.
fn is_held_on(
    circuit: &Circuit,
    after: &Circuit,
    map: &Circuit,
    places: &[u32],
    position: u32,
) -> bool
    ensures { IsTrue result → IsHeldOn circuit.now after.now map.now position }
{
    if position as usize >= circuit.aig().latches().len() {
        return true;
    }
    match place_of(map, places, position) {
        Some(place) => starts_alike(after, circuit, map, place, position),
        None => false,
    }
}

/// Returns true if the latch with a name is one of the new circuit with that name.
fn is_named_on(after: &Circuit, map: &Circuit, places: &[u32], symbol: &Symbol) -> bool
    ensures { IsTrue result → IsNamedOn after.now map.now symbol.now }
{
    match place_of(map, places, symbol.position) {
        Some(place) => is_named_at(after, place, symbol),
        None => false,
    }
}

/// Returns true if each held latch is a latch of the new circuit that starts as it does.
fn all_held_on(
    circuit: &Circuit,
    after: &Circuit,
    map: &Circuit,
    places: &[u32],
    positions: &[u32],
) -> bool
    ensures { IsTrue result → All (IsHeldOn circuit.now after.now map.now) positions.now }
{
    positions.iter().all(|position| is_held_on(circuit, after, map, places, *position))
}

/// Returns true if each name of a held latch is there.
fn all_named_on(
    after: &Circuit,
    map: &Circuit,
    places: &[u32],
    keep: &Keep,
    names: &[Symbol],
) -> bool
    ensures { IsTrue result → All (λ s. Contains keep.now s.position
        → IsNamedOn after.now map.now s) names.now }
{
    names.iter().all(|name| !keep.has(name.position) || is_named_on(after, map, places, name))
}

/// Returns true if each held latch is where the table says, with its reset and its name.
fn all_stay(circuit: &Circuit, after: &Circuit, map: &Circuit, places: &[u32], keep: &Keep) -> bool
    ensures { IsTrue result → AreHeldOn keep.now circuit.now after.now map.now }
{
    let names = circuit.symbols().latches.as_slice();
    all_held_on(circuit, after, map, places, keep.positions())
        && all_named_on(after, map, places, keep, names)
}

/// Returns true if each held latch is a latch of the new circuit, with its reset and its name.
///
/// # Errors
///
/// `NoMemory` if a table is refused.
pub(crate) fn are_held_on(
    alloc: Global,
    circuit: &Circuit,
    after: &Circuit,
    map: &Circuit,
    keep: &Keep,
) -> Result<bool, NoMemory>
    ensures { IfOk result (λ held. IsTrue held
        → AreHeldOn keep.now circuit.now after.now map.now) }
{
    let places = places_of(alloc, circuit, map)?;
    let stay = all_stay(circuit, after, map, places.as_slice(), keep);
    drop(places);
    Ok(stay)
}
