//! Held latches, which have to stay: each is a latch of the new circuit, with its reset and its
//! name.
ghost use Rattle.std.specs.Prelude.{◌≡◌, ◌+◌, ◌*◌, IfSome, IsTrue, Contains, All, Some, slice_get};
ghost use Rattle.backward_circuits.specs.MovedBack.{AreHeldBack, IsHeldAt, IsHeldBackIn, IsNamedBack};

use crate::names::name_at;
use aig_graph::{Circuit, Keep, Lit, Symbol};

/// Returns the place of the input that a literal of a map is.
fn input_place(output: Lit) -> Option<u32>
    ensures { IfSome result (λ place. output ≡ 2 * (1 + place)) }
{
    if output.is_negated() || output.var() == 0 {
        None
    } else {
        Some(output.var() - 1)
    }
}

/// Returns the place of the latch that an output of a map is.
pub fn held_place(map: &Circuit, position: u32) -> Option<u32>
    ensures { IfSome result (λ place. slice_get map.now.props.outputs position
        ≡ Some (2 * (1 + place))) }
{
    let output = map.props().outputs.as_slice().get(position as usize)?;
    input_place(*output)
}

/// Returns true if a latch starts as the one of another circuit does that an output of a map is.
pub fn starts_alike(
    circuit: &Circuit,
    after: &Circuit,
    map: &Circuit,
    position: u32,
    place: u32,
) -> bool
    requires { slice_get map.now.props.outputs position ≡ Some (2 * (1 + place)) }
    ensures { IsTrue result → IsHeldAt circuit.now after.now map.now position place }
{
    let Some(own) = circuit.aig().latches().get(position as usize) else {
        return false;
    };
    match after.aig().latches().get(place as usize) {
        Some(latch) => latch.reset == own.reset,
        None => false,
    }
}

/// Returns true if an output of the map is a latch that starts as one of the first circuit does. A
/// position past the last latch holds nothing.
fn is_held_back(circuit: &Circuit, after: &Circuit, map: &Circuit, position: u32) -> bool
    ensures { IsTrue result → IsHeldBackIn circuit.now after.now map.now position }
{
    if position as usize >= circuit.aig().latches().len() {
        return true;
    }
    match held_place(map, position) {
        Some(place) => starts_alike(circuit, after, map, position, place),
        None => false,
    }
}

/// Returns true if a latch of a circuit has a name.
pub fn is_named_at(circuit: &Circuit, place: u32, symbol: &Symbol) -> bool
    ensures { IsTrue result → Contains circuit.now.symbols.latches
        (record symbol.now { position = place }) }
{
    match name_at(circuit.symbols().latches.as_slice(), place) {
        Some(name) => name.position == place && name.name.as_slice() == symbol.name.as_slice(),
        None => false,
    }
}

/// Returns true if the output of the map at the position of a name is a latch with that name.
fn is_named_back(after: &Circuit, map: &Circuit, symbol: &Symbol) -> bool
    ensures { IsTrue result → IsNamedBack after.now map.now symbol.now }
{
    match held_place(map, symbol.position) {
        Some(place) => is_named_at(after, place, symbol),
        None => false,
    }
}

/// Returns [`is_named_back`] if a latch at that position is held, else true.
fn is_named_if_held(after: &Circuit, map: &Circuit, keep: &Keep, symbol: &Symbol) -> bool
    ensures { IsTrue result → Contains keep.now symbol.now.position
        → IsNamedBack after.now map.now symbol.now }
{
    if keep.has(symbol.position) {
        is_named_back(after, map, symbol)
    } else {
        true
    }
}

/// Returns true if each held latch starts as it did.
fn all_held_back(circuit: &Circuit, after: &Circuit, map: &Circuit, positions: &[u32]) -> bool
    ensures { IsTrue result → All (IsHeldBackIn circuit.now after.now map.now) positions.now }
{
    for position in positions {
        if !is_held_back(circuit, after, map, *position) {
            return false;
        }
    }
    true
}

/// Returns true if each name of a held latch is there.
fn all_named_back(after: &Circuit, map: &Circuit, keep: &Keep, names: &[Symbol]) -> bool
    ensures { IsTrue result → All (λ s. Contains keep.now s.position
        → IsNamedBack after.now map.now s) names.now }
{
    for name in names {
        if !is_named_if_held(after, map, keep, name) {
            return false;
        }
    }
    true
}

/// Returns true if each held latch is a latch of the new circuit, with its reset and its name.
pub(crate) fn are_held_back(circuit: &Circuit, after: &Circuit, map: &Circuit, keep: &Keep) -> bool
    ensures { IsTrue result → AreHeldBack keep.now circuit.now after.now map.now }
{
    all_held_back(circuit, after, map, keep.positions())
        && all_named_back(after, map, keep, circuit.symbols().latches.as_slice())
}
