//! A map that has come to the end of a retiming, as a circuit.
ghost use Rattle.std.specs.Prelude.{ℕ, ◌≡◌, IfOk, List};
ghost use Rattle.state_maps.specs.MapCircuits.{FreeStay, IsMapCircuit};
ghost use Rattle.retiming_maps.specs.Mapping.{IsMapTo, map_of, map_symbols};
ghost use Rattle.retiming_maps.specs.Plain.{IsPlainMap};

use crate::packed_maps::StateMap;
use crate::parts::MapParts;
use aig_graph::{Circuit, NoMemory, Props, Sequence, Symbol, Symbols};
use std::alloc::Global;

/// Returns a copy of names.
fn copied(alloc: Global, names: &[Symbol]) -> Result<Sequence<Symbol>, NoMemory>
    ensures { IfOk result (λ copies. copies ≡ names.now) }
{
    let mut copies = Vec::with_capacity(alloc, names.len())?;
    for name in names {
        copies.push(name.at(alloc, name.position)?)?;
    }
    Ok(Sequence::from_vec(copies))
}

/// Returns the names of a map. Its inputs have those of the latches of the circuit that was read,
/// its outputs those of the retimed one's.
fn names_of_map(alloc: Global, circuit: &Circuit, retimed: &Circuit) -> Result<Symbols, NoMemory>
    ensures { IfOk result (λ symbols. symbols ≡ map_symbols circuit.now retimed.now) }
{
    let inputs = copied(alloc, circuit.symbols().latches.as_slice())?;
    let outputs = copied(alloc, retimed.symbols().latches.as_slice())?;
    let mut symbols = Symbols::none(alloc);
    symbols.inputs = inputs;
    symbols.outputs = outputs;
    Ok(symbols)
}

/// Returns the parts as a circuit with these names. Takes no memory.
fn finished(alloc: Global, parts: MapParts, symbols: Symbols) -> StateMap
    requires { IsPlainMap (map_of parts symbols) }
    ensures { result ≡ map_of parts symbols }
{
    let MapParts {
        gates,
        functions,
        constraints,
    } = parts;
    let mut props = Props::of_outputs(alloc, functions.into_vec());
    props.constraints = Sequence::from_vec(constraints);
    StateMap::new(gates, props, symbols)
}

/// Returns the map of these parts. Its inputs are the latches of the circuit that was read. Its
/// outputs are what the latches of the retimed circuit hold, if its constraints are 1. The output
/// of a free latch is the input of one. Both have the names of their latches. No gate is copied.
///
/// # Errors
///
/// `NoMemory` if memory for the names is refused.
pub fn state_map(
    alloc: Global,
    parts: MapParts,
    circuit: &Circuit,
    retimed: &Circuit,
) -> Result<StateMap, NoMemory>
    requires { (kept : List ℕ) × IsMapTo circuit.now retimed.now kept parts }
    ensures map { IfOk result (λ map. (kept : List ℕ) → IsMapTo circuit.now retimed.now kept parts
        → IsMapCircuit circuit.now retimed.now kept map) }
    ensures free { IfOk result (FreeStay circuit.now retimed.now) }
    ensures names { IfOk result (λ map. map.symbols ≡ map_symbols circuit.now retimed.now) }
{
    circuit.known();
    retimed.known();
    match names_of_map(alloc, circuit, retimed) {
        Ok(symbols) => Ok(finished(alloc, parts, symbols)),
        Err(error) => {
            drop(parts);
            Err(error)
        }
    }
}
