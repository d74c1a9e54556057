//! The names of latches, which a map has at its inputs and outputs.
ghost use Rattle.std.specs.Prelude.{◌≡◌, IfOk, IfSome, Contains};
ghost use Rattle.backward_circuits.specs.Drawn.{map_names};

use aig_graph::{NoMemory, Sequence, Symbol, Symbols};
use std::alloc::Global;

/// How many names a table of bits could tell apart.
const MOST_HALVES: u32 = 32;

/// Returns the name at a position, if it is found: names stand by rising position.
pub fn name_at(names: &[Symbol], position: u32) -> Option<&Symbol>
    ensures { IfSome result (λ name. Contains names.now name.now) }
{
    let (mut low, mut high) = (0usize, names.len());
    for _ in 0..MOST_HALVES {
        if low >= high {
            return None;
        }
        let middle = low.wrapping_add(high.wrapping_sub(low) / 2);
        let name = names.get(middle)?;
        if name.position == position {
            return Some(name);
        }
        if name.position < position {
            low = middle.wrapping_add(1);
        } else {
            high = middle;
        }
    }
    None
}

/// Returns a copy of names.
fn copied_names(alloc: Global, names: &[Symbol]) -> Result<Sequence<Symbol>, NoMemory>
    ensures { IfOk result (λ copies. copies ≡ names.now) }
{
    let mut copies = Vec::with_capacity(alloc, names.len())?;
    for name in names {
        copies.push(name.at(alloc, name.position)?)?;
    }
    Ok(Sequence::from_vec(copies))
}

/// Returns the names of a map: its inputs have those of some latches, and its outputs those of
/// others.
pub fn names_of_map(
    alloc: Global,
    inputs: &[Symbol],
    outputs: &[Symbol],
) -> Result<Symbols, NoMemory>
    ensures { IfOk result (λ symbols. symbols ≡ map_names inputs.now outputs.now) }
{
    let inputs = copied_names(alloc, inputs)?;
    let outputs = copied_names(alloc, outputs)?;
    let mut symbols = Symbols::none(alloc);
    symbols.inputs = inputs;
    symbols.outputs = outputs;
    Ok(symbols)
}
