//! Names that say which input or latch of the circuit each of the first ones is.
ghost use Rattle.std.specs.Prelude.{◌≡◌, ◌+◌, ◌*◌, ◌≤◌, ◌++◌, IfOk, codes, decimal, length};
ghost use Rattle.aig_graph.specs.declared.literal.TheConstants.{MAX_VARIABLES};
ghost use Rattle.aig_graph.specs.Circuits.{no_symbols};
ghost use Rattle.aig_graph.specs.Graph.{Graph, first_latch};
ghost use Rattle.aig_graph.specs.Tables.{table};
ghost use Rattle.witness_circuits.specs.Lifting.{literal_name, literal_names};

use aig_graph::{Aig, Lit, NoMemory, Sequence, Symbol, Symbols};
use itoa::Buffer;
use std::alloc::Global;

/// Returns the bytes of a name that says a literal.
fn name_bytes(alloc: Global, lit: Lit) -> Result<Vec<u8>, NoMemory>
    ensures { IfOk result (λ bytes. bytes.items ≡ codes "= " ++ decimal lit) }
{
    let mut buffer = Buffer::new();
    let mut bytes = Vec::from_slice(alloc, b"= ")?;
    bytes.extend_from_slice(buffer.format(lit.code()).as_bytes())?;
    Ok(bytes)
}

/// Returns the name at a position, which says the literal of a variable.
fn name(alloc: Global, first: u32, position: u32) -> Result<Symbol, NoMemory>
    requires { first + position + 1 ≤ MAX_VARIABLES }
    ensures { IfOk result (λ symbol. symbol ≡ literal_name first position) }
{
    let bytes = name_bytes(alloc, Lit::new(first + position, false))?;
    Ok(Symbol {
        position,
        name: Sequence::from_vec(bytes),
    })
}

/// Returns the names of `count` variables, from `first` on.
fn names(alloc: Global, first: u32, count: u32) -> Result<Sequence<Symbol>, NoMemory>
    requires { first + count ≤ MAX_VARIABLES }
    ensures { IfOk result (λ names. names ≡ literal_names first count) }
{
    let mut names = Vec::with_capacity(alloc, count as usize)?;
    for position in 0..count {
        names.push_reserved(name(alloc, first, position)?);
    }
    Ok(Sequence::from_vec(names))
}

/// Returns names that say that the first inputs and latches are those of a graph, in order.
pub(crate) fn names_of(alloc: Global, aig: &Aig) -> Result<Symbols, NoMemory>
    ensures { IfOk result (λ symbols. symbols ≡ record no_symbols {
      inputs = literal_names 1 aig.now.inputs;
      latches = literal_names (first_latch aig.now) (length aig.now.latches);
    }) }
{
    aig.known();
    let inputs = names(alloc, 1, aig.inputs())?;
    let latches = names(alloc, aig.first_latch(), aig.latches().len() as u32)?;
    let mut symbols = Symbols::none(alloc);
    symbols.inputs = inputs;
    symbols.latches = latches;
    Ok(symbols)
}
