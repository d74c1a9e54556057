ghost use Rattle.std.specs.Prelude.{◌≡◌, ◌+◌, ◌<◌, All, IfOk, length, map, filter};
ghost use Rattle.aig_graph.specs.Graph.{first_latch};
ghost use Rattle.cleaned_circuits.specs.Trimmed.{new_name, trimmed_symbols};
ghost use Rattle.clean.specs.Sweep.{is_marked};

use crate::trim::Trim;
use aig_graph::{NoMemory, Sequence, Symbol, Symbols};
use std::alloc::Global;

/// Returns the names of the latches that stay, at the new positions of these.
fn latch_names(
    alloc: Global,
    trim: &Trim<'_>,
    names: &Sequence<Symbol>,
) -> Result<Sequence<Symbol>, NoMemory>
    requires { All (λ name. name.position < length trim.now.aig.now.latches) names.now }
    ensures { IfOk result (λ copies. copies ≡
        map (new_name trim.now.aig.now (is_marked trim.now.reached.now))
        (filter (λ name. is_marked trim.now.reached.now
        (first_latch trim.now.aig.now + name.position)) names.now)) }
{
    let mut copies = Vec::new(alloc);
    for name in names.as_slice() {
        if trim.keeps_latch(name.position) {
            copies.push(name.at(alloc, trim.new_position(name.position))?)?;
        }
    }
    Ok(Sequence::from_vec(copies))
}

/// Returns the names of what stays.
pub(crate) fn trimmed_symbols(
    alloc: Global,
    trim: &Trim<'_>,
    symbols: &Symbols,
) -> Result<Symbols, NoMemory>
    requires { All (λ name. name.position < length trim.now.aig.now.latches) symbols.now.latches }
    ensures { IfOk result (λ names. names ≡ trimmed_symbols trim.now.aig.now
        (is_marked trim.now.reached.now) symbols.now) }
{
    let latches = latch_names(alloc, trim, &symbols.latches)?;
    symbols.with_latches(alloc, latches)
}

/// Returns a copy of the names.
pub(crate) fn copied_symbols(alloc: Global, symbols: &Symbols) -> Result<Symbols, NoMemory>
    ensures { IfOk result (λ copy. copy ≡ symbols.now) }
{
    let mut latches = Vec::with_capacity(alloc, symbols.latches.len())?;
    for name in symbols.latches.as_slice() {
        latches.push(name.at(alloc, name.position)?)?;
    }
    symbols.with_latches(alloc, Sequence::from_vec(latches))
}
