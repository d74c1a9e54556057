//! The levels of a circuit, in one pass: fan-ins come before their gates, so their levels are there
//! when a gate is met. The table begins at the first gate, since all variables before it have level
//! 0.
ghost use Rattle.std.specs.Prelude.{◌≡◌, IfOk, map, length};
ghost use Rattle.std.specs.List.{flat_map};
ghost use Rattle.aig_graph.specs.Tables.{table};
ghost use Rattle.aig_graph.specs.Graph.{first_gate};
ghost use Rattle.aig_graph.specs.Streams.{property_literals};
ghost use Rattle.path_levels.specs.Levels.{entry_at, highest, level, levels};

use crate::entries::{entry_above, entry_at};
use aig_graph::{Aig, Circuit, Latch, Lit, NoMemory, Props, Sequence};
use std::alloc::Global;

/// Returns the level of each gate.
pub(crate) fn gate_levels(alloc: Global, aig: &Aig) -> Result<Vec<u32>, NoMemory>
    ensures { IfOk result (λ entries. entries.items
        ≡ table (first_gate aig.now) (length aig.now.gates) (level aig.now)) }
{
    let first = aig.first_gate();
    let mut entries = Vec::with_capacity(alloc, aig.gates().len())?;
    for gate in aig.gates() {
        let level = entry_above(first, entries.as_slice(), *gate);
        entries.push(level)?;
    }
    Ok(entries)
}

/// Returns the greatest of a level and those of the literals.
fn highest(first: u32, entries: &[u32], level: u32, lits: &[Lit]) -> u32
    ensures { result ≡ highest (entry_at first entries.now) level lits.now }
{
    let mut high = level;
    for lit in lits {
        high = high.max(entry_at(first, entries, lit.var()));
    }
    high
}

/// Returns the greatest level of the literals that latches read.
fn highest_next(first: u32, entries: &[u32], latches: &[Latch]) -> u32
    ensures { result ≡ highest (entry_at first entries.now) 0
        (map (λ latch. latch.next) latches.now) }
{
    let mut high: u32 = 0;
    for latch in latches {
        high = high.max(entry_at(first, entries, latch.next.var()));
    }
    high
}

/// Returns the greatest of a level and those of the literals of justice properties.
fn highest_justice(first: u32, entries: &[u32], level: u32, justice: &[Sequence<Lit>]) -> u32
    ensures { result ≡ highest (entry_at first entries.now) level
        (flat_map (λ lits. lits) justice.now) }
{
    let mut high = level;
    for lits in justice {
        high = highest(first, entries, high, lits.as_slice());
    }
    high
}

/// Returns the greatest of a level and those of the literals of properties.
fn highest_property(first: u32, entries: &[u32], level: u32, props: &Props) -> u32
    ensures { result ≡ highest (entry_at first entries.now) level (property_literals props.now) }
{
    let mut high = highest(first, entries, level, props.outputs.as_slice());
    high = highest(first, entries, high, props.bad.as_slice());
    high = highest(first, entries, high, props.constraints.as_slice());
    high = highest_justice(first, entries, high, props.justice.as_slice());
    highest(first, entries, high, props.fairness.as_slice())
}

/// Returns the levels of a circuit: the number of gates on its longest path from inputs and latches
/// to latches and properties. Linear in the circuit, by a table of its gates.
///
/// # Errors
///
/// Memory is refused.
pub fn levels(alloc: Global, circuit: &Circuit) -> Result<u32, NoMemory>
    ensures { IfOk result (λ high. high ≡ levels circuit.now) }
{
    let aig = circuit.aig();
    let first = aig.first_gate();
    let table = gate_levels(alloc, aig)?;
    let entries = table.as_slice();
    let high = highest_next(first, entries, aig.latches());
    Ok(highest_property(first, entries, high, circuit.props()))
}
