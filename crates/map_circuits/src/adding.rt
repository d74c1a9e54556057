ghost use Rattle.std.specs.Prelude.{◌≡◌, OnOk, length};
ghost use Rattle.aig_graph.specs.Circuits.{AreLiteralsOf};
ghost use Rattle.aig_graph.specs.Graph.{IsGraph, first_latch};
ghost use Rattle.map_circuits.specs.Constraining.{AddsSubstitutes};
ghost use Rattle.map_circuits.specs.Steps.{IsSomeReading};

use crate::constraining::add_constraints;
use crate::errors::MapError;
use crate::map_gates::MapGates;
use aig_graph::{Aig, Lit};

/// Adds the constraints that each latch of a graph is equal to its reading, by the functions of the
/// latches. A latch that is its own reading has none.
///
/// # Errors
///
/// `NoMemory` if memory is refused, `TooLarge` if there would be more gates than a graph may have.
/// Some gates and constraints may then have been added.
pub fn add_readings(
    gates: &mut MapGates,
    constraints: &mut Vec<Lit>,
    functions: &[Lit],
    aig: &Aig,
    reads: &[Lit],
) -> Result<(), MapError>
    requires graph { IsGraph gates.old }
    requires constraints { AreLiteralsOf gates.old constraints.old.items }
    requires functions { AreLiteralsOf gates.old functions.now }
    requires many { length functions.now ≡ length aig.now.latches }
    requires reading { IsSomeReading aig.now reads.now }
    ensures { OnOk result (AddsSubstitutes gates.old (first_latch aig.now) functions.now reads.now
        (length reads.now) gates.new constraints.old.items constraints.new.items) }
{
    let first = aig.first_latch();
    add_constraints(gates, constraints, functions, first, reads)
}
