ghost use Rattle.std.specs.Prelude.{IfOk, OnOk};
ghost use Rattle.aig_graph.specs.Circuits.{AreLiteralsOf};
ghost use Rattle.aig_graph.specs.Graph.{IsGraph, IsLiteralOf};
ghost use Rattle.map_circuits.specs.Growing.{Extends, IsConjunction};
ghost use Rattle.map_circuits.specs.Instances.{AreAll};

use crate::gates::add_conjunction;
use aig_graph::{AigBuilder, BuildError, Lit};

/// Returns the conjunction of two literals: the second if the first is the constant 1, else that of
/// a gate, which is added.
fn add_both(gates: &mut AigBuilder, a: Lit, b: Lit) -> Result<Lit, BuildError>
    requires graph { IsGraph gates.old }
    requires a { IsLiteralOf gates.old a }
    requires b { IsLiteralOf gates.old b }
    ensures extends { OnOk result (Extends gates.old gates.new) }
    ensures is { IfOk result (IsConjunction gates.new a b) }
{
    if a == Lit::TRUE {
        Ok(b)
    } else {
        add_conjunction(gates, a, b)
    }
}

/// Returns the conjunction of all literals, which is the constant 1 if there are none. A gate is
/// added for each but the first.
///
/// # Errors
///
/// `NoMemory` if memory is refused, `TooLarge` if the graph has as many variables as it may. Some
/// of the gates may then have been added.
pub fn add_conjunction_of(gates: &mut AigBuilder, lits: &[Lit]) -> Result<Lit, BuildError>
    requires graph { IsGraph gates.old }
    requires within { AreLiteralsOf gates.old lits.now }
    ensures extends { OnOk result (Extends gates.old gates.new) }
    ensures all { IfOk result (AreAll gates.new lits.now) }
{
    let mut all = Lit::TRUE;
    for lit in lits {
        all = add_both(gates, all, *lit)?;
    }
    Ok(all)
}
