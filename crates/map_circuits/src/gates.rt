//! Gates that are added to a graph, by what their values are: those that were there keep theirs.
ghost use Rattle.std.specs.Prelude.{OnOk, IfOk};
ghost use Rattle.aig_graph.specs.Graph.{IsGraph, IsLiteralOf};
ghost use Rattle.map_circuits.specs.Growing.{Extends, IsConjunction, IsEquality};

use aig_graph::{AigBuilder, BuildError, Lit};

/// Adds the conjunction of two literals.
///
/// # Errors
///
/// `NoMemory` if memory is refused, `TooLarge` if the graph has as many variables as it may. The
/// graph is then as it was.
pub fn add_conjunction(gates: &mut AigBuilder, a: Lit, b: Lit) -> Result<Lit, BuildError>
    requires graph { IsGraph gates.old }
    requires a { IsLiteralOf gates.old a }
    requires b { IsLiteralOf gates.old b }
    ensures extends { OnOk result (Extends gates.old gates.new) }
    ensures is { IfOk result (IsConjunction gates.new a b) }
{
    let lit = gates.and(a, b)?;
    Ok(lit)
}

/// Adds what says that two literals are equal, by three gates.
fn add_comparison(gates: &mut AigBuilder, a: Lit, b: Lit) -> Result<Lit, BuildError>
    requires graph { IsGraph gates.old }
    requires a { IsLiteralOf gates.old a }
    requires b { IsLiteralOf gates.old b }
    ensures extends { OnOk result (Extends gates.old gates.new) }
    ensures is { IfOk result (IsEquality gates.new a b) }
{
    let above = add_conjunction(gates, a, b.not())?;
    let below = add_conjunction(gates, a.not(), b)?;
    let both = add_conjunction(gates, below.not(), above.not())?;
    Ok(both)
}

/// Returns the literal that says that two literals are equal. It is a literal of the first if the
/// second is a constant, else that of the last of three gates, which are added.
///
/// # Errors
///
/// `NoMemory` if memory is refused, `TooLarge` if the graph has as many variables as it may. Some
/// of the gates may then have been added.
pub fn add_equality(gates: &mut AigBuilder, a: Lit, b: Lit) -> Result<Lit, BuildError>
    requires graph { IsGraph gates.old }
    requires a { IsLiteralOf gates.old a }
    requires b { IsLiteralOf gates.old b }
    ensures extends { OnOk result (Extends gates.old gates.new) }
    ensures is { IfOk result (IsEquality gates.new a b) }
{
    if b == Lit::TRUE {
        Ok(a)
    } else if b == Lit::FALSE {
        Ok(a.not())
    } else {
        add_comparison(gates, a, b)
    }
}
