//! Lists of literals that are to be equal, entry by entry, and the literals of failures.
ghost use Rattle.std.specs.Prelude.{◌≡◌, IfOk, OnOk, length, true};
ghost use Rattle.aig_graph.specs.Circuits.{AreLiteralsOf};
ghost use Rattle.aig_graph.specs.Graph.{IsGraph, IsLiteralOf};
ghost use Rattle.map_circuits.specs.Growing.{Extends};
ghost use Rattle.aig_graph.specs.Value.{value_within};
ghost use Rattle.map_miters.specs.Comparing.{AreEqualIn, AreEqualities, FailsBut, SaysThat};

use crate::errors::MiterError;
use aig_graph::{AigBuilder, Lit};
use map_circuits::{add_conjunction, add_conjunction_of, add_equality};
use std::alloc::Global;

/// Adds for each pair of literals one that says that they are equal.
fn add_equalities(
    alloc: Global,
    gates: &mut AigBuilder,
    a: &[Lit],
    b: &[Lit],
) -> Result<Vec<Lit>, MiterError>
    requires graph { IsGraph gates.old }
    requires long { length a.now ≡ length b.now }
    requires a { AreLiteralsOf gates.old a.now }
    requires b { AreLiteralsOf gates.old b.now }
    ensures extends { OnOk result (Extends gates.old gates.new) }
    ensures pairs { IfOk result (λ lits. AreEqualities gates.old gates.new a.now b.now
        (length a.now) lits.items) }
{
    let mut equal = Vec::new(alloc);
    for place in 0..a.len() {
        equal.push(add_equality(gates, a[place], b[place])?)?;
    }
    Ok(equal)
}

/// Adds a literal that says that two lists of literals are equal, entry by entry.
///
/// # Errors
///
/// `NoMemory` if memory is refused, `TooLarge` if the graph has as many variables as it may. Some
/// gates may then have been added.
pub fn add_each_equal(
    alloc: Global,
    gates: &mut AigBuilder,
    a: &[Lit],
    b: &[Lit],
) -> Result<Lit, MiterError>
    requires graph { IsGraph gates.old }
    requires long { length a.now ≡ length b.now }
    requires a { AreLiteralsOf gates.old a.now }
    requires b { AreLiteralsOf gates.old b.now }
    ensures extends { OnOk result (Extends gates.old gates.new) }
    ensures equal { IfOk result (λ lit. SaysThat gates.new lit
        (AreEqualIn gates.old a.now b.now)) }
{
    let equal = add_equalities(alloc, gates, a, b)?;
    let all = add_conjunction_of(gates, equal.as_slice())?;
    Ok(all)
}

/// Adds a literal that is 1 if the literal `given` is and `wanted` isn't.
///
/// # Errors
///
/// `NoMemory` if memory is refused, `TooLarge` if the graph has as many variables as it may. Some
/// gates may then have been added.
pub fn add_failure(gates: &mut AigBuilder, given: Lit, wanted: Lit) -> Result<Lit, MiterError>
    requires graph { IsGraph gates.old }
    requires given { IsLiteralOf gates.old given }
    requires wanted { IsLiteralOf gates.old wanted }
    ensures extends { OnOk result (Extends gates.old gates.new) }
    ensures fails { IfOk result (λ lit. FailsBut gates.new lit (λ z u.
        value_within gates.old z u given ≡ true → value_within gates.old z u wanted ≡ true)) }
{
    let lit = add_conjunction(gates, given, wanted.not())?;
    Ok(lit)
}
