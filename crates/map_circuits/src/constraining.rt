//! What a pass of cleaning rests on, as constraints: each latch is equal to what stands for it.
ghost use Rattle.std.specs.Prelude.{◌≡◌, ◌≤◌, All, OnOk, length};
ghost use Rattle.aig_graph.specs.Circuits.{AreLiteralsOf};
ghost use Rattle.aig_graph.specs.Graph.{IsGraph, IsLiteralOf};
ghost use Rattle.map_circuits.specs.Constraining.{AddsEquality, AddsSubstitutes, IsSubstitute, substitute_function};

use crate::errors::MapError;
use crate::map_gates::MapGates;
use crate::standing::standing;
use aig_graph::Lit;

/// Returns the function of a latch's substitute: a constant, or a literal of a latch.
fn function_of(functions: &[Lit], first: u32, substitute: Lit) -> Lit
    requires { IsSubstitute first functions.now substitute }
    ensures { result ≡ substitute_function first functions.now substitute }
{
    if substitute.var() == 0 {
        substitute
    } else {
        standing(functions, first, substitute)
    }
}

/// Adds a constraint that two literals are equal, unless they are one.
fn add_constraint(
    gates: &mut MapGates,
    constraints: &mut Vec<Lit>,
    a: Lit,
    b: Lit,
) -> Result<(), MapError>
    requires graph { IsGraph gates.old }
    requires a { IsLiteralOf gates.old a }
    requires b { IsLiteralOf gates.old b }
    ensures { OnOk result (AddsEquality gates.old gates.new constraints.old.items
        constraints.new.items a b) }
{
    if a == b {
        return Ok(());
    }
    let equality = gates.add_equality(a, b)?;
    constraints.push(equality)?;
    Ok(())
}

/// Adds the constraints that each latch is equal to its substitute, by the functions of the
/// latches. A latch that is its own substitute has none. The latches begin with the variable
/// `first`.
///
/// # Errors
///
/// `NoMemory` if memory is refused, `TooLarge` if there would be more gates than a graph may have.
/// Some gates and constraints may then have been added.
pub fn add_constraints(
    gates: &mut MapGates,
    constraints: &mut Vec<Lit>,
    functions: &[Lit],
    first: u32,
    substitutes: &[Lit],
) -> Result<(), MapError>
    requires graph { IsGraph gates.old }
    requires constraints { AreLiteralsOf gates.old constraints.old.items }
    requires functions { AreLiteralsOf gates.old functions.now }
    requires substitutes { All (λ substitute. IsSubstitute first functions.now substitute)
        substitutes.now }
    requires long { length substitutes.now ≤ length functions.now }
    ensures { OnOk result (AddsSubstitutes gates.old first functions.now substitutes.now
        (length substitutes.now) gates.new constraints.old.items constraints.new.items) }
{
    for (place, substitute) in substitutes.iter().enumerate() {
        let function = function_of(functions, first, *substitute);
        add_constraint(gates, constraints, functions[place], function)?;
    }
    Ok(())
}
