//! The constraints and the bad state. The constraints are the circuit's alone. Those of the map and
//! of the witness are demands on a good state. They can't be constraints, since the witness's own
//! latches hold anything at the first state of a check.
ghost use Rattle.std.specs.Prelude.{◌≡◌, ◌∷◌, [], IfOk, OnOk, length};
ghost use Rattle.aig_graph.specs.Graph.{IsGraph, variables_end};
ghost use Rattle.map_circuits.specs.Growing.{Extends};
ghost use Rattle.witness_circuits.specs.Witnesses.{bad_states};
ghost use Rattle.witness_circuits.specs.Parts.{AreLiftedProps, AreParts, demands, substitutes};

use crate::errors::LiftError;
use crate::literals::{push_negations, push_substitutes};
use crate::parts::Parts;
use crate::sharing::Sharing;
use aig_graph::{AigBuilder, Circuit, Lit, NoMemory, Props, Sequence};
use map_circuits::add_conjunction_of;
use std::alloc::Global;

/// Returns the bad states, or the outputs if there are none.
fn bad_states(props: &Props) -> &[Lit]
    ensures { result.now ≡ bad_states props.now }
{
    if props.bad.is_empty() {
        props.outputs.as_slice()
    } else {
        props.bad.as_slice()
    }
}

/// Returns the constraints of the circuit.
fn constraints_of(alloc: Global, parts: &Parts, first: &Circuit) -> Result<Vec<Lit>, NoMemory>
    requires { length parts.now.first ≡ variables_end first.now.aig }
    ensures { IfOk result (λ lits. lits.items
        ≡ substitutes parts.now.first first.now.props.constraints) }
{
    first.known();
    let mut lits = Vec::new(alloc);
    push_substitutes(
        &mut lits,
        &parts.first,
        first.props().constraints.as_slice(),
    )?;
    Ok(lits)
}

/// Returns the demands on a good state: the map's and the witness's constraints are 1, and the
/// witness's bad states are not.
fn demands_of(
    alloc: Global,
    parts: &Parts,
    map: &Circuit,
    witness: &Circuit,
) -> Result<Vec<Lit>, NoMemory>
    requires map { length parts.now.map ≡ variables_end map.now.aig }
    requires witness { length parts.now.witness ≡ variables_end witness.now.aig }
    ensures { IfOk result (λ lits. lits.items ≡ demands map.now witness.now parts.now) }
{
    map.known();
    witness.known();
    let constraints = witness.props().constraints.as_slice();
    let mut demands = Vec::new(alloc);
    push_substitutes(&mut demands, &parts.map, map.props().constraints.as_slice())?;
    push_substitutes(&mut demands, &parts.witness, constraints)?;
    push_negations(&mut demands, &parts.witness, bad_states(witness.props()))?;
    Ok(demands)
}

/// Returns the properties of a circuit that is checked for safety: one bad state, and constraints.
///
/// # Errors
///
/// `NoMemory` if memory is refused.
pub fn safety_props(alloc: Global, bad: Lit, constraints: Vec<Lit>) -> Result<Props, NoMemory>
    ensures { IfOk result (λ props. props ≡ record {
      outputs = [];
      bad = bad ∷ [];
      constraints = constraints.items;
      justice = [];
      fairness = [];
    }) }
{
    let mut all = Vec::new(alloc);
    all.push(bad)?;
    let mut props = Props::of_outputs(alloc, Vec::new(alloc));
    props.bad = Sequence::from_vec(all);
    props.constraints = Sequence::from_vec(constraints);
    Ok(props)
}

/// Adds the properties of the lifted witness.
pub(crate) fn add_props(
    alloc: Global,
    gates: &mut AigBuilder,
    parts: &Parts,
    first: &Circuit,
    map: &Circuit,
    witness: &Circuit,
    sharing: &Sharing,
) -> Result<Props, LiftError>
    requires graph { IsGraph gates.old }
    requires parts { AreParts gates.old first.now map.now witness.now sharing.now parts.now }
    ensures extends { OnOk result (Extends gates.old gates.new) }
    ensures props { IfOk result (AreLiftedProps gates.new first.now map.now witness.now
        sharing.now) }
{
    let _sharing = sharing;
    first.known();
    map.known();
    witness.known();
    let demands = demands_of(alloc, parts, map, witness)?;
    let good = add_conjunction_of(gates, demands.as_slice())?;
    let constraints = constraints_of(alloc, parts, first)?;
    let props = safety_props(alloc, good.signed_as(Lit::TRUE), constraints)?;
    Ok(props)
}
