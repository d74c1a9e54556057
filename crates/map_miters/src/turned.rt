//! A map turned round. Over the latches of both circuits it gives those of the second. Its
//! constraint is that the map gives those of the first for them.
ghost use Rattle.std.specs.Prelude.{◌≡◌, ◌+◌, ◌*◌, ◌≤◌, ◌∷◌, [], IfOk, length};
ghost use Rattle.aig_graph.specs.declared.literal.TheConstants.{MAX_VARIABLES};
ghost use Rattle.aig_graph.specs.Building.{without_gates};
ghost use Rattle.aig_graph.specs.Graph.{IsGraph};
ghost use Rattle.aig_graph.specs.Tables.{table};
ghost use Rattle.map_miters.specs.Turned.{IsTurnable, IsTurned, IsTurnedIn};

use crate::circuits::circuit_of;
use crate::{MiterError, add_given};
use aig_graph::{Aig, AigBuilder, Circuit, Lit, NoMemory, Props, Sequence};
use std::alloc::Global;
use witness_circuits::numbered;

/// What the latches of either circuit hold, by inputs.
#[derive(Drop)]
struct Leaves {
    first: Vec<Lit>,
    second: Vec<Lit>,
}

/// Returns a graph of an input for each latch of both circuits.
fn begun(alloc: Global, first: &Aig, second: &Aig) -> Result<AigBuilder, MiterError>
    ensures is { IfOk result (λ gates. gates
        ≡ without_gates (length first.now.latches + length second.now.latches) []) }
    ensures graph { IfOk result (λ gates. IsGraph gates) }
{
    first.known();
    second.known();
    let inputs = first.latches().len() as u32 + second.latches().len() as u32;
    let gates = AigBuilder::new(alloc, inputs, Vec::new(alloc))?;
    Ok(gates)
}

/// Returns the literals of these inputs.
fn leaves_of(alloc: Global, first: &Aig, second: &Aig) -> Result<Leaves, NoMemory>
    requires { 1 + length first.now.latches + length second.now.latches ≤ MAX_VARIABLES }
    ensures first { IfOk result (λ leaves. leaves.first.items
        ≡ table 0 (length first.now.latches) (λ j. 2 * (1 + j))) }
    ensures second { IfOk result (λ leaves. leaves.second.items
        ≡ table 0 (length second.now.latches) (λ j. 2 * (1 + length first.now.latches + j))) }
{
    let many = first.latches().len();
    let of_first = numbered(alloc, 1, many)?;
    let of_second = numbered(alloc, 1 + many as u32, second.latches().len())?;
    Ok(Leaves {
        first: of_first,
        second: of_second,
    })
}

/// Returns the second circuit's latches as outputs, and a constraint.
fn props_of(alloc: Global, leaves: Leaves, constraint: Lit) -> Result<Props, NoMemory>
    ensures { IfOk result (λ props. props ≡ record {
      outputs = leaves.second.items;
      bad = [];
      constraints = constraint ∷ [];
      justice = [];
      fairness = [];
    }) }
{
    let Leaves {
        first: _first,
        second,
    } = leaves;
    let mut constraints = Vec::new(alloc);
    constraints.push(constraint)?;
    let mut props = Props::of_outputs(alloc, second);
    props.constraints = Sequence::from_vec(constraints);
    Ok(props)
}

/// Adds what the constraint says.
fn filled(
    alloc: Global,
    gates: &mut AigBuilder,
    first: &Circuit,
    second: &Circuit,
    map: &Circuit,
) -> Result<Props, MiterError>
    requires graph { IsGraph gates.old }
    requires begun { gates.old
        ≡ without_gates (length first.now.aig.latches + length second.now.aig.latches) [] }
    requires turnable { IsTurnable first.now second.now map.now }
    ensures { IfOk result (IsTurnedIn gates.new first.now second.now map.now) }
{
    let leaves = leaves_of(alloc, first.aig(), second.aig())?;
    let state = leaves.second.as_slice();
    let holds = add_given(alloc, gates, map, state, leaves.first.as_slice())?;
    let props = props_of(alloc, leaves, holds)?;
    Ok(props)
}

/// Returns the map turned round.
pub(crate) fn turned(
    alloc: Global,
    first: &Circuit,
    second: &Circuit,
    map: &Circuit,
) -> Result<Circuit, MiterError>
    requires { IsTurnable first.now second.now map.now }
    ensures { IfOk result (IsTurned first.now second.now map.now) }
{
    let mut gates = begun(alloc, first.aig(), second.aig())?;
    match filled(alloc, &mut gates, first, second, map) {
        Ok(props) => Ok(circuit_of(alloc, gates, props)),
        Err(error) => {
            drop(gates);
            Err(error)
        }
    }
}
