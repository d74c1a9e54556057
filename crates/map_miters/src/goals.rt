//! What is good in a product machine.
ghost use Rattle.std.specs.Prelude.{◌≡◌, [], IfOk, OnOk, length};
ghost use Rattle.aig_graph.specs.Circuits.{AreLiteralsOf};
ghost use Rattle.aig_graph.specs.Graph.{IsGraph};
ghost use Rattle.map_circuits.specs.Growing.{Extends};
ghost use Rattle.map_miters.specs.Comparing.{SaysThat};
ghost use Rattle.map_miters.specs.Holding.{Held, HoldAs};
ghost use Rattle.map_miters.specs.Questions.{IsAskable};
ghost use Rattle.map_miters.specs.Products.{AgreeIn, GivesState, HoldsMapped, good_of};
ghost use Rattle.map_miters.specs.Sides.{AreSides};

use crate::comparing::add_each_equal;
use crate::errors::MiterError;
use crate::images::add_image;
use crate::sides::Sides;
use aig_graph::{AigBuilder, Circuit, Lit};
use map_circuits::add_conjunction;
use std::alloc::Global;

/// What is good.
#[derive(Clone, Copy)]
pub enum Goal {
    /// That all properties of both circuits have equal values: what a model asks.
    Agree,
    /// That the map's constraints are 1, and the second circuit's latches hold what it gives. This
    /// stays so, step by step.
    Mapped,
}

/// Adds a literal that says that all properties of both circuits have equal values.
fn add_agreement(
    alloc: Global,
    gates: &mut AigBuilder,
    sides: &Sides,
    first: &Circuit,
    second: &Circuit,
    map: &Circuit,
) -> Result<Lit, MiterError>
    requires graph { IsGraph gates.old }
    requires askable { IsAskable first.now second.now map.now }
    requires sides { AreSides gates.old first.now second.now sides.now }
    ensures extends { OnOk result (Extends gates.old gates.new) }
    ensures says { IfOk result (λ lit. SaysThat gates.new lit (AgreeIn first.now second.now)) }
{
    let _first = first;
    let _second = second;
    let _map = map;
    let props = sides.first.props.as_slice();
    add_each_equal(alloc, gates, sides.second.props.as_slice(), props)
}

/// Adds a literal about the state that `state` holds. It says that the map's constraints are 1
/// there, and that the map gives the state that `given` holds.
///
/// # Errors
///
/// `NoMemory` if memory is refused, `TooLarge` if the graph has as many variables as it may. Some
/// gates may then have been added.
pub fn add_given(
    alloc: Global,
    gates: &mut AigBuilder,
    map: &Circuit,
    state: &[Lit],
    given: &[Lit],
) -> Result<Lit, MiterError>
    requires graph { IsGraph gates.old }
    requires wide { length state.now ≡ map.now.aig.inputs }
    requires latches { map.now.aig.latches ≡ [] }
    requires long { length given.now ≡ length map.now.props.outputs }
    requires state { AreLiteralsOf gates.old state.now }
    requires given { AreLiteralsOf gates.old given.now }
    ensures extends { OnOk result (Extends gates.old gates.new) }
    ensures says { IfOk result (λ lit. (s t : Held) → HoldAs gates.old state.now s
        → HoldAs gates.old given.now t
        → SaysThat gates.new lit (λ z u. GivesState map.now (s z u) (t z u))) }
{
    let image = add_image(alloc, gates, map, state)?;
    let equal = add_each_equal(alloc, gates, image.outputs.as_slice(), given)?;
    let both = add_conjunction(gates, image.kept, equal)?;
    Ok(both)
}

/// Adds a literal that says that the map's constraints are 1, and the second circuit's latches hold
/// what it gives.
fn add_mapped(
    alloc: Global,
    gates: &mut AigBuilder,
    sides: &Sides,
    first: &Circuit,
    second: &Circuit,
    map: &Circuit,
) -> Result<Lit, MiterError>
    requires graph { IsGraph gates.old }
    requires askable { IsAskable first.now second.now map.now }
    requires sides { AreSides gates.old first.now second.now sides.now }
    ensures extends { OnOk result (Extends gates.old gates.new) }
    ensures says { IfOk result (λ lit. SaysThat gates.new lit
        (λ z u. HoldsMapped first.now second.now map.now u)) }
{
    let _first = first;
    let _second = second;
    let leaves = &sides.leaves;
    add_given(
        alloc,
        gates,
        map,
        leaves.first.as_slice(),
        leaves.second.as_slice(),
    )
}

/// Adds a literal that says that a state is good.
pub(crate) fn add_good(
    alloc: Global,
    gates: &mut AigBuilder,
    goal: Goal,
    sides: &Sides,
    first: &Circuit,
    second: &Circuit,
    map: &Circuit,
) -> Result<Lit, MiterError>
    requires graph { IsGraph gates.old }
    requires askable { IsAskable first.now second.now map.now }
    requires sides { AreSides gates.old first.now second.now sides.now }
    ensures extends { OnOk result (Extends gates.old gates.new) }
    ensures says { IfOk result (λ lit. SaysThat gates.new lit
        (good_of goal first.now second.now map.now)) }
{
    match goal {
        Goal::Agree => add_agreement(alloc, gates, sides, first, second, map),
        Goal::Mapped => add_mapped(alloc, gates, sides, first, second, map),
    }
}
