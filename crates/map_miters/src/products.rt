//! A product machine, put together in one graph.
ghost use Rattle.std.specs.Prelude.{◌≡◌, ◌↔◌, IfOk, IsTrue, OnOk, length};
ghost use Rattle.aig_graph.specs.Circuits.{AreLiteralsOf, IsNetlist};
ghost use Rattle.aig_graph.specs.Graph.{IsGraph};
ghost use Rattle.witness_circuits.specs.Latches.{with_nexts};
ghost use Rattle.map_circuits.specs.Growing.{Extends};
ghost use Rattle.map_miters.specs.Questions.{IsAskable};
ghost use Rattle.map_miters.specs.Built.{AreProductProps, IsBuilt, IsFilled, netlist_of};
ghost use Rattle.map_miters.specs.Products.{AreTied, IsProduct};
ghost use Rattle.map_miters.specs.Sides.{AreSides, IsBegun, product_nexts};
ghost use Rattle.map_miters.specs.Ties.{HasLatches};

use crate::begun::begun;
use crate::errors::MiterError;
use crate::goals::{Goal, add_good};
use crate::sides::{Sides, add_sides, nexts_of};
use crate::ties::{add_constraints, are_tied};
use aig_graph::{AigBuilder, Circuit, NoMemory, Props, Symbols};
use std::alloc::Global;
use witness_circuits::{safety_props, set_nexts};

/// What is asked for, and whether free latches are to start alike.
#[derive(Clone, Copy)]
struct Wanted {
    goal: Goal,
    tied: bool,
}

/// A graph whose latches go on as those of both circuits, and its properties.
#[derive(Drop)]
struct Built {
    gates: AigBuilder,
    props: Props,
}

/// Adds what the bad state and the constraint are made of.
fn add_props(
    alloc: Global,
    gates: &mut AigBuilder,
    wanted: Wanted,
    sides: &Sides,
    first: &Circuit,
    second: &Circuit,
    map: &Circuit,
) -> Result<Props, MiterError>
    requires graph { IsGraph gates.old }
    requires askable { IsAskable first.now second.now map.now }
    requires tied { IsTrue wanted.tied ↔ AreTied first.now second.now map.now }
    requires latches { HasLatches first.now.aig second.now.aig wanted.tied gates.old }
    requires sides { AreSides gates.old first.now second.now sides.now }
    ensures extends { OnOk result (Extends gates.old gates.new) }
    ensures props { IfOk result (AreProductProps gates.new wanted first.now second.now map.now) }
{
    let good = add_good(alloc, gates, wanted.goal, sides, first, second, map)?;
    let constraints = add_constraints(alloc, gates, wanted.tied, first, second, map)?;
    let props = safety_props(alloc, good.not(), constraints)?;
    Ok(props)
}

/// Gives the latches their next literals.
fn end(alloc: Global, gates: &mut AigBuilder, tied: bool, sides: &Sides) -> Result<(), NoMemory>
    requires graph { IsGraph gates.old }
    requires many { length (product_nexts sides.now tied) ≡ length gates.old.latches }
    requires within { AreLiteralsOf gates.old (product_nexts sides.now tied) }
    ensures ended { OnOk result (gates.new ≡ record gates.old {
      latches = with_nexts (product_nexts sides.now tied)
          gates.old.latches;
    }) }
    ensures graph { OnOk result (IsGraph gates.new) }
{
    let nexts = nexts_of(alloc, sides, tied)?;
    set_nexts(gates, nexts.as_slice());
    Ok(())
}

/// Adds all gates, and gives the latches their next literals.
fn filled(
    alloc: Global,
    gates: &mut AigBuilder,
    wanted: Wanted,
    first: &Circuit,
    second: &Circuit,
    map: &Circuit,
) -> Result<Props, MiterError>
    requires graph { IsGraph gates.old }
    requires askable { IsAskable first.now second.now map.now }
    requires tied { IsTrue wanted.tied ↔ AreTied first.now second.now map.now }
    requires begun { IsBegun first.now.aig second.now.aig wanted.tied gates.old }
    ensures { IfOk result (IsFilled gates.new wanted first.now second.now map.now) }
{
    let sides = add_sides(alloc, gates, wanted.tied, first, second, map)?;
    let props = add_props(alloc, gates, wanted, &sides, first, second, map)?;
    end(alloc, gates, wanted.tied, &sides)?;
    Ok(props)
}

/// Returns the graph and its properties.
fn assembled(
    alloc: Global,
    goal: Goal,
    first: &Circuit,
    second: &Circuit,
    map: &Circuit,
) -> Result<Built, MiterError>
    requires { IsAskable first.now second.now map.now }
    ensures { IfOk result (IsBuilt goal first.now second.now map.now) }
{
    let tied = are_tied(alloc, first, second, map)?;
    let mut gates = begun(alloc, first.aig(), second.aig(), tied)?;
    match filled(alloc, &mut gates, Wanted { goal, tied }, first, second, map) {
        Ok(props) => Ok(Built { gates, props }),
        Err(error) => {
            drop(gates);
            Err(error)
        }
    }
}

/// Returns the graph with its properties, as a circuit without names. Takes no memory.
fn finished(alloc: Global, built: Built) -> Circuit
    requires { IsNetlist (netlist_of built) }
    ensures { result ≡ netlist_of built }
{
    let Built { gates, props } = built;
    Circuit::new(gates.finish(), props, Symbols::none(alloc))
}

/// Returns the product machine of two circuits, with one bad state, which says that a state isn't
/// good. It has the inputs of the first circuit, its latches, and after them those of the second.
/// By the goal `Agree` it is a model. By `Mapped` it is a witness circuit for that model, by
/// places. For that the map has to go from the states of the first to those of the second. Linear
/// in all three.
///
/// # Errors
///
/// `NoMemory` if memory is refused, `TooLarge` if it would have more variables than a graph may
/// have.
pub fn product_machine(
    alloc: Global,
    goal: Goal,
    first: &Circuit,
    second: &Circuit,
    map: &Circuit,
) -> Result<Circuit, MiterError>
    requires { IsAskable first.now second.now map.now }
    ensures { IfOk result (IsProduct goal first.now second.now map.now) }
{
    match assembled(alloc, goal, first, second, map) {
        Ok(built) => Ok(finished(alloc, built)),
        Err(error) => Err(error),
    }
}
