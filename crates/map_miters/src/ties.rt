//! Free latches. One of the second circuit starts as the one of the first that the map gives for
//! it. No reset of a file can say that, but a constraint of the first step can.
ghost use Rattle.std.specs.Prelude.{◌≡◌, ◌<◌, ◌↔◌, IfOk, IsTrue, OnOk, length, true};
ghost use Rattle.std.specs.List.{slice_index_or};
ghost use Rattle.aig_graph.specs.Graph.{IsGraph, is_free};
ghost use Rattle.map_circuits.specs.Growing.{Extends};
ghost use Rattle.map_miters.specs.Comparing.{SaysThat};
ghost use Rattle.state_maps.specs.MapCircuits.{IsFreeInput};
ghost use Rattle.map_miters.specs.Questions.{IsAskable};
ghost use Rattle.map_miters.specs.Products.{AreTied, IsTied, StartsAlike};
ghost use Rattle.map_miters.specs.Ties.{AreConstraints, AreTies, HasLatches};

use crate::comparing::add_failure;
use crate::errors::MiterError;
use aig_graph::{AigBuilder, BuildError, Circuit, Latch, Lit, NoMemory, Reset};
use map_circuits::{add_conjunction_of, add_equality, free_stay};
use std::alloc::Global;

/// Returns true if free latches are to start alike: the second circuit has some, and each is one of
/// the first, in their order.
pub(crate) fn are_tied(
    alloc: Global,
    first: &Circuit,
    second: &Circuit,
    map: &Circuit,
) -> Result<bool, NoMemory>
    requires { IsAskable first.now second.now map.now }
    ensures { IfOk result (λ tied. IsTrue tied ↔ AreTied first.now second.now map.now) }
{
    let some = second.aig().free_latches() > 0;
    let stay = free_stay(alloc, first, second, map)?;
    Ok(some & stay)
}

/// Returns true if the latch is free.
fn is_free(latch: &Latch) -> bool
    ensures { result ≡ is_free latch.now }
{
    latch.reset == Reset::Free
}

/// Adds a literal that says that a free latch of the second circuit holds what that of the first
/// does. The latch of the first is this output of the map.
fn add_tie(
    gates: &mut AigBuilder,
    first: &Circuit,
    second: &Circuit,
    map: &Circuit,
    place: usize,
    output: Lit,
) -> Result<Lit, BuildError>
    requires graph { IsGraph gates.old }
    requires askable { IsAskable first.now second.now map.now }
    requires latches { HasLatches first.now.aig second.now.aig true gates.old }
    requires place { place < length second.now.aig.latches }
    requires output { output ≡ slice_index_or map.now.props.outputs place 0 }
    requires free { IsFreeInput first.now.aig output }
    ensures extends { OnOk result (Extends gates.old gates.new) }
    ensures says { IfOk result (λ lit. SaysThat gates.new lit
        (λ z u. IsTied first.now map.now place u)) }
{
    map.known();
    let _second = second;
    let aig = first.aig();
    let of_second = Lit::new(aig.first_gate() + place as u32, false);
    let of_first = Lit::new(aig.inputs() + output.var(), false);
    let tie = add_equality(gates, of_second, of_first)?;
    Ok(tie)
}

/// Adds for each free latch of the second circuit a literal that says that it holds what that of
/// the first does.
fn add_ties(
    alloc: Global,
    gates: &mut AigBuilder,
    first: &Circuit,
    second: &Circuit,
    map: &Circuit,
) -> Result<Vec<Lit>, MiterError>
    requires graph { IsGraph gates.old }
    requires askable { IsAskable first.now second.now map.now }
    requires tied { AreTied first.now second.now map.now }
    requires latches { HasLatches first.now.aig second.now.aig true gates.old }
    ensures extends { OnOk result (Extends gates.old gates.new) }
    ensures ties { IfOk result (λ ties. AreTies gates.new first.now second.now map.now
        (length second.now.aig.latches) ties.items) }
{
    let latches = second.aig().latches();
    let outputs = map.props().outputs.as_slice();
    let mut ties = Vec::new(alloc);
    for (place, latch) in latches.iter().enumerate() {
        if is_free(latch) {
            let tie = add_tie(gates, first, second, map, place, outputs[place])?;
            ties.push(tie)?;
        }
    }
    Ok(ties)
}

/// Adds a literal that says that free latches start alike: it isn't the first step, or they hold
/// equal values.
fn add_start(
    alloc: Global,
    gates: &mut AigBuilder,
    first: &Circuit,
    second: &Circuit,
    map: &Circuit,
) -> Result<Lit, MiterError>
    requires graph { IsGraph gates.old }
    requires askable { IsAskable first.now second.now map.now }
    requires tied { AreTied first.now second.now map.now }
    requires latches { HasLatches first.now.aig second.now.aig true gates.old }
    ensures extends { OnOk result (Extends gates.old gates.new) }
    ensures says { IfOk result (λ lit. SaysThat gates.new lit
        (λ z u. StartsAlike first.now second.now map.now true u)) }
{
    let started = first.aig().first_gate() + second.aig().latches().len() as u32;
    let ties = add_ties(alloc, gates, first, second, map)?;
    let alike = add_conjunction_of(gates, ties.as_slice())?;
    let failure = add_failure(gates, Lit::new(started, true), alike)?;
    Ok(failure.not())
}

/// Adds the constraint, if there is one.
pub(crate) fn add_constraints(
    alloc: Global,
    gates: &mut AigBuilder,
    tied: bool,
    first: &Circuit,
    second: &Circuit,
    map: &Circuit,
) -> Result<Vec<Lit>, MiterError>
    requires graph { IsGraph gates.old }
    requires askable { IsAskable first.now second.now map.now }
    requires tied { IsTrue tied ↔ AreTied first.now second.now map.now }
    requires latches { HasLatches first.now.aig second.now.aig tied gates.old }
    ensures extends { OnOk result (Extends gates.old gates.new) }
    ensures constraints { IfOk result (λ lits. AreConstraints gates.new first.now second.now
        map.now tied lits.items) }
{
    let mut constraints = Vec::new(alloc);
    if tied {
        constraints.push(add_start(alloc, gates, first, second, map)?)?;
    }
    Ok(constraints)
}
