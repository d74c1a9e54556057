//! The four questions, one after another in one graph.
ghost use Rattle.std.specs.Prelude.{◌≡◌, ◌+◌, [], IfOk, OnOk, length};
ghost use Rattle.aig_graph.specs.Building.{without_gates};
ghost use Rattle.aig_graph.specs.Graph.{IsGraph};
ghost use Rattle.map_circuits.specs.Growing.{Extends};
ghost use Rattle.map_miters.specs.Asking.{AreComparable, AreCompared, AreLeaves, AreSides, IsResetFailure, asked_state};
ghost use Rattle.map_miters.specs.Questions.{AreFailures, AreStepFailures, IsAskable};

use crate::comparing::{add_each_equal, add_failure};
use crate::errors::MiterError;
use crate::images::{Image, add_image};
use crate::leaves::{Leaves, leaves_of};
use crate::resets::resets_of;
use crate::steps::{Step, add_step};
use aig_graph::{AigBuilder, Circuit, Lit};
use map_circuits::{add_conjunction, free_stay};
use std::alloc::Global;

/// The literals that are 1 if the map fails.
#[derive(Clone, Copy)]
pub(crate) struct Failures {
    pub(crate) reset: Lit,
    pub(crate) keep: Lit,
    pub(crate) next: Lit,
    pub(crate) read: Lit,
}

/// The literals that are 1 if the map fails in a step.
#[derive(Clone, Copy)]
pub(crate) struct Compared {
    pub(crate) keep: Lit,
    pub(crate) next: Lit,
    pub(crate) read: Lit,
}

/// The two sides of a comparison. One is a step of the first circuit with the map before and after
/// it. The other is a step of the second from what the map gives.
#[derive(Drop)]
pub(crate) struct Sides {
    pub(crate) before: Step,
    pub(crate) image: Image,
    pub(crate) later: Image,
    pub(crate) after: Step,
}

/// Adds a literal that is 1 if the map gives no first state of the second circuit for one of the
/// first.
fn add_reset_failure(
    alloc: Global,
    gates: &mut AigBuilder,
    leaves: &Leaves,
    first: &Circuit,
    second: &Circuit,
    map: &Circuit,
) -> Result<Lit, MiterError>
    requires graph { IsGraph gates.old }
    requires askable { IsAskable first.now second.now map.now }
    requires leaves { AreLeaves gates.old first.now.aig leaves.now }
    ensures extends { OnOk result (Extends gates.old gates.new) }
    ensures reset { IfOk result (IsResetFailure gates.new first.now second.now map.now) }
{
    let starts = resets_of(alloc, first.aig().latches(), leaves.latches.as_slice())?;
    let image = add_image(alloc, gates, map, starts.as_slice())?;
    let outputs = image.outputs.as_slice();
    let firsts = resets_of(alloc, second.aig().latches(), outputs)?;
    let equal = add_each_equal(alloc, gates, outputs, firsts.as_slice())?;
    let begins = add_conjunction(gates, image.kept, equal)?;
    if free_stay(alloc, first, second, map)? {
        Ok(begins.not())
    } else {
        Ok(Lit::TRUE)
    }
}

/// Adds the gates of what is compared.
fn add_sides(
    alloc: Global,
    gates: &mut AigBuilder,
    leaves: &Leaves,
    first: &Circuit,
    second: &Circuit,
    map: &Circuit,
) -> Result<Sides, MiterError>
    requires graph { IsGraph gates.old }
    requires askable { IsAskable first.now second.now map.now }
    requires leaves { AreLeaves gates.old first.now.aig leaves.now }
    ensures extends { OnOk result (Extends gates.old gates.new) }
    ensures sides { IfOk result (AreSides gates.new first.now second.now map.now) }
{
    let inputs = leaves.inputs.as_slice();
    let state = leaves.latches.as_slice();
    let before = add_step(alloc, gates, first, inputs, state)?;
    let image = add_image(alloc, gates, map, state)?;
    let later = add_image(alloc, gates, map, before.nexts.as_slice())?;
    let after = add_step(alloc, gates, second, inputs, image.outputs.as_slice())?;
    Ok(Sides {
        before,
        image,
        later,
        after,
    })
}

/// Adds the literals that are 1 if a step fails.
fn add_compared(
    alloc: Global,
    gates: &mut AigBuilder,
    sides: &Sides,
) -> Result<Compared, MiterError>
    requires graph { IsGraph gates.old }
    requires sides { AreComparable gates.old sides.now }
    ensures extends { OnOk result (Extends gates.old gates.new) }
    ensures compared { IfOk result (AreCompared gates.old gates.new sides.now) }
{
    let given = sides.image.kept;
    let nexts = sides.after.nexts.as_slice();
    let props = sides.before.props.as_slice();
    let same_nexts = add_each_equal(alloc, gates, sides.later.outputs.as_slice(), nexts)?;
    let same_props = add_each_equal(alloc, gates, sides.after.props.as_slice(), props)?;
    let keep = add_failure(gates, given, sides.later.kept)?;
    let next = add_failure(gates, given, same_nexts)?;
    let read = add_failure(gates, given, same_props)?;
    Ok(Compared { keep, next, read })
}

/// Adds the literals that are 1 if a step fails, of circuits and a map over these literals.
fn add_step_failures(
    alloc: Global,
    gates: &mut AigBuilder,
    leaves: &Leaves,
    first: &Circuit,
    second: &Circuit,
    map: &Circuit,
) -> Result<Compared, MiterError>
    requires graph { IsGraph gates.old }
    requires askable { IsAskable first.now second.now map.now }
    requires leaves { AreLeaves gates.old first.now.aig leaves.now }
    ensures extends { OnOk result (Extends gates.old gates.new) }
    ensures step { IfOk result (AreStepFailures gates.new first.now second.now map.now
        (asked_state first.now.aig)) }
{
    let sides = add_sides(alloc, gates, leaves, first, second, map)?;
    let compared = add_compared(alloc, gates, &sides);
    drop(sides);
    compared
}

/// Adds all questions.
pub(crate) fn add_failures(
    alloc: Global,
    gates: &mut AigBuilder,
    first: &Circuit,
    second: &Circuit,
    map: &Circuit,
) -> Result<Failures, MiterError>
    requires graph { IsGraph gates.old }
    requires begun { gates.old
        ≡ without_gates (first.now.aig.inputs + length first.now.aig.latches) [] }
    requires askable { IsAskable first.now second.now map.now }
    ensures extends { OnOk result (Extends gates.old gates.new) }
    ensures failures { IfOk result (AreFailures gates.new first.now second.now map.now
        (asked_state first.now.aig)) }
{
    let leaves = leaves_of(alloc, first.aig())?;
    let reset = add_reset_failure(alloc, gates, &leaves, first, second, map)?;
    let step = add_step_failures(alloc, gates, &leaves, first, second, map)?;
    Ok(Failures {
        reset,
        keep: step.keep,
        next: step.next,
        read: step.read,
    })
}
