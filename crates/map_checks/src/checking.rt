//! The check. Gates are shared among a step of the first circuit, the map before and after it, and
//! a step of the second circuit. That step begins from what the map gives. Literals that must have
//! one value have it wherever the constraints hold if they are one, or are shown to be equal. So
//! the map is one of states.
ghost use Rattle.std.specs.Prelude.{◌≡◌, ◌↔◌, [], IfOk, IfNone, IsErrOf, OnOk};
ghost use Rattle.aig_graph.specs.Streams.{SameShape};
ghost use Rattle.map_checks.specs.Answers.{AreFitting, IsAnswer, IsOpeningOf, IsMap, KeepsStates};

use crate::answer::{Answer, Obligation};
use crate::comparing::first_open;
use crate::errors::CheckError;
use crate::kept::KeptPlaces;
use crate::openings::{Start, start_of};
use crate::settling::first_open_part;
use crate::shapes::{are_fitting, is_map};
use crate::starting::reset_image;
use aig_graph::{Circuit, Sequence, have_same_shape};
use gate_sharing::SharingError;
use std::alloc::Global;

/// Returns the first part of a step that isn't shown.
fn obligation_of_step(
    alloc: Global,
    first: &Circuit,
    second: &Circuit,
    map: &Circuit,
) -> Result<Option<Obligation>, SharingError>
    requires fitting { AreFitting first.now second.now map.now }
    requires latches { map.now.aig.latches ≡ [] }
    ensures { IfOk result
        (λ obligation. IfNone obligation (KeepsStates first.now second.now map.now)) }
{
    let part = first_open_part(alloc, first, second, map)?;
    Ok(part.map(|part| Obligation::of_part(second.props(), map.props(), part)))
}

/// What a look at step 0 finds.
#[derive(Drop)]
pub(crate) enum Opening {
    Kept(KeptPlaces),
    LeftOpen(Obligation),
}

/// Tells if the map gives the first states of the second circuit.
fn opening_of(
    alloc: Global,
    first: &Circuit,
    second: &Circuit,
    map: &Circuit,
) -> Result<Opening, SharingError>
    requires fitting { AreFitting first.now second.now map.now }
    requires latches { map.now.aig.latches ≡ [] }
    ensures { IfOk result (IsOpeningOf first.now second.now map.now) }
{
    map.known();
    let image = reset_image(alloc, first.aig(), map)?;
    if let Some(place) = first_open(&image, map.props().constraints.as_slice()) {
        return Ok(Opening::LeftOpen(Obligation::ConstraintAtReset(place)));
    }
    let outputs = map.props().outputs.as_slice();
    match start_of(alloc, first.aig(), second.aig(), &image, outputs)? {
        Start::Kept(kept) => {
            kept.known();
            Ok(Opening::Kept(kept))
        }
        Start::Differs(place) => Ok(Opening::LeftOpen(Obligation::LatchAtReset(place))),
    }
}

/// Checks circuits that fit together.
fn checked(
    alloc: Global,
    first: &Circuit,
    second: &Circuit,
    map: &Circuit,
) -> Result<Answer, SharingError>
    requires fitting { AreFitting first.now second.now map.now }
    requires latches { map.now.aig.latches ≡ [] }
    ensures { IfOk result (IsAnswer first.now second.now map.now) }
{
    map.known();
    let kept = match opening_of(alloc, first, second, map)? {
        Opening::Kept(kept) => kept,
        Opening::LeftOpen(obligation) => return Ok(Answer::NotShown(obligation)),
    };
    match obligation_of_step(alloc, first, second, map)? {
        None => Ok(Answer::Retiming(Sequence::from_vec(kept.into_vec()))),
        Some(obligation) => Ok(Answer::NotShown(obligation)),
    }
}

/// Tells if a map of states shows that the second circuit is a retiming of the first.
///
/// It does if, in each first state, its constraints hold and its outputs are a first state of the
/// second circuit. A step has to keep both, and the properties have to be the same. All is settled
/// by sharing gates, in time that grows with the sizes of the circuits. The first part that this
/// doesn't settle is the answer.
///
/// # Errors
///
/// - `NotAMap` if the map has a latch, a bad state, a justice property or a fairness constraint.
/// - Else `ShapesDiffer` if the circuits differ in their inputs or properties.
/// - Else `DoesNotFit` unless the map has an input for each latch of the first circuit and an
///   output for each of the second.
/// - `NoMemory` if memory is refused, `TooLarge` if there would be too many gates for a graph.
pub fn check_map(
    alloc: Global,
    first: &Circuit,
    second: &Circuit,
    map: &Circuit,
) -> Result<Answer, CheckError>
    ensures answer { IfOk result (IsAnswer first.now second.now map.now) }
    ensures fitting { OnOk result (IsMap map.now × AreFitting first.now second.now map.now) }
    ensures not_a_map { IsErrOf result CheckError.NotAMap ↔ (IsMap map.now → ⊥) }
    ensures shapes { IsErrOf result CheckError.ShapesDiffer ↔ (IsMap map.now
        × (SameShape first.now second.now → ⊥)) }
    ensures fits { IsErrOf result CheckError.DoesNotFit ↔ (IsMap map.now
        × SameShape first.now second.now × (AreFitting first.now second.now map.now → ⊥)) }
{
    if !is_map(map) {
        return Err(CheckError::NotAMap);
    }
    if !have_same_shape(first, second) {
        return Err(CheckError::ShapesDiffer);
    }
    if !are_fitting(first, second, map) {
        return Err(CheckError::DoesNotFit);
    }
    let answer = checked(alloc, first, second, map)?;
    Ok(answer)
}
