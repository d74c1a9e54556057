//! The first place at which two circuits differ, by sequence, then by step, then by property
//! literal.
ghost use Rattle.std.specs.Prelude.{ℕ, ◌≡◌, ◌≢◌, ◌+◌, ◌*◌, ◌^◌, ◌<◌, ◌≤◌, ◌↔◌, MatchOption, IfNone, IfSome, IsSomeAnd, IsErrOf, Some, None, IfOk, IsTrue, option_map, length, map, slice_get, All, OnOk};
ghost use Rattle.std.specs.List.{slice_index_or};
ghost use Rattle.aig_graph.specs.Streams.{SameShape};
ghost use Rattle.lane_sim.specs.Blocks.{row_in};
ghost use Rattle.lane_sim.specs.Comparing.{AreAlike, CanCompare, ComparesAt, ComparesSides, HaveAsMany, IsFirstIn, IsFoundIn, lanes_before, later_or, row_at, steps_of};
ghost use Rattle.lane_sim.specs.Traces.{trace};
ghost use Rattle.lane_sim.specs.Differences.{DifferInKeptShape, DifferInShape, HaveKeptShape, HaveSameShape, IsFirstDifference};
ghost use Rattle.lane_sim.specs.Kept.{for_kept};
ghost use Rattle.lane_sim.specs.Runs.{IsRunOf};
ghost use Rattle.lane_sim.specs.declared.fault.SimError.TheVariants.{Shape};

use crate::block::{block, longest};
use crate::fault::SimError;
use crate::kept::sequences_for_kept;
use crate::lanes::{LANES, Lanes};
use crate::run::Run;
use crate::shape::{have_kept_shape, have_same_shape};
use crate::stimulus::{InputSequence, Stimulus};
use aig_graph::{Circuit, NoMemory};
use rayon::prelude::*;
use std::alloc::Global;
use std::thread::Threads;

/// A place of a trace: each number counts from 0.
#[derive(Clone, Copy)]
pub struct Place {
    pub sequence: usize,
    pub step: usize,
    pub place: usize,
}

/// A circuit, and the sequences of a block that it is under.
#[derive(Clone, Copy)]
struct Side<'a> {
    circuit: &'a Circuit,
    sequences: &'a [InputSequence],
}

/// Returns the first place at which two rows differ in a lane.
fn row_difference(xs: &[Lanes], ys: &[Lanes], lane: usize) -> Option<usize>
    requires lane { lane < 256 }
    requires places { length ys.now ≡ length xs.now }
    ensures { MatchOption result (row_in lane xs.now ≡ row_in lane ys.now)
        (IsFirstIn (row_in lane xs.now) (row_in lane ys.now)) }
{
    for place in 0..xs.len() {
        if xs[place].get(lane) != ys[place].get(lane) {
            return Some(place);
        }
    }
    None
}

/// Returns the first place at which two rows of a step differ in the lane of a sequence, if that
/// has the step.
fn sequence_difference(
    xs: &[Lanes],
    ys: &[Lanes],
    sequence: &InputSequence,
    lane: usize,
    step: usize,
) -> Option<usize>
    requires lane { lane < 256 }
    requires places { length ys.now ≡ length xs.now }
    ensures { MatchOption result
        (step < length sequence.now.steps → row_in lane xs.now ≡ row_in lane ys.now)
        (λ place. (step < length sequence.now.steps)
        × IsFirstIn (row_in lane xs.now) (row_in lane ys.now) place) }
{
    if step < sequence.steps.len() {
        row_difference(xs, ys, lane)
    } else {
        None
    }
}

/// Returns the first place at which the rows of a step differ in the lanes before `lanes`, among
/// the sequences that have the step.
fn step_difference(
    xs: &[Lanes],
    ys: &[Lanes],
    sequences: &[InputSequence],
    lanes: usize,
    step: usize,
) -> Option<Place>
    requires lanes { lanes ≤ length sequences.now }
    requires block { length sequences.now ≤ 256 }
    requires places { length ys.now ≡ length xs.now }
    ensures { ComparesAt lanes step (steps_of sequences.now) (λ k. row_in k xs.now)
        (λ k. row_in k ys.now) result }
{
    for lane in 0..lanes {
        if let Some(place) = sequence_difference(xs, ys, &sequences[lane], lane, step) {
            return Some(Place {
                sequence: lane,
                step,
                place,
            });
        }
    }
    None
}

/// Returns the first place at which two circuits differ in a step, in the lanes before `lanes`.
fn next_difference(
    alloc: Global,
    a: &Side<'_>,
    first: &mut Run,
    b: &Side<'_>,
    second: &mut Run,
    lanes: usize,
    step: usize,
) -> Result<Option<Place>, NoMemory>
    requires sides { CanCompare a.now b.now }
    requires lanes { lanes ≤ length a.now.sequences.now }
    requires first { IsRunOf a.now.circuit.now a.now.sequences.now step first.old }
    requires second { IsRunOf b.now.circuit.now b.now.sequences.now step second.old }
    ensures first { IfOk result (λ found. IsRunOf a.now.circuit.now a.now.sequences.now (step + 1)
        first.new) }
    ensures second { IfOk result (λ found. IsRunOf b.now.circuit.now b.now.sequences.now (step + 1)
        second.new) }
    ensures found { IfOk result (ComparesAt lanes step (steps_of a.now.sequences.now)
        (row_at step a.now) (row_at step b.now)) }
{
    let xs = first.next(alloc, a.circuit, a.sequences, step)?;
    let ys = second.next(alloc, b.circuit, b.sequences, step)?;
    Ok(step_difference(xs.as_slice(), ys.as_slice(), a.sequences, lanes, step))
}

/// Returns the number of sequences before the one that differs first, so far.
fn lanes_before(all: usize, found: Option<Place>) -> usize
    ensures { result ≡ lanes_before all found }
{
    match found {
        Some(place) => place.sequence,
        None => all,
    }
}

/// Returns what was found later, if there is something: that is in an earlier sequence.
fn later_or(found: Option<Place>, later: Option<Place>) -> Option<Place>
    ensures { result ≡ later_or found later }
{
    match later {
        Some(place) => Some(place),
        None => found,
    }
}

/// Returns the first place at which two circuits differ; both are before their first steps.
fn runs_difference(
    alloc: Global,
    a: &Side<'_>,
    first: &mut Run,
    b: &Side<'_>,
    second: &mut Run,
) -> Result<Option<Place>, NoMemory>
    requires sides { CanCompare a.now b.now }
    requires first { IsRunOf a.now.circuit.now a.now.sequences.now 0 first.old }
    requires second { IsRunOf b.now.circuit.now b.now.sequences.now 0 second.old }
    ensures { IfOk result (ComparesSides a.now b.now) }
{
    let mut found = None;
    for step in 0..longest(a.sequences) {
        let lanes = lanes_before(a.sequences.len(), found);
        let next = next_difference(alloc, a, first, b, second, lanes, step)?;
        found = later_or(found, next);
    }
    Ok(found)
}

/// Returns the first place at which two circuits differ under the sequences of a block. Nothing is
/// kept of a step but what the latches hold.
fn block_difference(alloc: Global, a: &Side<'_>, b: &Side<'_>) -> Result<Option<Place>, NoMemory>
    requires { CanCompare a.now b.now }
    ensures { IfOk result (ComparesSides a.now b.now) }
{
    let mut first = Run::open(alloc, a.circuit, a.sequences)?;
    let mut second = Run::open(alloc, b.circuit, b.sequences)?;
    runs_difference(alloc, a, &mut first, b, &mut second)
}

/// Returns the first place at which two circuits differ in a block, each under its own sequences.
fn compare_block(
    alloc: Global,
    a: &Circuit,
    b: &Circuit,
    sequences: &[InputSequence],
    others: &[InputSequence],
    number: usize,
) -> Result<Option<Place>, NoMemory>
    requires literals { HaveAsMany a.now b.now }
    requires alike { AreAlike sequences.now others.now }
    requires within { 256 * number ≤ length sequences.now }
    ensures { IfOk result (IsFoundIn a.now b.now sequences.now others.now number) }
{
    let first = Side {
        circuit: a,
        sequences: block(sequences, number),
    };
    let second = Side {
        circuit: b,
        sequences: block(others, number),
    };
    let found = block_difference(alloc, &first, &second)?;
    Ok(after(found, LANES * number))
}

/// Returns the place, with its sequence counted from a later one on.
fn after(found: Option<Place>, first: usize) -> Option<Place>
    requires { IfSome found (λ p. first + p.sequence < 2 ^ 64) }
    ensures { result ≡ option_map (λ p. record {
      sequence = first + p.sequence;
      step = p.step;
      place
          = p.place;
    }) found }
{
    match found {
        Some(place) => Some(Place {
            sequence: first + place.sequence,
            step: place.step,
            place: place.place,
        }),
        None => None,
    }
}

/// Returns what comparing each block finds, in order. Blocks are compared in parallel.
fn compare_blocks(
    rt: &(impl Threads + Sync),
    alloc: Global,
    a: &Circuit,
    b: &Circuit,
    sequences: &[InputSequence],
    others: &[InputSequence],
) -> Result<Vec<Option<Place>>, NoMemory>
    requires literals { HaveAsMany a.now b.now }
    requires alike { AreAlike sequences.now others.now }
    ensures each { IfOk result (λ found. (i : ℕ) → 256 * i < length sequences.now
        → IsSomeAnd (slice_get found.items i)
        (IsFoundIn a.now b.now sequences.now others.now i)) }
    ensures all { IfOk result (λ found. (i : ℕ) → i < length found.items
        → 256 * i < length sequences.now) }
{
    let found: Result<Vec<Option<Place>>, NoMemory> = (0..sequences.len().div_ceil(LANES))
        .into_par_iter()
        .with_min_len(1)
        .map(
            |number: usize| -> Result<Option<Place>, NoMemory>
                requires within { 256 * number ≤ length sequences.now }
                requires literals { HaveAsMany a.now b.now }
                requires alike { AreAlike sequences.now others.now }
                ensures { IfOk result (IsFoundIn a.entry.now b.entry.now
                    sequences.entry.now others.entry.now number) }
            { compare_block(alloc, a, b, sequences, others, number) },
        )
        .collect(rt, alloc)?;
    found
}

/// Returns the first place that was found.
fn first_found(found: &[Option<Place>]) -> Option<Place>
    ensures { MatchOption result ((i : ℕ) → i < length found.now
        → slice_index_or found.now i None ≡ None)
        (λ place. (i : ℕ) × (i < length found.now) × (slice_index_or found.now i None ≡ Some place)
        × ((j : ℕ) → j < i → slice_index_or found.now j None ≡ None)) }
{
    for answer in found {
        if let Some(place) = answer {
            return Some(*place);
        }
    }
    None
}

/// Returns the first place at which the traces of two circuits differ, each under its own
/// sequences.
fn difference(
    rt: &(impl Threads + Sync),
    alloc: Global,
    a: &Circuit,
    b: &Circuit,
    sequences: &[InputSequence],
    others: &[InputSequence],
) -> Result<Option<Place>, NoMemory>
    requires shape { SameShape a.now b.now }
    requires alike { AreAlike sequences.now others.now }
    ensures { IfOk result (λ found. MatchOption found
        (trace a.now sequences.now ≡ trace b.now others.now)
        (IsFirstDifference (trace a.now sequences.now) (trace b.now others.now))) }
{
    let found = compare_blocks(rt, alloc, a, b, sequences, others)?;
    Ok(first_found(found.as_slice()))
}

/// Returns the first place at which the traces of two circuits differ, by sequence, then by step,
/// then by place. Gives `None` if they agree. Gives `Shape` if the circuits differ in the number of
/// inputs, free latches or properties of a kind, or in a justice property's size.
pub fn first_difference(
    rt: &(impl Threads + Sync),
    alloc: Global,
    a: &Circuit,
    b: &Circuit,
    stimulus: &Stimulus,
) -> Result<Option<Place>, SimError>
    ensures same_shape { OnOk result (HaveSameShape a.now b.now) }
    ensures none { IfOk result (λ found. IfNone found
        (trace a.now stimulus.now ≡ trace b.now stimulus.now)) }
    ensures first { IfOk result (λ found. IfSome found
        (IsFirstDifference (trace a.now stimulus.now) (trace b.now stimulus.now))) }
    ensures shape { IsErrOf result Shape → DifferInShape a.now b.now }
{
    if !have_same_shape(a, b) {
        return Err(SimError::Shape);
    }
    let sequences = stimulus.as_slice();
    let found = difference(rt, alloc, a, b, sequences, sequences)?;
    Ok(found)
}

/// Compares as [`first_difference`] does, if the second circuit has these free latches of the first
/// one's, each with its value at step 0. Gives `Shape` if the circuits differ in the number of
/// inputs or properties of a kind, or in the size of a justice property. Gives it also if the
/// second one has another number of free latches. Takes room for the stimulus once more.
pub fn first_difference_kept(
    rt: &(impl Threads + Sync),
    alloc: Global,
    a: &Circuit,
    b: &Circuit,
    stimulus: &Stimulus,
    kept: &[u32],
) -> Result<Option<Place>, SimError>
    ensures same_shape { OnOk result (HaveKeptShape kept.now a.now b.now) }
    ensures none { IfOk result (λ found. IfNone found
        (trace a.now stimulus.now ≡ trace b.now (map (for_kept kept.now) stimulus.now))) }
    ensures first { IfOk result (λ found. IfSome found
        (IsFirstDifference (trace a.now stimulus.now)
        (trace b.now (map (for_kept kept.now) stimulus.now)))) }
    ensures shape { IsErrOf result Shape → DifferInKeptShape kept.now a.now b.now }
{
    if !have_kept_shape(a, b, kept) {
        return Err(SimError::Shape);
    }
    let sequences = stimulus.as_slice();
    let others = sequences_for_kept(alloc, sequences, kept)?;
    let found = difference(rt, alloc, a, b, sequences, others.as_slice())?;
    Ok(found)
}
