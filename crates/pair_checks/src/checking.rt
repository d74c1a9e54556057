//! The check guesses what the latches read as, and has that judged. Then it asks of each property
//! of the second circuit whether it is that of the first if the latches hold what they read as.
ghost use Rattle.std.specs.Prelude.{◌≡◌, ◌↔◌, IfOk, IfSome, IsErrOf, List, ℕ};
ghost use Rattle.aig_graph.specs.Streams.{AreKept, SameShape};
ghost use Rattle.pair_checks.specs.Answers.{IsAnswer, IsAnswerUnder};
ghost use Rattle.pair_checks.specs.Openings as begin;
ghost use Rattle.pair_checks.specs.Sides.{IsPair};

use crate::answer::PairAnswer;
use crate::comparing::compare;
use crate::errors::PairError;
use crate::judging::judged;
use crate::openings::openings;
use crate::pairs::{Pair, paired};
use crate::readings::{own_reading, widest_reading};
use aig_graph::{Aig, Circuit, Lit, NoMemory, have_same_shape, property_literals};
use gate_sharing::SharingError;
use latch_classes::{Budget, guess};
use map_checks::Obligation;
use std::alloc::Global;

/// The units of work that a guess may take: half a minute and more. A guess that takes longer shows
/// nothing.
const UNITS: u64 = 1 << 34;

/// Returns a hint: what the latches of both circuits may read as.
fn guessed(
    alloc: Global,
    first: &Aig,
    second: &Aig,
    begins: &[Lit],
    own: &[Lit],
) -> Result<Vec<Lit>, SharingError>
    requires { second.now.inputs ≡ first.now.inputs }
{
    let widest = widest_reading(alloc, first.first_latch(), begins)?;
    match paired(alloc, first, second, own)? {
        Some(pair) => {
            let guessed = guess(alloc, &pair.graph, widest, Budget::of(UNITS, 0, 0))?;
            Ok(guessed.reads)
        }
        None => Ok(widest),
    }
}

/// Returns the answer if the latches hold what they read as: it says if the properties are equal
/// then.
fn answer_under(
    alloc: Global,
    first: &Circuit,
    second: &Circuit,
    reads: &[Lit],
    pair: &Pair,
) -> Result<PairAnswer, NoMemory>
    requires shape { SameShape first.now second.now }
    requires pair { IsPair first.now.aig second.now.aig reads.now pair.now }
    ensures { IfOk result (IsAnswerUnder first.now second.now reads.now) }
{
    first.known();
    second.known();
    pair.graph.known();
    let ours = property_literals(alloc, first.props())?;
    let theirs = property_literals(alloc, second.props())?;
    let found = compare(alloc, pair, ours.as_slice(), theirs.as_slice())?;
    match found.open {
        None => Ok(PairAnswer::Equal),
        Some(place) => Ok(PairAnswer::NotShown(
            Obligation::of_property(second.props(), place),
            found.shown,
            ours.len(),
        )),
    }
}

/// Returns the answer, if the latches are shown to hold what they read as in all states.
fn answer_by(
    alloc: Global,
    first: &Circuit,
    second: &Circuit,
    begins: &[Lit],
    reads: &[Lit],
) -> Result<Option<PairAnswer>, SharingError>
    requires shape { SameShape first.now second.now }
    ensures { IfOk result (λ found. IfSome found (λ answer. (kept : List ℕ)
        → AreKept first.now second.now kept
        → begins.now ≡ begin.openings first.now.aig second.now.aig kept
        → IsAnswer first.now second.now kept answer)) }
{
    let found = judged(alloc, first.aig(), second.aig(), begins, reads)?;
    match found {
        Some(pair) => {
            let answer = answer_under(alloc, first, second, reads, &pair)?;
            Ok(Some(answer))
        }
        None => Ok(None),
    }
}

/// Checks circuits of one shape.
fn checked(
    alloc: Global,
    first: &Circuit,
    second: &Circuit,
    kept: &[u32],
) -> Result<PairAnswer, SharingError>
    requires shape { SameShape first.now second.now }
    requires kept { AreKept first.now second.now kept.now }
    ensures { IfOk result (IsAnswer first.now second.now kept.now) }
{
    let begins = openings(alloc, first.aig(), second.aig(), kept)?;
    let begins = begins.as_slice();
    let own = own_reading(alloc, first.aig().first_latch(), begins.len())?;
    let reads = guessed(alloc, first.aig(), second.aig(), begins, own.as_slice())?;
    let guessed = answer_by(alloc, first, second, begins, reads.as_slice())?;
    if let Some(answer) = guessed {
        return Ok(answer);
    }
    let plain = answer_by(alloc, first, second, begins, own.as_slice())?;
    match plain {
        Some(answer) => Ok(answer),
        None => Ok(PairAnswer::NotShown(Obligation::of_property(second.props(), 0), 0, 0)),
    }
}

/// Checks that each property of the second circuit has the first one's value at each step, over the
/// same inputs. The free latches of the second circuit are those at these places among the first
/// one's. Latches that always agree, which are guessed, show it, and what follows gate by gate. If
/// some property isn't shown, the answer is the first such one.
///
/// # Errors
///
/// `ShapesDiffer` if the circuits differ in their inputs or properties. `NoMemory` if memory is
/// refused, and `TooLarge` if there would be more gates than a graph may have.
pub fn check_pair(
    alloc: Global,
    first: &Circuit,
    second: &Circuit,
    kept: &[u32],
) -> Result<PairAnswer, PairError>
    requires { AreKept first.now second.now kept.now }
    ensures answer { IfOk result (IsAnswer first.now second.now kept.now) }
    ensures shapes { IsErrOf result PairError.ShapesDiffer
        ↔ (SameShape first.now second.now → ⊥) }
{
    if !have_same_shape(first, second) {
        return Err(PairError::ShapesDiffer);
    }
    let answer = checked(alloc, first, second, kept)?;
    Ok(answer)
}
