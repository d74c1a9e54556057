//! Holds latches by their symbols' names and by their positions. Both are looked up once: from then
//! on the held latches are known by their positions alone.
ghost use Rattle.std.specs.Prelude.{ℕ, List, ◌≡◌, ◌<◌, ◌||◌, All, length, map, bytes_eq, IfOk, OnOk, IsErrOf, MatchOption};
ghost use Rattle.std.specs.HashSet.{contains_by};
ghost use Rattle.std.specs.List.{list_any};
ghost use Rattle.aig_graph.specs.Keep.{AreLatches, IsFirstMissing, IsFirstNoLatch, NoneMissing, first_missing, has_name, held_also, held_by, held_in, held_of, names_of};
ghost use Rattle.aig_graph.specs.declared.holding.KeepError.TheVariants.{NoMemory, NoSuchName};
ghost use Rattle.aig_graph.specs.declared.holding.HoldError.TheVariants as hold_error;
ghost use Rattle.aig_graph.specs.Marking.{has};
ghost use Rattle.aig_graph.specs.Tables.{table};

use crate::circuit::Circuit;
use crate::keep::Keep;
use crate::properties::Symbol;
use crate::{NoMemory, mark_variables, marked_variables, marks_of};
use std::alloc::{AllocError, AllocFailed, Global};
use std::collections::HashSet;
use thiserror::Error;

/// Why latches can't be held by name.
#[derive(Clone, Copy, Debug, PartialEq, Eq, Error)]
pub enum KeepError {
    /// The name at this place, from 0, is the first that no latch has.
    #[error("no latch has name {0}")]
    NoSuchName(usize),
    /// Memory was refused.
    #[error("out of memory")]
    NoMemory,
}

impl KeepError {
    ghost use Rattle.aig_graph.specs.Keep.{keep_error_code};

    /// Returns the number of the fault.
    pub fn code(self) -> u8
        ensures { result ≡ keep_error_code self }
    {
        match self {
            KeepError::NoSuchName(_) => 1,
            KeepError::NoMemory => 2,
        }
    }
}

impl From<AllocError> for KeepError {
    ghost from_gives = { λ _ e. e ≡ NoMemory };

    fn from(_error: AllocError) -> KeepError {
        KeepError::NoMemory
    }
}

/// Returns the set of the symbols' names.
fn names_of<'a>(alloc: Global, symbols: &'a [Symbol]) -> Result<HashSet<&'a [u8]>, AllocError>
    ensures { IfOk result (λ found. (q : List ℕ) → contains_by (λ k. bytes_eq q k.now) found
        ≡ has_name symbols.now q) }
{
    let mut found = HashSet::new(alloc);
    for symbol in symbols {
        found.insert(symbol.name.as_slice())?;
    }
    Ok(found)
}

/// Returns the set of `names`, to look names up in it.
fn set_of<'a>(alloc: Global, names: &'a [Vec<u8>]) -> Result<HashSet<&'a [u8]>, AllocError>
    ensures { IfOk result (λ found. (q : List ℕ) → contains_by (λ k. bytes_eq q k.now) found
        ≡ list_any (bytes_eq q) (map (λ name. name.items) names.now)) }
{
    let mut found = HashSet::new(alloc);
    for name in names {
        found.insert(name.as_slice())?;
    }
    Ok(found)
}

fn is_among(found: &HashSet<&[u8]>, name: &[u8]) -> bool
    ensures { result ≡ contains_by (λ k. bytes_eq name.now k.now) found.now }
{
    found.contains(name)
}

/// Returns the place of the first name that no symbol has.
fn first_missing(
    alloc: Global,
    symbols: &[Symbol],
    names: &[Vec<u8>],
) -> Result<Option<usize>, AllocError>
    ensures { IfOk result (λ place. place ≡ first_missing symbols.now
        (map (λ name. name.items) names.now)) }
{
    let found = names_of(alloc, symbols)?;
    for (place, name) in names.iter().enumerate() {
        if !is_among(&found, name.as_slice()) {
            return Ok(Some(place));
        }
    }
    Ok(None)
}

/// Returns the positions of the symbols whose name is one of `names`.
fn held_by(alloc: Global, symbols: &[Symbol], names: &[Vec<u8>]) -> Result<Vec<u32>, AllocError>
    ensures { IfOk result (λ positions. positions.items
        ≡ held_by (map (λ name. name.items) names.now) symbols.now) }
{
    let wanted = set_of(alloc, names)?;
    let mut positions = Vec::new(alloc);
    for symbol in symbols {
        if is_among(&wanted, symbol.name.as_slice()) {
            positions.push(symbol.position)?;
        }
    }
    Ok(positions)
}

/// Returns the latches that the names hold: those whose symbol's name is one of the names, all of
/// them if several have it. Time and memory are linear in the names and symbols, since both are
/// looked up in hash sets. No names hold nothing and take no memory.
///
/// # Errors
///
/// `NoSuchName` with the place of the first name that no latch has; `NoMemory` if memory is
/// refused.
pub fn keep_of(alloc: Global, circuit: &Circuit, names: &[Vec<u8>]) -> Result<Keep, KeepError>
    ensures ok { IfOk result (λ keep. keep ≡ held_in (names_of names.now) circuit.now) }
    ensures none_missing { OnOk result (NoneMissing (names_of names.now) circuit.now) }
    ensures missing { (place : ℕ) → IsErrOf result (NoSuchName place)
        → IsFirstMissing (names_of names.now) circuit.now place }
{
    if names.is_empty() {
        return Ok(Keep::none());
    }
    let symbols = circuit.symbols().latches.as_slice();
    if let Some(place) = first_missing(alloc, symbols, names)? {
        return Err(KeepError::NoSuchName(place));
    }
    Ok(Keep::new(held_by(alloc, symbols, names)?))
}

/// Returns the latches that the names hold, in a circuit that has latches of all names: [`keep_of`]
/// with no name missing.
///
/// # Errors
///
/// `NoMemory` if memory is refused.
pub fn keep_by_names(alloc: Global, circuit: &Circuit, names: &[Vec<u8>]) -> Result<Keep, NoMemory>
    requires { NoneMissing (names_of names.now) circuit.now }
    ensures { IfOk result (λ keep. keep ≡ held_in (names_of names.now) circuit.now) }
{
    match keep_of(alloc, circuit, names) {
        Ok(keep) => Ok(keep),
        Err(KeepError::NoMemory) => Err(NoMemory),
        Err(KeepError::NoSuchName(_)) => unreachable!(),
    }
}

/// Why latches can't be held by names and positions.
#[derive(Clone, Copy, Debug, PartialEq, Eq, Error)]
pub enum HoldError {
    /// The position with this number, from 0, is the first at which there is no latch.
    #[error("position {0} is that of no latch")]
    NoSuchLatch(usize),
    /// The name with this number, from 0, is the first that no latch has.
    #[error("no latch has name {0}")]
    NoSuchName(usize),
    /// Memory was refused.
    #[error("out of memory")]
    NoMemory,
}

/// Returns the number of the first position that isn't below `latches`, the number of latches.
fn first_no_latch(latches: usize, positions: &[u32]) -> Option<usize>
    ensures { MatchOption result (AreLatches latches positions.now)
        (IsFirstNoLatch latches positions.now) }
{
    for (k, position) in positions.iter().enumerate() {
        if *position as usize >= latches {
            return Some(k);
        }
    }
    None
}

/// Returns the number of the first position at which the circuit has no latch.
fn wrong_position(circuit: &Circuit, positions: &[u32]) -> Option<usize>
    ensures { MatchOption result (AreLatches (length circuit.now.aig.latches) positions.now)
        (IsFirstNoLatch (length circuit.now.aig.latches) positions.now) }
{
    first_no_latch(circuit.aig().latches().len(), positions)
}

/// Returns a mark for each of `latches` latches: if it is at one of the positions of two lists.
fn marks_of_both(
    alloc: Global,
    latches: usize,
    held: &[u32],
    positions: &[u32],
) -> Result<Vec<bool>, NoMemory>
    ensures { IfOk result (λ marks. marks.items
        ≡ table 0 latches (λ j. has held.now j || has positions.now j)) }
{
    let mut marks = marks_of(alloc, 0, latches, held)?;
    mark_variables(marks.as_mut_slice(), 0, positions);
    Ok(marks)
}

/// Returns the held latches `keep` of a circuit and those at `positions`.
fn held_also(
    alloc: Global,
    circuit: &Circuit,
    keep: Keep,
    positions: &[u32],
) -> Result<Keep, NoMemory>
    ensures { IfOk result (λ all. all ≡ held_also keep positions.now circuit.now) }
{
    if positions.is_empty() {
        return Ok(keep);
    }
    let latches = circuit.aig().latches().len();
    let marks = marks_of_both(alloc, latches, keep.positions(), positions)?;
    let all = marked_variables(alloc, 0, marks.as_slice())?;
    Ok(Keep::new(all))
}

/// Returns the latches that are held: those with one of the names, all of them if several have it,
/// and those at the positions. Positions count from 0, stand in any order, and may stand there more
/// than once. This is the one call that looks latches up. Each step of a run returns the places of
/// held latches in the circuit that it makes. It takes the time of [`keep_of`], and with positions
/// time and memory linear in the latches. No names and no positions hold nothing, and take no
/// memory.
///
/// # Errors
///
/// `NoSuchLatch` with the number of the first position at which there is no latch; it is found
/// first. `NoSuchName` with the number of the first name that no latch has. `NoMemory` if memory is
/// refused.
pub fn hold(
    alloc: Global,
    circuit: &Circuit,
    names: &[Vec<u8>],
    positions: &[u32],
) -> Result<Keep, HoldError>
    ensures ok { IfOk result (λ keep. keep ≡ held_of
        (record { names = names_of names.now; positions = positions.now }) circuit.now) }
    ensures in_range { IfOk result (λ keep. All (λ j. j < length circuit.now.aig.latches) keep) }
    ensures latches { OnOk result (AreLatches (length circuit.now.aig.latches) positions.now) }
    ensures none_missing { OnOk result (NoneMissing (names_of names.now) circuit.now) }
    ensures no_latch { (k : ℕ) → IsErrOf result (hold_error.NoSuchLatch k)
        → IsFirstNoLatch (length circuit.now.aig.latches) positions.now k }
    ensures missing { (k : ℕ) → IsErrOf result (hold_error.NoSuchName k)
        → IsFirstMissing (names_of names.now) circuit.now k }
{
    // The circuit's readers ensure that the held latches are among its own.
    circuit.known();
    match wrong_position(circuit, positions) {
        Some(k) => Err(HoldError::NoSuchLatch(k)),
        None => match keep_of(alloc, circuit, names) {
            Ok(keep) => match held_also(alloc, circuit, keep, positions) {
                Ok(all) => Ok(all),
                Err(_) => Err(HoldError::NoMemory),
            },
            Err(KeepError::NoSuchName(k)) => Err(HoldError::NoSuchName(k)),
            Err(KeepError::NoMemory) => Err(HoldError::NoMemory),
        },
    }
}
