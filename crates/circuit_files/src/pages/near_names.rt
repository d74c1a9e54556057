//! The name that a user may have meant, by the fewest bytes that are inserted, dropped or replaced
//! (Levenshtein, 1966). If none is near there is no answer, since a wrong one would mislead.
ghost use Rattle.std.specs.Prelude.{◌≡◌, ◌==◌, IfOk, map, position};
ghost use Rattle.circuit_files.specs.pages.Nearest.{are_alike_in_length, edits, nearest_of};

use std::alloc::{AllocError, Global};
use strsim::generic_levenshtein;

/// The length of the longest name for which a nearest one is looked for.
const LONGEST: usize = 64;

/// The most edits that lead to a name that is near.
const MOST_EDITS: usize = 2;

/// The number of edits to a name that isn't near.
const FAR: usize = 3;

/// Returns true if a name is short, and the other about as long. Otherwise the table of edits would
/// be large, for nothing.
fn are_alike_in_length(name: &[u8], other: &[u8]) -> bool
    ensures { result ≡ are_alike_in_length name.now other.now }
{
    name.len() <= LONGEST && name.len().abs_diff(other.len()) <= MOST_EDITS
}

/// Counts the bytes that have to be inserted, dropped or replaced to make the one name of the
/// other. Returns `FAR` if that is more than half the name's bytes, or the names aren't compared.
#[tactic(auto, unfolding(crate::specs::pages::Nearest::edits))]
pub fn edits(alloc: Global, name: &[u8], other: &[u8]) -> Result<usize, AllocError>
    ensures { IfOk result (λ count. count ≡ edits name.now other.now) }
{
    if !are_alike_in_length(name, other) {
        return Ok(FAR);
    }
    let count = generic_levenshtein(alloc, name, other)?;
    if count <= name.len() / 2 {
        Ok(count)
    } else {
        Ok(FAR)
    }
}

/// Counts the edits to each of the names.
fn edits_to_all(alloc: Global, name: &[u8], names: &[&[u8]]) -> Result<Vec<usize>, AllocError>
    ensures { IfOk result (λ counts. counts.items
        ≡ map (λ other. edits name.now other.now) names.now) }
{
    let mut counts = Vec::new(alloc);
    for other in names {
        counts.push(edits(alloc, name, *other)?)?;
    }
    Ok(counts)
}

/// Returns the place of the first of these numbers that is the wanted one.
fn place_of(counts: &[usize], wanted: usize) -> Option<usize>
    ensures { result ≡ position (λ count. count == wanted) counts.now }
{
    counts.iter().position(|count| *count == wanted)
}

/// Returns the place of the first of the least numbers, if these are at most `MOST_EDITS`.
#[tactic(auto, unfolding(crate::specs::pages::Nearest::nearest_of))]
pub fn nearest_of(counts: &[usize]) -> Option<usize>
    ensures { result ≡ nearest_of counts.now }
{
    if let Some(place) = place_of(counts, 0) {
        return Some(place);
    }
    if let Some(place) = place_of(counts, 1) {
        return Some(place);
    }
    place_of(counts, MOST_EDITS)
}

/// Returns the place of the first name to which the fewest edits lead. An edit inserts, drops or
/// replaces a byte. They are at most two, and at most half the name's bytes. A name of over 64
/// bytes has no near one. Time linear in the bytes of the names.
pub fn nearest(alloc: Global, name: &[u8], names: &[&[u8]]) -> Result<Option<usize>, AllocError>
    ensures { IfOk result (λ place. place
        ≡ nearest_of (map (λ other. edits name.now other.now) names.now)) }
{
    let counts = edits_to_all(alloc, name, names)?;
    Ok(nearest_of(counts.as_slice()))
}
