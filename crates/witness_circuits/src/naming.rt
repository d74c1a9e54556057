//! What names say. Names come by rising position, so a place is put once at each.
ghost use Rattle.std.specs.Prelude.{ℕ, List, ◌≡◌, ◌+◌, ◌*◌, ◌<◌, ◌≤◌, ◌++◌, All, IfErr, IfOk, IsErrOf, MatchOption, Option, OnOk, Some, None, codes, false, length, map, replicate};
ghost use Rattle.std.specs.List.Sorted.{IsStrictlyIncreasing};
ghost use Rattle.aig_graph.specs.declared.literal.TheConstants.{MAX_VARIABLES};
ghost use Rattle.file_words.specs.Numbers.{number_of};
ghost use Rattle.witness_circuits.specs.Naming.{AreNamed, IsRefused, Says, Takes, Tells, TellsWhether};
ghost use Rattle.witness_circuits.specs.declared.sharing_errors.SharingError.TheVariants.{NoMemory, NoSuchLiteral};

use crate::sharing_errors::SharingError;
use aig_graph::Symbol;
use file_words::number;
use std::alloc::Global;

/// Returns the text after these letters, if it begins with them.
fn after_letters<'a>(text: &'a [u8], letters: &[u8]) -> Option<&'a [u8]>
    ensures { MatchOption result ((rest : List ℕ) → text.now ≡ letters.now ++ rest
        → ⊥) (λ rest. text.now ≡ letters.now ++ rest.now) }
{
    text.strip_prefix(letters)
}

/// Returns what follows `= ` in a name that begins so.
fn digits_of(name: &[u8]) -> Option<&[u8]>
    ensures { MatchOption result ((digits : List ℕ) → name.now ≡ codes "= " ++ digits
        → ⊥) (λ digits. name.now ≡ codes "= " ++ digits.now) }
{
    after_letters(name, b"= ")
}

/// Returns the place of the variable whose literal the digits say, among `count` variables from
/// `first` on.
fn place_of(digits: &[u8], first: u32, count: u32) -> Option<u32>
    ensures { MatchOption result ((place : ℕ) → place < count
        → number_of digits.now ≡ Some (2 * (first + place))
        → ⊥) (λ place. (place < count) × (number_of digits.now ≡ Some (2 * (first + place)))) }
{
    let lit = number(digits)?;
    let var = lit / 2;
    let from = u64::from(first);
    if lit % 2 == 1 || var < from || var - from >= u64::from(count) {
        return None;
    }
    Some((var - from) as u32)
}

/// Returns true if a name says a literal.
fn says(name: &Symbol) -> bool
    ensures { Tells name.now result }
{
    match digits_of(name.name.as_slice()) {
        Some(_) => true,
        None => false,
    }
}

/// Returns true if one of the names says a literal.
pub(crate) fn any_says(names: &[Symbol]) -> bool
    ensures { TellsWhether names.now result }
{
    for name in names {
        if says(name) {
            return true;
        }
    }
    false
}

/// What names have said so far: the places, and which of the model's these are.
#[derive(Drop)]
struct NamedPlaces {
    places: Vec<Option<u32>>,
    taken: Vec<bool>,
}

impl NamedPlaces {
    /// Returns no places, for `many` inputs or latches of the witness and `count` of the model.
    fn none(alloc: Global, many: usize, count: usize) -> Result<NamedPlaces, SharingError>
        ensures places { IfOk result (λ named. named.places.items ≡ replicate many None) }
        ensures taken { IfOk result (λ named. named.taken.items ≡ replicate count false) }
        ensures memory { IfErr result (λ error. error ≡ NoMemory) }
    {
        let places = vec![in alloc; None; many]?;
        let taken = vec![in alloc; false; count]?;
        Ok(NamedPlaces { places, taken })
    }

    /// Puts the place that a name says at the name's position, and marks it as taken.
    fn take(&mut self, first: u32, name: &Symbol) -> Result<(), SharingError>
        requires position { name.now.position < length self.old.places.items }
        requires few { length self.old.taken.items < MAX_VARIABLES }
        ensures takes { OnOk result (Takes first name.now self.old.places.items self.old.taken.items
            self.new.places.items self.new.taken.items) }
        ensures refused { IfErr result (λ _. IsRefused first name.now self.old.taken.items) }
    {
        let Some(digits) = digits_of(name.name.as_slice()) else {
            return Ok(());
        };
        let Some(place) = place_of(digits, first, self.taken.len() as u32) else {
            return Err(SharingError::NoSuchLiteral);
        };
        if self.taken[place as usize] {
            return Err(SharingError::NoSuchLiteral);
        }
        self.taken[place as usize] = true;
        self.places[name.position as usize] = Some(place);
        Ok(())
    }
}

/// Returns the places that names say, for `many` inputs or latches of the witness. They are among
/// `count` variables of the model, from `first` on.
pub(crate) fn named_places(
    alloc: Global,
    many: usize,
    names: &[Symbol],
    first: u32,
    count: usize,
) -> Result<Vec<Option<u32>>, SharingError>
    requires rising { IsStrictlyIncreasing (map (λ name. name.position) names.now) }
    requires below { All (λ name. name.position < many) names.now }
    requires few { count < MAX_VARIABLES }
    ensures named { IfOk result (λ places. AreNamed first count names.now many places.items) }
    ensures refused { IsErrOf result NoSuchLiteral → (places : List (Option ℕ))
        → AreNamed first count names.now many places → ⊥ }
{
    let mut named = NamedPlaces::none(alloc, many, count)?;
    for name in names {
        named.take(first, name)?;
    }
    Ok(named.places)
}
