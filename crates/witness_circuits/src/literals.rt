//! The literals that stand for the constant, the inputs and the latches of each circuit, before its
//! gates are added.
ghost use Rattle.std.specs.Prelude.{ℕ, ◌≡◌, ◌+◌, ◌*◌, ◌<◌, ◌≤◌, ◌++◌, ◌∷◌, All, IfOk, OnOk, Some, length, map, slice_get, true, if◌then◌else◌};
ghost use Rattle.aig_graph.specs.declared.literal.TheConstants.{MAX_VARIABLES};
ghost use Rattle.aig_graph.specs.Graph.{variable};
ghost use Rattle.aig_graph.specs.Tables.{table};
ghost use Rattle.witness_circuits.specs.Joining.{is_own, own_count};
ghost use Rattle.map_circuits.specs.Instances.{substitute};
ghost use Rattle.witness_circuits.specs.Literals.{AreSources, negated, source_of};

use aig_graph::{Lit, NoMemory};
use map_circuits::Instance;
use std::alloc::Global;

/// Returns the literals of `count` variables, from `first` on.
///
/// # Errors
///
/// `NoMemory` if memory is refused.
pub fn numbered(alloc: Global, first: u32, count: usize) -> Result<Vec<Lit>, NoMemory>
    requires { first + count ≤ MAX_VARIABLES }
    ensures { IfOk result (λ lits. lits.items ≡ table 0 count (λ k. 2 * (first + k))) }
{
    let mut lits = Vec::with_capacity(alloc, count)?;
    for place in 0..count {
        lits.push_reserved(Lit::new(first + place as u32, false));
    }
    Ok(lits)
}

/// Returns true if the place is shared with none.
pub(crate) fn is_own(place: &Option<u32>) -> bool
    ensures { result ≡ is_own place.now }
{
    place.is_none()
}

/// Returns 1 if the place is shared with none, else 0.
fn one_if_own(place: &Option<u32>) -> u32
    ensures value { result ≡ (if is_own place.now then 1 else 0) }
    ensures small { result ≤ 1 }
{
    u32::from(is_own(place))
}

/// Returns the number of places that are shared with none.
pub(crate) fn own_count(places: &[Option<u32>]) -> u32
    requires { length places.now < MAX_VARIABLES }
    ensures value { result ≡ own_count places.now }
    ensures small { result ≤ length places.now }
{
    let mut count = 0;
    for place in places {
        count += one_if_own(place);
    }
    count
}

/// Returns the literal of what is shared, or that of the next variable.
fn source(shared: &[Lit], place: &Option<u32>, next: u32) -> Lit
    requires below { (at : ℕ) → place.now ≡ Some at → at < length shared.now }
    requires next { is_own place.now ≡ true → next < MAX_VARIABLES }
    ensures { result ≡ source_of shared.now next place.now }
{
    match place {
        Some(place) => shared[*place as usize],
        None => Lit::new(next, false),
    }
}

/// Returns the literals that stand for the witness's inputs or latches. Those that it shares have
/// these literals, its own have variables of their own.
pub(crate) fn sources(
    alloc: Global,
    places: &[Option<u32>],
    shared: &[Lit],
    own: u32,
) -> Result<Vec<Lit>, NoMemory>
    requires below { (k at : ℕ) → slice_get places.now k ≡ Some (Some at) → at < length shared.now }
    requires room { own + own_count places.now ≤ MAX_VARIABLES }
    ensures { IfOk result (λ lits. AreSources places.now shared.now own lits.items) }
{
    let mut lits = Vec::with_capacity(alloc, places.len())?;
    let mut next = own;
    for place in places {
        lits.push_reserved(source(shared, place, next));
        next += one_if_own(place);
    }
    Ok(lits)
}

/// Returns a table of leaves: the constant, these inputs and these latches.
///
/// # Errors
///
/// `NoMemory` if memory is refused.
pub fn leaves(alloc: Global, inputs: &[Lit], latches: &[Lit]) -> Result<Instance, NoMemory>
    ensures { IfOk result (λ leaves. leaves ≡ 0 ∷ (inputs.now ++ latches.now)) }
{
    let mut literals = Vec::new(alloc);
    literals.push(Lit::FALSE)?;
    literals.extend_from_slice(inputs)?;
    literals.extend_from_slice(latches)?;
    Ok(Instance::of(literals))
}

/// Appends the literals that stand for these.
///
/// # Errors
///
/// `NoMemory` if memory is refused; some may have been appended.
pub fn push_substitutes(
    substitutes: &mut Vec<Lit>,
    instance: &Instance,
    lits: &[Lit],
) -> Result<(), NoMemory>
    requires { All (λ lit. variable lit < length instance.now) lits.now }
    ensures { OnOk result (substitutes.new.items ≡ substitutes.old.items ++ map (substitute
        instance.now)
        lits.now) }
{
    for lit in lits {
        substitutes.push(instance.literal(*lit))?;
    }
    Ok(())
}

/// Appends the literals that stand for the negations of these.
pub(crate) fn push_negations(
    substitutes: &mut Vec<Lit>,
    instance: &Instance,
    lits: &[Lit],
) -> Result<(), NoMemory>
    requires { All (λ lit. variable lit < length instance.now) lits.now }
    ensures { OnOk result (substitutes.new.items ≡ substitutes.old.items ++ map
        (λ lit. negated (substitute instance.now lit)) lits.now) }
{
    for lit in lits {
        substitutes.push(instance.literal(*lit).signed_as(Lit::TRUE))?;
    }
    Ok(())
}
