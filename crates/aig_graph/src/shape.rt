//! Compares circuits place by place: the property literals in one list, and the numbers of inputs
//! and properties.
ghost use Rattle.std.specs.Prelude.{◌≡◌, ◌↔◌, ◌++◌, IfOk, OnOk, IsTrue, length, map};
ghost use Rattle.std.specs.List.{flat_map};
ghost use Rattle.aig_graph.specs.Streams.{SameShape, property_literals};

use crate::NoMemory;
use crate::circuit::Circuit;
use crate::literal::Lit;
use crate::properties::Props;
use crate::sequence::Sequence;
use std::alloc::{AllocError, Global};

/// Adds the literals of each list.
fn add_each(literals: &mut Vec<Lit>, lists: &[Sequence<Lit>]) -> Result<(), AllocError>
    ensures { OnOk result (literals.new.items ≡
        literals.old.items ++ flat_map (λ lits. lits) lists.now) }
{
    for lits in lists {
        literals.extend_from_slice(lits.as_slice())?;
    }
    Ok(())
}

/// Adds the literals of the properties, kind after kind.
fn add_properties(literals: &mut Vec<Lit>, props: &Props) -> Result<(), AllocError>
    ensures { OnOk result (literals.new.items ≡
        literals.old.items ++ property_literals props.now) }
{
    literals.extend_from_slice(props.outputs.as_slice())?;
    literals.extend_from_slice(props.bad.as_slice())?;
    literals.extend_from_slice(props.constraints.as_slice())?;
    add_each(literals, props.justice.as_slice())?;
    literals.extend_from_slice(props.fairness.as_slice())
}

/// Returns the literals of the properties, kind after kind.
///
/// # Errors
///
/// `NoMemory` if memory is refused.
pub fn property_literals(alloc: Global, props: &Props) -> Result<Vec<Lit>, NoMemory>
    ensures { IfOk result (λ literals. literals.items ≡ property_literals props.now) }
{
    let mut literals = Vec::new(alloc);
    add_properties(&mut literals, props)?;
    Ok(literals)
}

/// Returns true if the circuits have equal numbers of inputs, of properties of each kind, and of
/// literals of each justice property.
pub fn have_same_shape(a: &Circuit, b: &Circuit) -> bool
    ensures { IsTrue result ↔ SameShape a.now b.now }
{
    let p = a.props();
    let q = b.props();
    b.aig().inputs() == a.aig().inputs()
        && q.outputs.len() == p.outputs.len()
        && q.bad.len() == p.bad.len()
        && q.constraints.len() == p.constraints.len()
        && q.fairness.len() == p.fairness.len()
        && have_same_sizes(q.justice.as_slice(), p.justice.as_slice())
}

/// Returns true if lists of equal places have equal numbers of literals.
fn have_same_sizes(a: &[Sequence<Lit>], b: &[Sequence<Lit>]) -> bool
    ensures { IsTrue result ↔ (map length a.now ≡ map length b.now) }
{
    if a.len() != b.len() {
        return false;
    }
    for k in 0..a.len() {
        if a[k].len() != b[k].len() {
            return false;
        }
    }
    true
}
