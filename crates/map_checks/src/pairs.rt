//! The copies that are compared among shared gates. Two literals are compared for each part of what
//! a step has to show.
ghost use Rattle.std.specs.Prelude.{◌≡◌, [], IfOk, OnOk};
ghost use Rattle.aig_graph.specs.Gates.{Grows};
ghost use Rattle.aig_graph.specs.Graph.{first_gate, variables_end};
ghost use Rattle.map_checks.specs.Answers.{AreFitting};
ghost use Rattle.gate_sharing.specs.Copies.{copied_end};
ghost use Rattle.map_checks.specs.Images.{AreComparedCopies, AreWholeCopies};
ghost use Rattle.map_checks.specs.Parts.{ArePairs, given_literals, wanted_literals};

use crate::learning::{image, learn_all};
use crate::leaves::{nexts, push_copies};
use crate::sides::{first_side, later_side, second_side};
use aig_graph::{Circuit, Lit, NoMemory, property_literals};
use gate_sharing::{Copied, Equalities, SharedGates, SharingError};
use std::alloc::Global;

/// The copies that are compared.
struct Sides {
    before: Copied,
    later: Copied,
    after: Copied,
}

impl Drop for Sides {
    // written out: docs/PROOFS.md, Drops and exits
    fn drop(self) {
        let Sides {
            before: _before,
            later: _later,
            after: _after,
        } = self;
    }
}

/// Two shared literals for each part.
pub(crate) struct Pairs {
    pub(crate) lits: Vec<Lit>,
    pub(crate) others: Vec<Lit>,
}

impl Drop for Pairs {
    // written out: docs/PROOFS.md, Drops and exits
    fn drop(self) {
        let Pairs {
            lits: _lits,
            others: _others,
        } = self;
    }
}

/// Returns the copies that are compared, among these gates.
fn sides_of(
    alloc: Global,
    shared: &mut SharedGates,
    equal: &mut Equalities,
    first: &Circuit,
    second: &Circuit,
    map: &Circuit,
) -> Result<Sides, SharingError>
    requires fitting { AreFitting first.now second.now map.now }
    requires latches { map.now.aig.latches ≡ [] }
    requires after { shared.old.first ≡ first_gate first.now.aig }
    ensures grows { OnOk result (Grows shared.old shared.new) }
    ensures sides { IfOk result (λ sides. AreComparedCopies shared.new equal.old equal.new first.now
        second.now map.now sides.before sides.later sides.after) }
{
    learn_all(alloc, shared, equal, first.aig(), map)?;
    let image = image(alloc, shared, equal, first.aig(), map)?;
    let before = first_side(alloc, shared, equal, first)?;
    let later = later_side(alloc, shared, equal, &before, first, map)?;
    let after = second_side(alloc, shared, equal, &image, first.aig(), second, map)?;
    Ok(Sides {
        before,
        later,
        after,
    })
}

/// Returns what a step gives for each part.
fn given_literals(
    alloc: Global,
    second: &Circuit,
    map: &Circuit,
    sides: &Sides,
) -> Result<Vec<Lit>, NoMemory>
    requires of_map { copied_end sides.now.later ≡ variables_end map.now.aig }
    requires of_second { copied_end sides.now.after ≡ variables_end second.now.aig }
    ensures { IfOk result (λ lits. lits.items
        ≡ given_literals second.now map.now sides.now.later sides.now.after) }
{
    let properties = property_literals(alloc, second.props())?;
    let mut lits = Vec::new(alloc);
    push_copies(&mut lits, &sides.later, map.props().constraints.as_slice())?;
    push_copies(&mut lits, &sides.later, map.props().outputs.as_slice())?;
    push_copies(&mut lits, &sides.after, properties.as_slice())?;
    Ok(lits)
}

/// Returns what each part must be.
fn wanted_literals(
    alloc: Global,
    first: &Circuit,
    second: &Circuit,
    map: &Circuit,
    sides: &Sides,
) -> Result<Vec<Lit>, NoMemory>
    requires long { AreWholeCopies first.now second.now map.now sides.now.before sides.now.later
        sides.now.after }
    ensures { IfOk result (λ lits. lits.items
        ≡ wanted_literals first.now second.now map.now sides.now.before sides.now.after) }
{
    let nexts = nexts(alloc, second.aig())?;
    let properties = property_literals(alloc, first.props())?;
    let mut lits = vec![in alloc; Lit::TRUE; map.props().constraints.len()]?;
    push_copies(&mut lits, &sides.after, nexts.as_slice())?;
    push_copies(&mut lits, &sides.before, properties.as_slice())?;
    Ok(lits)
}

/// Returns the literals of all parts, as they stand in the copies.
fn pairs_of_sides(
    alloc: Global,
    first: &Circuit,
    second: &Circuit,
    map: &Circuit,
    sides: &Sides,
) -> Result<Pairs, NoMemory>
    requires long { AreWholeCopies first.now second.now map.now sides.now.before sides.now.later
        sides.now.after }
    ensures lits { IfOk result (λ pairs. pairs.lits.items
        ≡ given_literals second.now map.now sides.now.later sides.now.after) }
    ensures others { IfOk result (λ pairs. pairs.others.items
        ≡ wanted_literals first.now second.now map.now sides.now.before sides.now.after) }
{
    Ok(Pairs {
        lits: given_literals(alloc, second, map, sides)?,
        others: wanted_literals(alloc, first, second, map, sides)?,
    })
}

/// Returns two literals for each part of what a step has to show, among these gates. A literal's
/// substitute may be taken for it.
pub(crate) fn pairs_of(
    alloc: Global,
    shared: &mut SharedGates,
    equal: &mut Equalities,
    first: &Circuit,
    second: &Circuit,
    map: &Circuit,
) -> Result<Pairs, SharingError>
    requires fitting { AreFitting first.now second.now map.now }
    requires latches { map.now.aig.latches ≡ [] }
    requires after { shared.old.first ≡ first_gate first.now.aig }
    ensures grows { OnOk result (Grows shared.old shared.new) }
    ensures pairs { IfOk result
        (λ pairs. ArePairs shared.new equal.old equal.new first.now second.now
        map.now pairs.lits.items pairs.others.items) }
{
    first.known();
    second.known();
    map.known();
    let sides = sides_of(alloc, shared, equal, first, second, map)?;
    let pairs = pairs_of_sides(alloc, first, second, map, &sides)?;
    Ok(pairs)
}
