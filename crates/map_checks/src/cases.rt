//! One case: a step in which some inputs and latches of the first circuit have given values. Gates
//! are shared anew in it, since other gates are one if a variable is a constant. What the map's
//! constraints say is learnt anew too.
ghost use Rattle.std.specs.Prelude.{◌≡◌, ◌≤◌, [], IfOk, IfSome, OnOk, length};
ghost use Rattle.aig_graph.specs.Gates.{Gates, gates_of};
ghost use Rattle.aig_graph.specs.Graph.{first_gate};
ghost use Rattle.map_checks.specs.Answers.{AreFitting};
ghost use Rattle.map_checks.specs.Parts.{AreMarkedEqual, ArePairMarks, AreShownWhere, AssumesCase};

use crate::choosing::{Choice, chosen};
use crate::comparing::{first_unmarked, is_marked, mark_equal};
use crate::pairs::{Pairs, pairs_of};
use crate::refuting::mark_refuted;
use aig_graph::{Aig, Circuit, Lit, NoMemory};
use gate_sharing::{Equalities, SharedGates, SharingError};
use std::alloc::Global;
use unit_refutations::Propagation;

/// What is shown in a case.
pub(crate) struct Asked {
    /// By part, whether it is shown.
    pub(crate) marks: Vec<bool>,
    /// An input or latch whose value may settle the part that was asked for, if it is open.
    pub(crate) split: Option<Choice>,
}

impl Drop for Asked {
    // written out: docs/PROOFS.md, Drops and exits
    fn drop(self) {
        let Asked {
            marks: _marks,
            split: _split,
        } = self;
    }
}

/// What is shown with no case.
#[derive(Drop)]
pub(crate) struct Look {
    /// By part, whether propagation shows it, or probing.
    pub(crate) marks: Vec<bool>,
    /// What propagation alone shows, if a part is open: the first one is asked for.
    pub(crate) asked: Option<Asked>,
}

/// Takes the literals of a case for 1, as far as they are of inputs and latches.
fn assume_case(equal: &mut Equalities, first: &Circuit, case: &[Lit]) -> Result<(), NoMemory>
    ensures { OnOk result ((k : Gates) → AssumesCase k first.now case.now equal.old equal.new) }
{
    for lit in case {
        if lit.var() < first.aig().first_gate() {
            equal.assume(*lit, Lit::TRUE)?;
        }
    }
    Ok(())
}

/// Asks which of these pairs propagation alone shows to be equal. Returns also an input or latch to
/// make cases of if this part is open.
fn propagated(
    alloc: Global,
    propagation: &mut Propagation,
    aig: &Aig,
    equal: &mut Equalities,
    pairs: &Pairs,
    part: usize,
) -> Result<Asked, NoMemory>
    requires long { length pairs.now.lits.items ≡ length pairs.now.others.items }
    ensures long { IfOk result (λ asked. length asked.marks.items ≡ length pairs.now.lits.items) }
    ensures equal { IfOk result (λ asked. AreMarkedEqual (gates_of aig.now) equal.old
        pairs.now.lits.items pairs.now.others.items asked.marks.items) }
{
    let (lits, others) = (pairs.lits.as_slice(), pairs.others.as_slice());
    let marks = mark_refuted(alloc, propagation, aig, equal, lits, others, false)?;
    let split = if is_marked(marks.as_slice(), part) {
        None
    } else {
        chosen(alloc, aig, equal, pairs, marks.as_slice(), part)?
    };
    Ok(Asked { marks, split })
}

/// Asks which of these pairs propagation shows to be equal, by probing too, and what propagation
/// alone shows if one stays open.
fn probed(alloc: Global, aig: &Aig, equal: &mut Equalities, pairs: &Pairs) -> Result<Look, NoMemory>
    requires long { length pairs.now.lits.items ≡ length pairs.now.others.items }
    ensures long { IfOk result (λ look. length look.marks.items ≡ length pairs.now.lits.items) }
    ensures equal { IfOk result (λ look. AreMarkedEqual (gates_of aig.now) equal.old
        pairs.now.lits.items pairs.now.others.items look.marks.items) }
    ensures asked { IfOk result (λ look. IfSome look.asked (λ asked. ArePairMarks (gates_of aig.now)
        equal.old pairs.now.lits.items pairs.now.others.items asked.marks.items)) }
{
    let (lits, others) = (pairs.lits.as_slice(), pairs.others.as_slice());
    let mut propagation = Propagation::of(alloc, aig)?;
    let marks = mark_refuted(alloc, &mut propagation, aig, equal, lits, others, true)?;
    let Some(part) = first_unmarked(marks.as_slice()) else {
        return Ok(Look { marks, asked: None });
    };
    let asked = propagated(alloc, &mut propagation, aig, equal, pairs, part)?;
    Ok(Look {
        marks,
        asked: Some(asked),
    })
}

/// Asks which of these pairs are equal, and what propagation alone shows if one stays open.
fn look_of(
    alloc: Global,
    shared: &SharedGates,
    equal: &mut Equalities,
    pairs: &Pairs,
) -> Result<Look, NoMemory>
    requires first { 1 ≤ shared.now.first }
    requires long { length pairs.now.lits.items ≡ length pairs.now.others.items }
    ensures long { IfOk result (λ look. length look.marks.items ≡ length pairs.now.lits.items) }
    ensures equal { IfOk result (λ look. AreMarkedEqual shared.now equal.old pairs.now.lits.items
        pairs.now.others.items look.marks.items) }
    ensures asked { IfOk result (λ look. IfSome look.asked (λ asked. ArePairMarks shared.now equal.old
        pairs.now.lits.items pairs.now.others.items asked.marks.items)) }
{
    let marks = mark_equal(alloc, equal, pairs.lits.as_slice(), pairs.others.as_slice())?;
    if first_unmarked(marks.as_slice()).is_none() {
        return Ok(Look { marks, asked: None });
    }
    let aig = shared.graph(alloc, Vec::new(alloc))?;
    let look = probed(alloc, &aig, equal, pairs)?;
    Ok(look)
}

/// Asks which of these pairs are equal. Returns also an input or latch to go on with if this part
/// is open.
fn asked_of(
    alloc: Global,
    shared: &SharedGates,
    equal: &mut Equalities,
    pairs: &Pairs,
    part: usize,
) -> Result<Asked, NoMemory>
    requires first { 1 ≤ shared.now.first }
    requires long { length pairs.now.lits.items ≡ length pairs.now.others.items }
    ensures long { IfOk result (λ asked. length asked.marks.items ≡ length pairs.now.lits.items) }
    ensures equal { IfOk result (λ asked. AreMarkedEqual shared.now equal.old pairs.now.lits.items
        pairs.now.others.items asked.marks.items) }
{
    let marks = mark_equal(alloc, equal, pairs.lits.as_slice(), pairs.others.as_slice())?;
    if first_unmarked(marks.as_slice()).is_none() {
        return Ok(Asked { marks, split: None });
    }
    let aig = shared.graph(alloc, Vec::new(alloc))?;
    let mut propagation = Propagation::of(alloc, &aig)?;
    let asked = propagated(alloc, &mut propagation, &aig, equal, pairs, part)?;
    Ok(asked)
}

/// Asks which parts are shown if these literals of the first circuit are 1. Returns also an input
/// or latch to make cases of if this part is open. Linear.
pub(crate) fn ask(
    alloc: Global,
    first: &Circuit,
    second: &Circuit,
    map: &Circuit,
    case: &[Lit],
    part: usize,
) -> Result<Asked, SharingError>
    requires fitting { AreFitting first.now second.now map.now }
    requires latches { map.now.aig.latches ≡ [] }
    ensures { IfOk result (λ asked. AreShownWhere first.now second.now map.now case.now
        asked.marks.items) }
{
    first.known();
    let mut shared = SharedGates::after(alloc, first.aig().first_gate());
    let mut equal = Equalities::none(alloc, 1);
    assume_case(&mut equal, first, case)?;
    let pairs = pairs_of(alloc, &mut shared, &mut equal, first, second, map)?;
    shared.known();
    let asked = asked_of(alloc, &shared, &mut equal, &pairs, part)?;
    Ok(asked)
}

/// Asks which parts are shown with no case, and what propagation alone shows if one stays open.
/// Linear.
pub(crate) fn first_look(
    alloc: Global,
    first: &Circuit,
    second: &Circuit,
    map: &Circuit,
) -> Result<Look, SharingError>
    requires fitting { AreFitting first.now second.now map.now }
    requires latches { map.now.aig.latches ≡ [] }
    ensures marks { IfOk result (λ look. AreShownWhere first.now second.now map.now []
        look.marks.items) }
    ensures asked { IfOk result (λ look. IfSome look.asked (λ asked. AreShownWhere first.now
        second.now map.now [] asked.marks.items)) }
{
    first.known();
    let mut shared = SharedGates::after(alloc, first.aig().first_gate());
    let mut equal = Equalities::none(alloc, 1);
    assume_case(&mut equal, first, &[])?;
    let pairs = pairs_of(alloc, &mut shared, &mut equal, first, second, map)?;
    shared.known();
    let look = look_of(alloc, &shared, &mut equal, &pairs)?;
    Ok(look)
}
