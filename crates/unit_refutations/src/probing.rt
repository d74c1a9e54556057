//! Probing learns which literals near a question are 0 if its literals are 1. It learns them one by
//! one, each by propagation alone, and each helps with the next. The choice of literals is no part
//! of what is proved.
ghost use Rattle.std.specs.Prelude.{ℕ, ◌≡◌, Bool, true, IfOk, OnOk};
ghost use Rattle.aig_graph.specs.Gates.{AreEqualIn, AreOne, Refutes, Respects, gates_of};

use crate::propagating::Propagation;
use aig_graph::{Aig, Lit, NoMemory};
use std::alloc::Global;

/// How many variables are tried for a question.
const TRIED: usize = 400;

/// How often all of them are tried that aren't known yet. Each time but the last one learns
/// something.
const PASSES: u32 = 16;

/// Returns the variables nearest to two literals, among those on which they depend.
fn cone(
    alloc: Global,
    propagation: &mut Propagation,
    aig: &Aig,
    a: Lit,
    b: Lit,
) -> Result<Vec<Lit>, NoMemory> {
    let mut lits = Vec::new(alloc);
    let assigned = &mut propagation.assigned;
    if !assigned.begin() {
        return Ok(lits);
    }
    assigned.assume(a.signed_as(a))?;
    assigned.assume(b.signed_as(b))?;
    for place in 0..TRIED {
        let Some(lit) = assigned.trail().get(place).copied() else {
            break;
        };
        lits.push(lit)?;
        if let Some(gate) = aig.gate(lit.var()) {
            assigned.assume(gate.rhs0.signed_as(gate.rhs0))?;
            assigned.assume(gate.rhs1.signed_as(gate.rhs1))?;
        }
    }
    Ok(lits)
}

/// Takes the negation of a literal for known, if propagation refutes the literal together with what
/// is. Whether it does.
fn learn(
    propagation: &mut Propagation,
    aig: &Aig,
    known: &mut Vec<Lit>,
    lit: Lit,
) -> Result<bool, NoMemory>
    ensures { IfOk result (λ learnt. (values : ℕ → Bool) → Respects (gates_of aig.now) values
        → AreOne values known.old.items → AreOne values known.new.items) }
{
    let refuted = propagation.refuted_with(aig, known.as_slice(), lit)?;
    if refuted {
        known.push(lit.not())?;
    }
    Ok(refuted)
}

/// Takes a literal or its negation for known, if propagation shows that it is. Whether it does.
fn learn_either(
    propagation: &mut Propagation,
    aig: &Aig,
    known: &mut Vec<Lit>,
    lit: Lit,
) -> Result<bool, NoMemory>
    ensures { IfOk result (λ learnt. (values : ℕ → Bool) → Respects (gates_of aig.now) values
        → AreOne values known.old.items → AreOne values known.new.items) }
{
    if learn(propagation, aig, known, lit)? {
        return Ok(true);
    }
    learn(propagation, aig, known, lit.not())
}

/// Tries all of these, and takes what they say for known. Those that say nothing are the answer.
fn learn_all(
    alloc: Global,
    propagation: &mut Propagation,
    aig: &Aig,
    known: &mut Vec<Lit>,
    tried: &[Lit],
) -> Result<Vec<Lit>, NoMemory>
    ensures { IfOk result (λ others. (values : ℕ → Bool) → Respects (gates_of aig.now) values
        → AreOne values known.old.items → AreOne values known.new.items) }
{
    let mut others = Vec::new(alloc);
    for lit in tried {
        if !learn_either(propagation, aig, known, *lit)? {
            others.push(*lit)?;
        }
    }
    Ok(others)
}

/// Tries these again and again, and takes what they say for known, until nothing new is learnt.
fn probe(
    alloc: Global,
    propagation: &mut Propagation,
    aig: &Aig,
    known: &mut Vec<Lit>,
    tried: &[Lit],
) -> Result<(), NoMemory>
    ensures { OnOk result ((values : ℕ → Bool) → Respects (gates_of aig.now) values
        → AreOne values known.old.items → AreOne values known.new.items) }
{
    let mut others = learn_all(alloc, propagation, aig, known, tried)?;
    for _ in 0..PASSES {
        let before = others.len();
        others = learn_all(alloc, propagation, aig, known, others.as_slice())?;
        if others.len() == before {
            return Ok(());
        }
    }
    Ok(())
}

/// Returns true if propagation shows that these literals can't all be 1. It first learns the values
/// of the tried literals under them.
fn refuted_by_probing(
    alloc: Global,
    propagation: &mut Propagation,
    aig: &Aig,
    lits: &[Lit],
    tried: &[Lit],
) -> Result<bool, NoMemory>
    ensures { IfOk result (λ refuted. refuted ≡ true → Refutes (gates_of aig.now) lits.now) }
{
    let mut known = Vec::new(alloc);
    known.extend_from_slice(lits)?;
    probe(alloc, propagation, aig, &mut known, tried)?;
    propagation.refuted(aig, known.as_slice())
}

/// Returns true if propagation shows that two literals are always equal, by itself or by probing.
/// Probing learns the values of the variables on which they depend, as far as the visits of gates
/// that are left for it go. The answer no says nothing.
///
/// # Errors
///
/// `NoMemory` if memory is refused; another question may still be asked.
pub fn equal_by_probing(
    alloc: Global,
    propagation: &mut Propagation,
    aig: &Aig,
    a: Lit,
    b: Lit,
) -> Result<bool, NoMemory>
    ensures { IfOk result (λ equal. equal ≡ true → AreEqualIn (gates_of aig.now) a b) }
{
    if propagation.equal(aig, a, b)? {
        return Ok(true);
    }
    let tried = cone(alloc, propagation, aig, a, b)?;
    if !refuted_by_probing(alloc, propagation, aig, &[a, b.not()], tried.as_slice())? {
        return Ok(false);
    }
    refuted_by_probing(alloc, propagation, aig, &[a.not(), b], tried.as_slice())
}
