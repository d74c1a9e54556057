//! What to make cases of: an input or latch that gates read often in the cones of all open parts.
//! One that gates read with one sign alone goes first if it is read often, as a reset is: one value
//! of it settles most. Else it is the one that is read most often, among those on which one open
//! part depends. So an enable or a reset is found without knowing what one is. Nothing that is
//! proved depends on the choice.
use crate::comparing::is_marked;
use crate::pairs::Pairs;
use aig_graph::{Aig, Lit, NoMemory};
use checked_tables::{entry_or, put_if_covered, put_if_there};
use gate_sharing::Equalities;
use std::alloc::Global;

/// Marks the variable of a literal.
fn mark(marks: &mut [bool], lit: Lit) {
    put_if_there(marks, lit.var() as usize, true);
}

/// Marks what stands for the literals of a part.
fn mark_part(marks: &mut [bool], equal: &mut Equalities, pairs: &Pairs, part: usize) {
    if part < pairs.lits.len() && part < pairs.others.len() {
        mark(marks, equal.find(pairs.lits[part]));
        mark(marks, equal.find(pairs.others[part]));
    }
}

/// Marks the variables on which the marked ones rest.
fn mark_cone(marks: &mut [bool], aig: &Aig) {
    let first = aig.first_gate() as usize;
    for place in (0..aig.gates().len()).rev() {
        let gate = aig.gates()[place];
        if is_marked(marks, first + place) {
            mark(marks, gate.rhs0);
            mark(marks, gate.rhs1);
        }
    }
}

/// Counts that a literal is read, if its variable is before the gates.
fn count(counts: &mut [u32], lit: Lit) {
    let place = place_of(lit);
    let counted = entry_or(counts, place, 0);
    put_if_covered(counts, place, counted.wrapping_add(1));
}

/// Returns the place of a literal in a table by literal.
fn place_of(lit: Lit) -> usize {
    (lit.var() as usize)
        .wrapping_mul(2)
        .wrapping_add(usize::from(lit.is_negated()))
}

/// Counts by literal of variables before the gates the marked gates that read it.
fn readers(alloc: Global, aig: &Aig, marks: &[bool]) -> Result<Vec<u32>, NoMemory> {
    let first = aig.first_gate() as usize;
    let mut counts = vec![in alloc; 0u32; first.wrapping_mul(2)]?;
    for place in 0..aig.gates().len() {
        let gate = aig.gates()[place];
        if is_marked(marks, first + place) {
            count(counts.as_mut_slice(), gate.rhs0);
            count(counts.as_mut_slice(), gate.rhs1);
        }
    }
    Ok(counts)
}

/// Returns how often a variable is read.
fn reads(counts: &[u32], lit: Lit) -> u32 {
    entry_or(counts, place_of(lit), 0).wrapping_add(entry_or(counts, place_of(lit.not()), 0))
}

/// Returns the marked input or latch but `besides` that is read most often, the first of those that
/// are read as often.
fn most_read(aig: &Aig, counts: &[u32], marks: &[bool], besides: u32) -> Option<Lit> {
    let mut best = None;
    let mut most = 0;
    for var in 1..aig.first_gate() {
        let lit = Lit::new(var, false);
        let many = reads(counts, lit);
        if is_marked(marks, var as usize) && var != besides && (best.is_none() || many > most) {
            best = Some(lit);
            most = many;
        }
    }
    best
}

/// Returns the literal of a marked input or latch that is read most often, of those that no gate
/// reads with the other sign.
fn most_read_once(aig: &Aig, counts: &[u32], marks: &[bool]) -> Option<Lit> {
    let mut best = None;
    let mut most = 0;
    for var in 1..aig.first_gate() {
        let lit = Lit::new(var, false);
        let (yes, no) = (
            entry_or(counts, place_of(lit), 0),
            entry_or(counts, place_of(lit.not()), 0),
        );
        if is_marked(marks, var as usize) && (yes == 0 || no == 0) && yes.max(no) > most {
            best = Some(if yes == 0 { lit.not() } else { lit });
            most = yes.max(no);
        }
    }
    best
}

/// What to make cases of.
#[derive(Clone, Copy)]
pub(crate) struct Choice {
    pub(crate) lit: Lit,
    /// What splits the case in which the literal is 1, before that is asked.
    pub(crate) then: Option<Lit>,
}

/// Returns the choice of a literal that is read as a reset is, if there is one. It is read with one
/// sign, and often: by more gates than half the parts, and than half the readers of the most read
/// variable. Another variable that is read so often is taken with it.
fn reset_of(aig: &Aig, counts: &[u32], own: &[bool], all: &[bool], parts: usize) -> Option<Choice> {
    let most = reads(counts, most_read(aig, counts, all, 0)?);
    let least = parts.max(most as usize) / 2;
    let lit = most_read_once(aig, counts, own)?;
    if reads(counts, lit) as usize <= least {
        return None;
    }
    let then = match most_read(aig, counts, all, lit.var()) {
        Some(other) if reads(counts, other) as usize > least => Some(other),
        _ => None,
    };
    Some(Choice { lit, then })
}

/// Marks the variables on which the open parts rest.
fn open_cones(
    alloc: Global,
    aig: &Aig,
    equal: &mut Equalities,
    pairs: &Pairs,
    shown: &[bool],
) -> Result<Vec<bool>, NoMemory> {
    let mut all = vec![in alloc; false; aig.variables()]?;
    for open in 0..shown.len() {
        if !is_marked(shown, open) {
            mark_part(all.as_mut_slice(), equal, pairs, open);
        }
    }
    mark_cone(all.as_mut_slice(), aig);
    Ok(all)
}

/// Returns what to make cases of for an open part, by the marks of the parts that are shown.
/// Linear.
pub(crate) fn chosen(
    alloc: Global,
    aig: &Aig,
    equal: &mut Equalities,
    pairs: &Pairs,
    shown: &[bool],
    part: usize,
) -> Result<Option<Choice>, NoMemory> {
    let mut own = vec![in alloc; false; aig.variables()]?;
    mark_part(own.as_mut_slice(), equal, pairs, part);
    mark_cone(own.as_mut_slice(), aig);
    let all = open_cones(alloc, aig, equal, pairs, shown)?;
    let counts = readers(alloc, aig, all.as_slice())?;
    let (own, all, counts) = (own.as_slice(), all.as_slice(), counts.as_slice());
    if let Some(choice) = reset_of(aig, counts, own, all, shown.len()) {
        return Ok(Some(choice));
    }
    Ok(most_read(aig, counts, own, 0).map(|lit| Choice { lit, then: None }))
}
