//! What a step has to know: what the latches are told that read as others, and what those are told
//! which they read as. Few latches do after some steps, so most gates needn't be simulated.
use aig_graph::{Aig, Gate, Lit, MAX_VARIABLES, NoMemory};
use checked_tables::put_if_there;
use reading_splits::reads_another;
use std::alloc::Global;

/// The gates on which these latches depend in one step. They are numbered anew, after the inputs
/// and latches.
pub(crate) struct Cone {
    /// The variables of the inputs that are read.
    pub(crate) inputs: Vec<usize>,
    /// The places of the latches that are read, or whose classes are looked at.
    pub(crate) latches: Vec<usize>,
    /// The places of the latches that read as another.
    pub(crate) others: Vec<usize>,
    pub(crate) gates: Vec<Gate>,
    /// By latch what it is told, if that is looked at.
    pub(crate) told: Vec<Lit>,
}

impl Drop for Cone {
    // written out: docs/PROOFS.md, Drops and exits
    fn drop(self) {
        let Cone {
            inputs: _inputs,
            latches: _latches,
            others: _others,
            gates: _gates,
            told: _told,
        } = self;
    }
}

/// Marks a place, if there is one.
fn mark(marks: &mut [bool], place: usize) {
    put_if_there(marks, place, true);
}

/// Marks a latch by its variable, and what it is told.
fn mark_latch(aig: &Aig, marks: &mut [bool], var: u32) {
    if let Some(latch) = aig.latch(var) {
        mark(marks, var as usize);
        mark(marks, latch.next.var() as usize);
    }
}

/// Marks the latches that read as another, their firsts, and what all of these are told. Returns
/// the places of those that do.
fn others(
    alloc: Global,
    aig: &Aig,
    reads: &[Lit],
    marks: &mut [bool],
) -> Result<Vec<usize>, NoMemory> {
    let mut others = Vec::new(alloc);
    for (place, lit) in reads.iter().enumerate() {
        if reads_another(aig, place, *lit) {
            others.push(place)?;
            mark_latch(aig, marks, lit.var());
            let var = (aig.first_latch() as usize).wrapping_add(place);
            mark(marks, var);
            if let Some(latch) = aig.latches().get(place) {
                mark(marks, latch.next.var() as usize);
            }
        }
    }
    Ok(others)
}

/// Marks what marked gates depend on, and what marked latches read as.
fn mark_below(aig: &Aig, reads: &[Lit], marks: &mut [bool]) {
    let first = aig.first_gate() as usize;
    for place in (0..aig.gates().len()).rev() {
        let var = first.wrapping_add(place);
        if var < marks.len() && marks[var] {
            let gate = &aig.gates()[place];
            mark(marks, gate.rhs0.var() as usize);
            mark(marks, gate.rhs1.var() as usize);
        }
    }
    let first = aig.first_latch() as usize;
    for (place, lit) in reads.iter().enumerate() {
        let var = first.wrapping_add(place);
        if var < marks.len() && marks[var] {
            mark(marks, lit.var() as usize);
        }
    }
}

/// Returns the places from `first` on that are marked, before `end`, less what `before` is.
fn marked(
    alloc: Global,
    marks: &[bool],
    first: usize,
    end: usize,
    before: usize,
) -> Result<Vec<usize>, NoMemory> {
    let mut places = Vec::new(alloc);
    for place in first..end {
        if place < marks.len() && marks[place] {
            places.push(place.wrapping_sub(before))?;
        }
    }
    Ok(places)
}

/// Returns what a literal is, by what the gates are from the variable `first` on.
fn renumbered(numbers: &[Lit], first: u32, lit: Lit) -> Lit {
    if lit.var() < first {
        return lit;
    }
    match numbers.get((lit.var() - first) as usize) {
        Some(number) => number.signed_as(lit),
        None => Lit::FALSE,
    }
}

/// Returns the literal of the gate that follows `gates` gates, the first of which is the variable
/// `first`.
fn number_after(first: u32, gates: usize) -> Lit {
    let var = (first as usize).saturating_add(gates);
    if var < MAX_VARIABLES {
        Lit::new(var as u32, false)
    } else {
        Lit::FALSE
    }
}

/// Puts the marked gates one after the other. Returns for each gate its literal there.
fn number(
    alloc: Global,
    aig: &Aig,
    marks: &[bool],
    gates: &mut Vec<Gate>,
) -> Result<Vec<Lit>, NoMemory> {
    let first = aig.first_gate();
    let mut numbers = Vec::with_capacity(alloc, aig.gates().len())?;
    for (place, gate) in aig.gates().iter().enumerate() {
        let var = (first as usize).wrapping_add(place);
        if var < marks.len() && marks[var] {
            let own = number_after(first, gates.len());
            let rhs0 = renumbered(numbers.as_slice(), first, gate.rhs0);
            let rhs1 = renumbered(numbers.as_slice(), first, gate.rhs1);
            gates.push(Gate { rhs0, rhs1 })?;
            numbers.push(own)?;
        } else {
            numbers.push(Lit::FALSE)?;
        }
    }
    Ok(numbers)
}

/// Returns what each latch is told, by the new literals of gates.
fn told(alloc: Global, aig: &Aig, numbers: &[Lit]) -> Result<Vec<Lit>, NoMemory> {
    let mut told = Vec::with_capacity(alloc, aig.latches().len())?;
    for latch in aig.latches() {
        told.push(renumbered(numbers, aig.first_gate(), latch.next))?;
    }
    Ok(told)
}

impl Cone {
    /// Returns the cone of the latches that read as others. Linear.
    pub(crate) fn of(alloc: Global, aig: &Aig, reads: &[Lit]) -> Result<Cone, NoMemory> {
        let mut marks = vec![in alloc; false; aig.variables()]?;
        let others = others(alloc, aig, reads, marks.as_mut_slice())?;
        mark_below(aig, reads, marks.as_mut_slice());
        let marks = marks.as_slice();
        let (first, end) = (aig.first_latch() as usize, aig.first_gate() as usize);
        let inputs = marked(alloc, marks, 1, first, 0)?;
        let latches = marked(alloc, marks, first, end, first)?;
        let mut gates = Vec::new(alloc);
        let numbers = number(alloc, aig, marks, &mut gates)?;
        let told = told(alloc, aig, numbers.as_slice())?;
        Ok(Cone {
            inputs,
            latches,
            others,
            gates,
            told,
        })
    }

    /// Returns how many of the latches still read as another.
    pub(crate) fn still(&self, aig: &Aig, reads: &[Lit]) -> usize {
        let mut still = 0usize;
        for place in self.others.as_slice() {
            if *place < reads.len() && reads_another(aig, *place, reads[*place]) {
                still = still.wrapping_add(1);
            }
        }
        still
    }
}
