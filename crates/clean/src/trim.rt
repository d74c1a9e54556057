//! The second half of a pass: what isn't reached goes. A variable's new number is by how many
//! reached ones come before it, so order is kept, and fan-ins still come first.
ghost use Rattle.std.specs.Prelude.{◌≡◌, ◌+◌, ◌<◌, ◌≤◌, ◌^◌, All, IfOk, OnOk, Some, length, map, slice_get, take, if◌then◌else◌};
ghost use Rattle.aig_graph.specs.Graph.{is_free, variable, IsGraph, IsLiteralOf, first_latch};
ghost use Rattle.aig_graph.specs.Mapped.{OfProps, mapped_props};
ghost use Rattle.cleaned_circuits.specs.Merged.{replaced_gate};
ghost use Rattle.cleaned_circuits.specs.Reached.{stays};
ghost use Rattle.cleaned_circuits.specs.Trimmed.{new_position, picked, renumbered, renumbered_latch, trimmed_graph, is_kept_free, kept_free};
ghost use Rattle.clean.specs.Substitutions.{new_literals};
ghost use Rattle.clean.specs.Sweep.{is_marked};

use crate::reached::Reached;
use crate::substitution::Substitution;
use aig_graph::{Aig, Gate, Latch, Lit, NoMemory, Props, Reset};
use std::alloc::Global;

/// A graph of which the latches and gates that aren't reached go, with the new literal of each
/// variable.
#[derive(Clone, Copy)]
pub(crate) struct Trim<'a> {
    pub(crate) aig: &'a Aig,
    pub(crate) reached: &'a Reached,
    literals: &'a Substitution,
    ghost renumbers: { literals.now ≡ new_literals aig.now (is_marked reached.now) },
}

/// Puts the new literals in the place of what the table held: numbers close up.
pub(crate) fn put_new_literals(
    aig: &Aig,
    reached: &Reached,
    literals: &mut Substitution,
) -> Result<(), NoMemory>
    ensures { OnOk result (literals.new ≡ new_literals aig.now (is_marked reached.now)) }
{
    let first = aig.first_latch();
    literals.renew(first, aig.latches_and_gates())?;
    let mut next = first;
    for var in first..aig.variables() as u32 {
        literals.push(Lit::new(next, false))?;
        next += u32::from(reached.has(var));
    }
    Ok(())
}

/// Writes the gates that are reached, with the literals that replace theirs, from the first place
/// on. Returns how many they are. The first gate has the variable `first`.
fn close_gates(gates: &mut [Gate], first: u32, reached: &Reached, literals: &Substitution) -> usize
    requires small { first + length gates.old ≤ 2 ^ 28 }
    requires larger { All (λ gate. variable gate.rhs0 < length literals.now) gates.old }
    requires smaller { All (λ gate. variable gate.rhs1 < length literals.now) gates.old }
    ensures few { result ≤ length gates.new }
    ensures gates { take result gates.new ≡ map (replaced_gate literals.now)
        (picked (is_marked reached.now) first gates.old) }
{
    let mut kept = 0;
    for place in 0..gates.len() {
        if reached.has(first + place as u32) {
            gates[kept] = literals.gate(gates[place]);
            kept += 1;
        }
    }
    kept
}

/// Returns the gates that are reached, with the literals that replace theirs, in the gates' own
/// table.
fn closed_gates(
    gates: Vec<Gate>,
    first: u32,
    reached: &Reached,
    literals: &Substitution,
) -> Vec<Gate>
    requires small { first + length gates.items ≤ 2 ^ 28 }
    requires larger { All (λ gate. variable gate.rhs0 < length literals.now) gates.items }
    requires smaller { All (λ gate. variable gate.rhs1 < length literals.now) gates.items }
    ensures { result.items ≡ map (replaced_gate literals.now)
        (picked (is_marked reached.now) first gates.items) }
{
    let mut gates = gates;
    let kept = close_gates(gates.as_mut_slice(), first, reached, literals);
    gates.truncate(kept);
    gates.shrink_to_fit();
    gates
}

/// Returns the graph without what isn't reached, by its new literals and with the latches that
/// stay. The graph's own table of gates is used.
pub(crate) fn closed_graph(
    aig: Aig,
    latches: Vec<Latch>,
    reached: &Reached,
    literals: &Substitution,
) -> Aig
    requires literals { literals.now ≡ new_literals aig (is_marked reached.now) }
    requires latches { latches.items ≡ map (renumbered_latch aig (is_marked reached.now))
        (picked (stays aig (is_marked reached.now)) (first_latch aig) aig.latches) }
    requires graph { IsGraph (trimmed_graph aig (is_marked reached.now)) }
    ensures { result ≡ trimmed_graph aig (is_marked reached.now) }
{
    let first = aig.first_gate();
    let (inputs, _before, gates) = aig.into_parts();
    let gates = closed_gates(gates, first, reached, literals);
    Aig::from_parts(inputs, latches, gates)
}

/// Returns 1 if the latch is free, else 0.
fn one_if_free(latch: Latch) -> u32
    ensures value { result ≡ (if is_free latch then 1 else 0) }
    ensures small { result ≤ 1 }
{
    u32::from(latch.reset == Reset::Free)
}

impl<'a> Trim<'a> {
    /// Returns the graph without what isn't reached, by its new literals.
    pub(crate) fn new(aig: &'a Aig, reached: &'a Reached, literals: &'a Substitution) -> Trim<'a>
        requires { literals.now ≡ new_literals aig.now (is_marked reached.now) }
        ensures aig { result.aig.now ≡ aig.now }
        ensures reached { result.reached.now ≡ reached.now }
    {
        Trim {
            aig,
            reached,
            literals,
        }
    }

    /// Returns true if the latch at a place stays.
    pub(crate) fn keeps_latch(&self, place: u32) -> bool
        requires { place < length self.now.aig.now.latches }
        ensures { result ≡ is_marked self.now.reached.now (first_latch self.now.aig.now + place) }
    {
        self.reached.has(self.aig.first_latch() + place)
    }

    /// Returns the new position of a latch.
    pub(crate) fn new_position(&self, position: u32) -> u32
        requires { position < length self.now.aig.now.latches }
        ensures { result ≡ new_position self.now.aig.now (is_marked self.now.reached.now) position }
    {
        let first = self.aig.first_latch();
        self.literals
            .literal(Lit::new(first + position, false))
            .var()
            - first
    }

    /// Returns the latches that stay.
    pub(crate) fn latches(&self, alloc: Global) -> Result<Vec<Latch>, NoMemory>
        ensures { IfOk result (λ latches. latches.items ≡
            map (renumbered_latch self.now.aig.now (is_marked self.now.reached.now))
            (picked (stays self.now.aig.now (is_marked self.now.reached.now))
            (first_latch self.now.aig.now) self.now.aig.now.latches)) }
    {
        let mut latches = Vec::new(alloc);
        for (place, latch) in self.aig.latches().iter().enumerate() {
            if self.keeps_latch(place as u32) {
                latches.push(self.literals.latch(*latch))?;
            }
        }
        Ok(latches)
    }

    /// Returns the properties by new literals.
    pub(crate) fn props(&self, alloc: Global, props: &Props) -> Result<Props, NoMemory>
        requires { OfProps (IsLiteralOf self.now.aig.now) props.now }
        ensures { IfOk result (λ new. new ≡ mapped_props
            (renumbered self.now.aig.now (is_marked self.now.reached.now)) props.now) }
    {
        props.mapped(alloc, self.literals)
    }

    /// Returns the new positions of these latches, which stay.
    pub(crate) fn new_positions(
        &self,
        alloc: Global,
        positions: &[u32],
    ) -> Result<Vec<u32>, NoMemory>
        requires { All (λ j. j < length self.now.aig.now.latches) positions.now }
        ensures { IfOk result (λ new. new.items ≡
            map (new_position self.now.aig.now (is_marked self.now.reached.now)) positions.now) }
    {
        let mut new = Vec::with_capacity(alloc, positions.len())?;
        for position in positions {
            new.push(self.new_position(*position))?;
        }
        Ok(new)
    }

    /// Returns true if the latch at a place is free and stays.
    fn keeps_free(&self, place: u32, latch: Latch) -> bool
        requires { slice_get self.now.aig.now.latches place ≡ Some latch }
        ensures { result ≡ is_kept_free self.now.aig.now (is_marked self.now.reached.now) place }
    {
        latch.reset == Reset::Free && self.keeps_latch(place)
    }

    /// Returns for each free latch that stays its place among the free latches.
    pub(crate) fn kept_free(&self, alloc: Global) -> Result<Vec<u32>, NoMemory>
        ensures { IfOk result (λ kept. kept.items ≡ kept_free self.now.aig.now
            (is_marked self.now.reached.now)) }
    {
        let mut kept = Vec::new(alloc);
        let mut free = 0;
        for (place, latch) in self.aig.latches().iter().enumerate() {
            if self.keeps_free(place as u32, *latch) {
                kept.push(free)?;
            }
            free += one_if_free(*latch);
        }
        Ok(kept)
    }
}
