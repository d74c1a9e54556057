//! Structural hashing. A gate whose fan-ins, after replacement, make it redundant comes down to a
//! literal. One with the fan-ins of a kept gate comes down to that gate's. Fan-ins stand with the
//! larger literal first, so equal pairs are equal keys. A gate's pair takes the place of its old
//! fan-ins in one table, after these were read. Fan-ins come before their gate, so nothing reads
//! the old ones again.
ghost use Rattle.std.specs.Prelude.{ℕ, ◌≡◌, ◌+◌, ◌*◌, ◌++◌, ◌∷◌, ◌<◌, ◌≤◌, ◌^◌, [], None, Some, OnOk, IfOk, length, map, slice_get};
ghost use Rattle.std.specs.Map.{lookup};
ghost use Rattle.aig_graph.specs.Graph.{IsGateAt, variable, first_gate};
ghost use Rattle.cleaned_circuits.specs.Merged.{same_fan_ins, known_substitute, substitute_or_own, kept_after, merge_gate, merge_gates, replaced_gate};
ghost use Rattle.clean.specs.Kept.{pairs, next_variable, IsEntered};

use crate::kept::{KeptGates, Links};
use crate::substitution::Substitution;
use aig_graph::{Aig, Gate, Lit, NoMemory};
use std::alloc::Global;

/// Returns the literal that a gate comes down to, beside these kept gates.
pub fn known_substitute(kept: &KeptGates, gate: &Gate) -> Option<Lit>
    ensures { result ≡ known_substitute (pairs kept.now) gate.now }
{
    if gate.rhs1 == Lit::FALSE {
        Some(Lit::FALSE)
    } else if gate.rhs1 == Lit::TRUE {
        Some(gate.rhs0)
    } else if gate.rhs0 == gate.rhs1 {
        Some(gate.rhs0)
    } else if gate.rhs0.var() == gate.rhs1.var() {
        Some(Lit::FALSE)
    } else {
        kept.find(*gate)
    }
}

/// Returns the substitute of a gate, which gets the next entry, and is kept if it comes down to no
/// literal.
fn substitute_for_gate(kept: &mut KeptGates, gate: Gate) -> Result<Lit, NoMemory>
    requires { next_variable kept.old < 2 ^ 28 }
    ensures literal { IfOk result (λ lit. lit ≡ substitute_or_own (2 * next_variable kept.old)
        (known_substitute (pairs kept.old) gate)) }
    ensures kept { OnOk result (pairs kept.new ≡ kept_after (pairs kept.old)
        (2 * next_variable kept.old) gate (known_substitute (pairs kept.old) gate)) }
    ensures entered { OnOk result (IsEntered kept.old kept.new gate) }
{
    match known_substitute(kept, &gate) {
        Some(substitute) => {
            kept.pass_over(gate)?;
            Ok(substitute)
        }
        None => kept.add(gate),
    }
}

/// Adds a gate, which comes down to a literal or is kept. Its entry has the substitutes of its
/// literals.
fn merge_gate(
    kept: &mut KeptGates,
    substitutes: &mut Substitution,
    gate: Gate,
) -> Result<(), NoMemory>
    requires first { variable gate.rhs0 < length substitutes.old }
    requires second { variable gate.rhs1 < length substitutes.old }
    requires few { length substitutes.old < 2 ^ 28 }
    requires next { next_variable kept.old ≡ length substitutes.old }
    ensures merged { OnOk result (record { substitutes = substitutes.new; kept = pairs kept.new } ≡
        merge_gate (record { substitutes = substitutes.old; kept = pairs kept.old }) gate) }
    ensures entered { OnOk result (IsEntered kept.old kept.new
        (replaced_gate substitutes.old gate)) }
{
    let pair = substitutes.gate(gate);
    let substitute = substitute_for_gate(kept, pair)?;
    substitutes.push(substitute)?;
    Ok(())
}

/// Adds the substitutes of all gates, none of which has an entry yet; `substitutes` has those of
/// the variables before them. Each gate's entry takes the substitutes of its literals.
fn merge_all(kept: &mut KeptGates, substitutes: &mut Substitution) -> Result<(), NoMemory>
    requires none { pairs kept.old ≡ [] }
    requires before { kept.old.before ≡ [] }
    requires next { next_variable kept.old ≡ length substitutes.old }
    requires few { next_variable kept.old + length kept.old.gates ≤ 2 ^ 28 }
    requires graph { (k : ℕ) (gate : Gate) → slice_get kept.old.gates k ≡ Some gate
        → IsGateAt (next_variable kept.old + k) gate }
    ensures substitutes { OnOk result (substitutes.new ≡
        (merge_gates kept.old.gates (record {
          substitutes = substitutes.old;
          kept = [];
        })).substitutes) }
    ensures gates { OnOk result (kept.new.gates ≡
        map (replaced_gate substitutes.new) kept.old.gates) }
{
    for place in 0..kept.len() {
        let gate = kept.gate(place);
        merge_gate(kept, substitutes, gate)?;
    }
    Ok(())
}

/// Returns a copy of the gates.
pub(crate) fn copied_gates(alloc: Global, aig: &Aig) -> Result<Vec<Gate>, NoMemory>
    ensures { IfOk result (λ gates. gates.items ≡ aig.now.gates) }
{
    let mut gates = Vec::with_capacity(alloc, aig.gates().len())?;
    gates.extend_from_slice(aig.gates())?;
    Ok(gates)
}

/// Adds the substitutes of all gates to those of the variables before them. The first latch has the
/// variable `first`. Returns each gate with the substitutes of its literals, in the gates' own
/// table. The tables of links are used.
pub(crate) fn merged_gates(
    alloc: Global,
    first: u32,
    gates: Vec<Gate>,
    substitutes: &mut Substitution,
    links: &mut Links,
) -> Result<Vec<Gate>, NoMemory>
    requires first { first ≤ length substitutes.old }
    requires few { length substitutes.old + length gates.items ≤ 2 ^ 28 }
    requires graph { (k : ℕ) (gate : Gate) → slice_get gates.items k ≡ Some gate
        → IsGateAt (length substitutes.old + k) gate }
    ensures substitutes { OnOk result (substitutes.new ≡
        (merge_gates gates.items (record {
          substitutes = substitutes.old;
          kept = [];
        })).substitutes) }
    ensures gates { IfOk result (λ merged. merged.items ≡
        map (replaced_gate substitutes.new) gates.items) }
{
    let own = substitutes.len();
    let mut kept = KeptGates::with_links(alloc, first, own, gates, links.take(alloc))?;
    merge_all(&mut kept, substitutes)?;
    let (gates, used) = kept.into_parts();
    *links = used;
    Ok(gates)
}

/// Adds the substitutes of all gates to those of the variables before them.
pub fn merge_gates(alloc: Global, aig: &Aig, substitutes: &mut Substitution) -> Result<(), NoMemory>
    requires { length substitutes.old ≡ first_gate aig.now }
    ensures { OnOk result (substitutes.new ≡
        (merge_gates aig.now.gates (record {
          substitutes = substitutes.old;
          kept = [];
        })).substitutes) }
{
    let gates = copied_gates(alloc, aig)?;
    let mut links = Links::none(alloc);
    merged_gates(alloc, aig.first_latch(), gates, substitutes, &mut links)?;
    Ok(())
}
