//! Low copies of a moved circuit, which are to be normalised. They are those that read a variable
//! below all copies. Only such a copy can be equal to another gate, or come down to less. So these
//! alone are put in a table, in which the gates outside are looked up. A gate is looked up only if
//! a mark says that its smaller variable is one of a pair's.
ghost use Rattle.std.specs.Prelude.{◌≡◌, ◌-◌, ◌≤◌, ◌↔◌, true, false, [], IfOk, IsTrue, is_some, length};
ghost use Rattle.std.specs.Map.{lookup};
ghost use Rattle.aig_graph.specs.Graph.{first_gate};
ghost use Rattle.cleaned_circuits.specs.Merged.{same_fan_ins};
ghost use Rattle.clean.specs.Normalised.{AreLowNormalised};
ghost use Rattle.clean.specs.Gathered.{is_plain, AreGathered, AreMarked, AreNew, IsShared, IsSpoilt};

use crate::pairs::Pairs;
use aig_graph::{Aig, Gate, NoMemory, mark_at, mark_variable};
use std::alloc::Global;

/// Returns true if a gate reads two variables, and neither is the constant.
fn is_plain(gate: &Gate) -> bool
    ensures { result ≡ is_plain gate.now }
{
    gate.rhs1.code() >= 2 && gate.rhs1.var() < gate.rhs0.var()
}

/// Gathers the pairs of the copies that read a variable below `start`, and marks the smaller
/// variable of each pair. Returns false if one isn't plain or isn't the only one of its pair.
fn gather(
    pairs: &mut Pairs,
    marks: &mut [bool],
    copies: &[Gate],
    start: u32,
) -> Result<bool, NoMemory>
    requires none { pairs.old ≡ [] }
    requires covered { length marks.old ≡ start }
    ensures yes { IfOk result (λ yes. yes ≡ true → AreGathered copies.now start
        (length copies.now) pairs.new) }
    ensures no { IfOk result (λ yes. yes ≡ false → IsSpoilt copies.now start) }
    ensures marked { IfOk result (λ yes. AreMarked pairs.new marks.new) }
{
    for gate in copies {
        if gate.rhs1.var() < start {
            if !is_plain(gate) || is_among(pairs, marks, gate) {
                return Ok(false);
            }
            mark_variable(marks, 0, gate.rhs1.var());
            pairs.add(*gate)?;
        }
    }
    Ok(true)
}

/// Returns true if the gate has one of the pairs. The table is asked only if the mark is set.
fn is_among(pairs: &Pairs, marks: &[bool], gate: &Gate) -> bool
    requires { AreMarked pairs.now marks.now }
    ensures { result ≡ is_some (lookup (same_fan_ins gate.now) pairs.now) }
{
    if mark_at(marks, 0, gate.rhs1.var()) {
        pairs.find(*gate).is_some()
    } else {
        false
    }
}

/// Returns true if none of the gates has one of the pairs.
fn are_new(pairs: &Pairs, marks: &[bool], gates: &[Gate]) -> bool
    requires { AreMarked pairs.now marks.now }
    ensures yes { result ≡ true → AreNew gates.now pairs.now (length gates.now) }
    ensures no { result ≡ false → IsShared gates.now pairs.now }
{
    for gate in gates {
        if is_among(pairs, marks, gate) {
            return false;
        }
    }
    true
}

/// Returns true if each low copy is plain and has a pair of its own. The last `copies` gates are
/// copies.
pub fn are_low_normalised(alloc: Global, aig: &Aig, copies: usize) -> Result<bool, NoMemory>
    requires { copies ≤ length aig.now.gates }
    ensures { IfOk result (λ yes. IsTrue yes ↔ AreLowNormalised aig.now (length aig.now.gates - copies)) }
{
    let gates = aig.gates();
    let first = gates.len() - copies;
    let start = aig.first_gate() + first as u32;
    let mut pairs = Pairs::new(alloc);
    let mut marks = vec![in alloc; false; start as usize]?;
    if gather(&mut pairs, &mut marks, &gates[first..], start)? {
        Ok(are_new(&pairs, &marks, &gates[..first]))
    } else {
        Ok(false)
    }
}
