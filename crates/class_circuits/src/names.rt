//! Names. All but those of latches are those of the circuit before.
ghost use Rattle.std.specs.Prelude.{◌≡◌, IsTrue};
ghost use Rattle.backward_circuits.specs.Drawn.{HasOtherLatches};

use aig_graph::{Circuit, Symbol};

/// Returns true if both names are one, at one position.
fn is_same_name(first: &Symbol, second: &Symbol) -> bool
    ensures { IsTrue result → second.now ≡ first.now }
{
    first.position == second.position && first.name.as_slice() == second.name.as_slice()
}

/// Returns true if both lists have the same names.
fn are_same_names(first: &[Symbol], second: &[Symbol]) -> bool
    ensures { IsTrue result → second.now ≡ first.now }
{
    if first.len() != second.len() {
        return false;
    }
    for place in 0..first.len() {
        if !is_same_name(&first[place], &second[place]) {
            return false;
        }
    }
    true
}

/// Returns true if a circuit has the names of the one before, but for those of latches.
pub fn has_other_latches(circuit: &Circuit, after: &Circuit) -> bool
    ensures { IsTrue result → HasOtherLatches circuit.now after.now }
{
    let (old, new) = (circuit.symbols(), after.symbols());
    are_same_names(old.inputs.as_slice(), new.inputs.as_slice())
        && are_same_names(old.outputs.as_slice(), new.outputs.as_slice())
        && are_same_names(old.bad.as_slice(), new.bad.as_slice())
        && are_same_names(old.constraints.as_slice(), new.constraints.as_slice())
        && are_same_names(old.justice.as_slice(), new.justice.as_slice())
        && are_same_names(old.fairness.as_slice(), new.fairness.as_slice())
}
