//! What follows of a gate's fan-ins and of the gate itself.
ghost use Rattle.std.specs.Prelude.{ℕ, ◌≡◌, ◌&&◌, Bool, true, false, IfOk};
ghost use Rattle.aig_graph.specs.Gates.{IsNegated};
ghost use Rattle.unit_refutations.specs.Assigned.{Holds};

use crate::assigned::Assigned;
use aig_graph::{Gate, Lit, NoMemory};

/// Takes both fan-ins of a gate that is 1 for 1. Whether one is known to be 0.
fn visit_one(assigned: &mut Assigned, gate: &Gate) -> Result<bool, NoMemory>
    ensures { IfOk result (λ clash. (values : ℕ → Bool) → IsNegated values
        → values gate.now.rhs0 ≡ true → values gate.now.rhs1 ≡ true
        → Holds assigned.old values → (clash ≡ false) × Holds assigned.new values) }
{
    if assigned.assume(gate.rhs0)? {
        return Ok(true);
    }
    assigned.assume(gate.rhs1)
}

/// Takes what follows of a gate, whose own literal this is. Whether that contradicts what is known.
pub(crate) fn visit(assigned: &mut Assigned, gate: &Gate, own: Lit) -> Result<bool, NoMemory>
    ensures { IfOk result (λ clash. (values : ℕ → Bool) → IsNegated values
        → values own ≡ (values gate.now.rhs0 && values gate.now.rhs1)
        → Holds assigned.old values → (clash ≡ false) × Holds assigned.new values) }
{
    if assigned.is_one(own) {
        return visit_one(assigned, gate);
    }
    if assigned.is_one(gate.rhs0.not()) || assigned.is_one(gate.rhs1.not()) {
        return assigned.assume(own.not());
    }
    if assigned.is_one(gate.rhs0) {
        if assigned.is_one(gate.rhs1) {
            return assigned.assume(own);
        }
        if assigned.is_one(own.not()) {
            return assigned.assume(gate.rhs1.not());
        }
        return Ok(false);
    }
    if assigned.is_one(gate.rhs1) && assigned.is_one(own.not()) {
        return assigned.assume(gate.rhs0.not());
    }
    Ok(false)
}
