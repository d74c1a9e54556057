//! Literals that stay two, and what propagation says of them: they are equal if neither can be 1
//! without the other.
ghost use Rattle.std.specs.Prelude.{◌≡◌, true, IfOk, OnOk, length};
ghost use Rattle.aig_graph.specs.Gates.{AreEqualIn, gates_of};
ghost use Rattle.gate_sharing.specs.Equal.{StaysRight};
ghost use Rattle.map_checks.specs.Parts.{AreMarkedEqual};

use aig_graph::{Aig, Lit, NoMemory};
use gate_sharing::Equalities;
use std::alloc::Global;
use unit_refutations::{Propagation, equal_by_probing};

/// How many visits of gates propagation takes for two literals, and for all.
struct Effort {
    each: u32,
    all: u32,
}

/// What follows of the literals alone, and what follows once it is learnt what others are.
const PLAIN: Effort = Effort {
    each: 8_000,
    all: 1_000_000,
};

const PROBING: Effort = Effort {
    each: 100_000,
    all: 2_000_000,
};

/// Returns true if propagation shows that two literals are equal, with probing if `probes` is true.
fn is_shown(
    alloc: Global,
    propagation: &mut Propagation,
    aig: &Aig,
    a: Lit,
    b: Lit,
    probes: bool,
) -> Result<bool, NoMemory>
    ensures { IfOk result (λ yes. yes ≡ true → AreEqualIn (gates_of aig.now) a b) }
{
    if probes {
        equal_by_probing(alloc, propagation, aig, a, b)
    } else {
        propagation.equal(aig, a, b)
    }
}

/// Marks the places at which propagation shows that the substitutes of the literals of two lists
/// are equal. Once no visit is left, nothing is probed, since that would say no more. Linear.
pub(crate) fn mark_refuted(
    alloc: Global,
    propagation: &mut Propagation,
    aig: &Aig,
    equal: &mut Equalities,
    lits: &[Lit],
    others: &[Lit],
    probes: bool,
) -> Result<Vec<bool>, NoMemory>
    requires { length lits.now ≡ length others.now }
    ensures right { OnOk result (StaysRight equal.old equal.new) }
    ensures long { IfOk result (λ marks. length marks.items ≡ length lits.now) }
    ensures equal { IfOk result (λ marks. AreMarkedEqual (gates_of aig.now) equal.old lits.now
        others.now marks.items) }
{
    let effort = if probes { &PROBING } else { &PLAIN };
    let mut left = effort.all;
    let mut marks = Vec::with_capacity(alloc, lits.len())?;
    for (place, lit) in lits.iter().enumerate() {
        let a = equal.find(*lit);
        let b = equal.find(others[place]);
        let most = left.min(effort.each);
        propagation.allow(most);
        let yes = is_shown(alloc, propagation, aig, a, b, probes && most > 0)?;
        left = left.saturating_sub(most.saturating_sub(propagation.left()));
        marks.push(yes)?;
    }
    Ok(marks)
}
