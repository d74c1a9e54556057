//! Tables of levels and arrivals, by variable from a first one on. Variables before it have 0.
ghost use Rattle.std.specs.Prelude.{ℕ, ◌≡◌, ◌≤◌, ◌*◌};
ghost use Rattle.aig_graph.specs.declared.literal.TheConstants.{MAX_VARIABLES};
ghost use Rattle.aig_graph.specs.Graph.{variable};
ghost use Rattle.path_levels.specs.Levels.{entry_at, one_above};

use aig_graph::Gate;

/// Returns the entry of a variable, or 0 if it has none.
#[tactic(auto, unfolding(crate::specs::Levels::entry_at))]
pub(crate) fn entry_at(first: u32, entries: &[u32], var: u32) -> u32
    ensures { result ≡ entry_at first entries.now var }
{
    if first <= var {
        entries.get((var - first) as usize).copied().unwrap_or(0)
    } else {
        0
    }
}

/// Returns the entry of a gate, by those of its fan-ins: the greater plus one.
pub(crate) fn entry_above(first: u32, entries: &[u32], gate: Gate) -> u32
    requires { (v : ℕ) → entry_at first entries.now v ≤ 2 * MAX_VARIABLES }
    ensures { result ≡ one_above gate (entry_at first entries.now (variable gate.rhs0))
        (entry_at first entries.now (variable gate.rhs1)) }
{
    let upper = entry_at(first, entries, gate.rhs0.var());
    let lower = entry_at(first, entries, gate.rhs1.var());
    1 + upper.max(lower)
}
