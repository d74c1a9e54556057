ghost use Rattle.std.specs.Prelude.{◌≡◌, ◌<◌, ◌≤◌, ◌-◌, length};
ghost use Rattle.aig_graph.specs.Graph.{variable};
ghost use Rattle.map_circuits.specs.Following.{literal_at};

use aig_graph::Lit;

/// Returns the literal that stands for one of a variable with an entry.
pub(crate) fn standing(literals: &[Lit], first: u32, lit: Lit) -> Lit
    requires from { first ≤ variable lit }
    requires below { variable lit - first < length literals.now }
    ensures { result ≡ literal_at first literals.now lit }
{
    literals[(lit.var() - first) as usize].signed_as(lit)
}
