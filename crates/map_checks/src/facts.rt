//! What a constraint of a map says: that two literals are equal, as three gates say it, or else
//! that its literal is 1.
ghost use Rattle.std.specs.Prelude.{IfSome};
ghost use Rattle.aig_graph.specs.Graph.{IsLiteralOf};
ghost use Rattle.map_checks.specs.Facts.{IsFact};

use aig_graph::{Aig, Lit};

/// Returns the two literals whose equality a literal says: that neither is 1 without the other.
fn compared(aig: &Aig, lit: Lit) -> Option<(Lit, Lit)>
    ensures { IfSome result (IsFact aig.now lit) }
{
    aig.known();
    if lit.is_negated() {
        return None;
    }
    let both = aig.gate(lit.var())?;
    if !both.rhs0.is_negated() || !both.rhs1.is_negated() {
        return None;
    }
    let above = aig.gate(both.rhs0.var())?;
    let below = aig.gate(both.rhs1.var())?;
    if above.rhs0 == below.rhs0.not() && above.rhs1 == below.rhs1.not() {
        Some((above.rhs0, above.rhs1.not()))
    } else {
        None
    }
}

/// Returns two literals that are equal if this one is 1.
pub(crate) fn fact(aig: &Aig, lit: Lit) -> (Lit, Lit)
    requires { IsLiteralOf aig.now lit }
    ensures { IsFact aig.now lit result }
{
    match compared(aig, lit) {
        Some(sides) => sides,
        None => (lit, Lit::TRUE),
    }
}
