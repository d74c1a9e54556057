//! Properties in which other literals replace their own.
ghost use Rattle.std.specs.Prelude.{◌≡◌, ◌<◌, ℕ, All, IfOk, map};
ghost use Rattle.aig_graph.specs.Graph.{variable};
ghost use Rattle.aig_graph.specs.Mapped.{OfProps, mapped_props};

use crate::NoMemory;
use crate::literal::Lit;
use crate::properties::Props;
use crate::sequence::Sequence;
use std::alloc::Global;

/// A replacement for each literal of a circuit.
pub trait Substitute {
    /// The number of variables that it replaces.
    ghost known: { Self → ℕ };

    /// The literal that replaces a literal.
    ghost literal_of: { Self → ℕ → ℕ };

    /// Returns the literal that replaces `lit`.
    fn literal(&self, lit: Lit) -> Lit
        requires { variable lit < known self.now }
        ensures { result ≡ literal_of self.now lit };
}

/// Returns the literals that replace `lits`.
fn mapped_literals<S: Substitute>(
    alloc: Global,
    stands: &S,
    lits: &Sequence<Lit>,
) -> Result<Sequence<Lit>, NoMemory>
    requires { All (λ lit. variable lit < S.known stands.now) lits.now }
    ensures { IfOk result (λ mapped. mapped ≡ map (S.literal_of stands.now) lits.now) }
{
    let mut mapped = Vec::with_capacity(alloc, lits.len())?;
    for lit in lits.as_slice() {
        mapped.push(stands.literal(*lit))?;
    }
    Ok(Sequence::from_vec(mapped))
}

/// Returns the literals that replace those of each justice property.
fn mapped_justice<S: Substitute>(
    alloc: Global,
    stands: &S,
    justice: &Sequence<Sequence<Lit>>,
) -> Result<Sequence<Sequence<Lit>>, NoMemory>
    requires { All (λ lits. All (λ lit. variable lit < S.known stands.now) lits) justice.now }
    ensures { IfOk result (λ mapped. mapped ≡ map (map (S.literal_of stands.now)) justice.now) }
{
    let mut properties = Vec::with_capacity(alloc, justice.len())?;
    for lits in justice.as_slice() {
        properties.push(mapped_literals(alloc, stands, lits)?)?;
    }
    Ok(Sequence::from_vec(properties))
}

impl Props {
    /// Returns the properties, with each literal replaced.
    pub fn mapped<S: Substitute>(&self, alloc: Global, stands: &S) -> Result<Props, NoMemory>
        requires { OfProps (λ lit. variable lit < S.known stands.now) self.now }
        ensures { IfOk result (λ props. props ≡ mapped_props (S.literal_of stands.now) self.now) }
    {
        let outputs = mapped_literals(alloc, stands, &self.outputs)?;
        let bad = mapped_literals(alloc, stands, &self.bad)?;
        let constraints = mapped_literals(alloc, stands, &self.constraints)?;
        let justice = mapped_justice(alloc, stands, &self.justice)?;
        let fairness = mapped_literals(alloc, stands, &self.fairness)?;
        Ok(Props {
            outputs,
            bad,
            constraints,
            justice,
            fairness,
        })
    }
}
