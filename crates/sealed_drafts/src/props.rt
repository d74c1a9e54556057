//! The properties of a draft: those of the first circuit, which read what stands for its variables.
ghost use Rattle.std.specs.Prelude.{◌≤◌, IfOk};
ghost use Rattle.aig_graph.specs.declared.literal.TheConstants.{MAX_VARIABLES};
ghost use Rattle.aig_graph.specs.Graph.{first_latch, variables_end};
ghost use Rattle.sealed_drafts.specs.Sealed.{AreStanding, ReadStanding};

use crate::seals::{SealError, literal_below};
use aig_graph::{Aig, Circuit, Props};
use backward_sets::Literal;
use clean::Substitution;
use std::alloc::Global;

/// Returns the substitute of each variable of a graph: the constant and the inputs have themselves,
/// latches and gates these literals.
fn standing(
    alloc: Global,
    aig: &Aig,
    stands: &[Literal],
    end: usize,
) -> Result<Substitution, SealError>
    requires room { end ≤ MAX_VARIABLES }
    requires inputs { first_latch aig.now ≤ end }
    ensures { IfOk result (AreStanding (variables_end aig.now) end) }
{
    aig.known();
    let many = aig.latches_and_gates();
    if stands.len() != many {
        return Err(SealError::OutOfRange);
    }
    let mut all = Substitution::new(alloc, aig.first_latch(), many)?;
    for literal in stands {
        all.push(literal_below(*literal, end)?)?;
    }
    Ok(all)
}

/// Returns the properties of a circuit, with the substitutes of its variables.
///
/// # Errors
///
/// `NoMemory` if memory is refused, `OutOfRange` if a variable isn't before the end.
pub(crate) fn sealed_props(
    alloc: Global,
    circuit: &Circuit,
    stands: &[Literal],
    end: usize,
) -> Result<Props, SealError>
    requires room { end ≤ MAX_VARIABLES }
    requires inputs { first_latch circuit.now.aig ≤ end }
    ensures { IfOk result (ReadStanding (variables_end circuit.now.aig) end circuit.now.props) }
{
    circuit.known();
    let all = standing(alloc, circuit.aig(), stands, end)?;
    let props = circuit.props().mapped(alloc, &all)?;
    Ok(props)
}
