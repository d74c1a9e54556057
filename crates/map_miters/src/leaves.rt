//! The inputs of a miter: those of the first circuit, and after them one for the value of each of
//! its latches.
ghost use Rattle.std.specs.Prelude.{◌≡◌, ◌+◌, ◌*◌, ◌<◌, [], IfOk, length};
ghost use Rattle.aig_graph.specs.declared.literal.TheConstants.{MAX_VARIABLES};
ghost use Rattle.aig_graph.specs.Building.{without_gates};
ghost use Rattle.aig_graph.specs.Graph.{IsGraph};
ghost use Rattle.aig_graph.specs.Tables.{table};

use crate::errors::MiterError;
use aig_graph::{Aig, AigBuilder, Lit, NoMemory};
use std::alloc::Global;
use witness_circuits::numbered;

/// The literals of the inputs, and of those that stand for latches.
#[derive(Drop)]
pub(crate) struct Leaves {
    pub(crate) inputs: Vec<Lit>,
    pub(crate) latches: Vec<Lit>,
}

/// Returns a graph of inputs alone: those of the first circuit, and one for each of its latches.
pub(crate) fn begun(alloc: Global, first: &Aig) -> Result<AigBuilder, MiterError>
    ensures is { IfOk result (λ gates. gates
        ≡ without_gates (first.now.inputs + length first.now.latches) []) }
    ensures graph { IfOk result (λ gates. IsGraph gates) }
{
    first.known();
    let inputs = first.inputs() + first.latches().len() as u32;
    let gates = AigBuilder::new(alloc, inputs, Vec::new(alloc))?;
    Ok(gates)
}

/// Returns the literals of these inputs.
pub(crate) fn leaves_of(alloc: Global, first: &Aig) -> Result<Leaves, NoMemory>
    ensures inputs { IfOk result (λ leaves. leaves.inputs.items
        ≡ table 0 first.now.inputs (λ i. 2 * (1 + i))) }
    ensures latches { IfOk result (λ leaves. leaves.latches.items
        ≡ table 0 (length first.now.latches) (λ j. 2 * (1 + first.now.inputs + j))) }
{
    first.known();
    let inputs = numbered(alloc, 1, first.inputs() as usize)?;
    let latches = numbered(alloc, first.first_latch(), first.latches().len())?;
    Ok(Leaves { inputs, latches })
}
