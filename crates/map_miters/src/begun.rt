//! The graph of both circuits without gates: the inputs of the first, its latches, and those of the
//! second. A last latch tells the first step, if it is asked for.
ghost use Rattle.std.specs.Prelude.{◌≡◌, ◌+◌, ◌*◌, ◌≤◌, ◌++◌, IfOk, OnOk, length};
ghost use Rattle.aig_graph.specs.declared.literal.TheConstants.{MAX_VARIABLES};
ghost use Rattle.aig_graph.specs.Building.{without_gates};
ghost use Rattle.aig_graph.specs.Graph.{IsGraph, first_latch};
ghost use Rattle.aig_graph.specs.Tables.{table};
ghost use Rattle.map_miters.specs.Products.{product_resets, start_resets};
ghost use Rattle.map_miters.specs.Sides.{AreListed};

use crate::errors::MiterError;
use aig_graph::{Aig, AigBuilder, Lit, NoMemory, Reset};
use std::alloc::Global;
use witness_circuits::{numbered, push_resets};

/// The literals of the inputs, and of the latches of either circuit.
#[derive(Drop)]
pub(crate) struct Leaves {
    pub(crate) inputs: Vec<Lit>,
    pub(crate) first: Vec<Lit>,
    pub(crate) second: Vec<Lit>,
}

/// Appends the reset of the latch that tells the first step, if it is asked for.
fn push_start(resets: &mut Vec<Reset>, tied: bool) -> Result<(), NoMemory>
    ensures { OnOk result (resets.new.items ≡ resets.old.items ++ start_resets tied) }
{
    if tied {
        resets.push(Reset::Zero)?;
    }
    Ok(())
}

/// Returns all resets.
fn resets_of(alloc: Global, first: &Aig, second: &Aig, tied: bool) -> Result<Vec<Reset>, NoMemory>
    ensures { IfOk result (λ resets. resets.items ≡ product_resets first.now second.now tied) }
{
    let mut resets = Vec::new(alloc);
    push_resets(&mut resets, first.latches())?;
    push_resets(&mut resets, second.latches())?;
    push_start(&mut resets, tied)?;
    Ok(resets)
}

/// Returns the graph without gates.
pub(crate) fn begun(
    alloc: Global,
    first: &Aig,
    second: &Aig,
    tied: bool,
) -> Result<AigBuilder, MiterError>
    ensures is { IfOk result (λ gates. gates
        ≡ without_gates first.now.inputs (product_resets first.now second.now tied)) }
    ensures graph { IfOk result (λ gates. IsGraph gates) }
{
    let resets = resets_of(alloc, first, second, tied)?;
    let gates = AigBuilder::new(alloc, first.inputs(), resets)?;
    Ok(gates)
}

/// Returns the literals of the inputs, and of the latches of either circuit.
pub(crate) fn leaves_of(alloc: Global, first: &Aig, second: &Aig) -> Result<Leaves, NoMemory>
    requires { first_latch first.now + length first.now.latches + length second.now.latches
        ≤ MAX_VARIABLES }
    ensures { IfOk result (AreListed first.now second.now) }
{
    let own = first.latches().len();
    let first_latch = first.first_latch();
    let inputs = numbered(alloc, 1, first.inputs() as usize)?;
    let of_first = numbered(alloc, first_latch, own)?;
    let of_second = numbered(alloc, first_latch + own as u32, second.latches().len())?;
    Ok(Leaves {
        inputs,
        first: of_first,
        second: of_second,
    })
}
