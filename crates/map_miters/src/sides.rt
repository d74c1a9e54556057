//! A step of each circuit in the graph of both.
ghost use Rattle.std.specs.Prelude.{◌≡◌, ◌++◌, IfOk, OnOk};
ghost use Rattle.aig_graph.specs.Graph.{IsGraph};
ghost use Rattle.map_circuits.specs.Growing.{Extends};
ghost use Rattle.map_miters.specs.Questions.{IsAskable};
ghost use Rattle.map_miters.specs.Sides.{AreSides, IsBegun, product_nexts, start_nexts};

use crate::begun::{Leaves, leaves_of};
use crate::errors::MiterError;
use crate::steps::{Step, add_step};
use aig_graph::{AigBuilder, Circuit, Lit, NoMemory};
use std::alloc::Global;

/// The leaves of the graph, and a step of each circuit over them.
#[derive(Drop)]
pub(crate) struct Sides {
    pub(crate) leaves: Leaves,
    pub(crate) first: Step,
    pub(crate) second: Step,
}

/// Adds a step of each circuit.
pub(crate) fn add_sides(
    alloc: Global,
    gates: &mut AigBuilder,
    tied: bool,
    first: &Circuit,
    second: &Circuit,
    map: &Circuit,
) -> Result<Sides, MiterError>
    requires graph { IsGraph gates.old }
    requires begun { IsBegun first.now.aig second.now.aig tied gates.old }
    requires askable { IsAskable first.now second.now map.now }
    ensures extends { OnOk result (Extends gates.old gates.new) }
    ensures sides { IfOk result (AreSides gates.new first.now second.now) }
{
    let _tied = tied;
    let _map = map;
    let leaves = leaves_of(alloc, first.aig(), second.aig())?;
    let inputs = leaves.inputs.as_slice();
    let of_first = add_step(alloc, gates, first, inputs, leaves.first.as_slice())?;
    let of_second = add_step(alloc, gates, second, inputs, leaves.second.as_slice())?;
    Ok(Sides {
        leaves,
        first: of_first,
        second: of_second,
    })
}

/// Appends the next literal of the latch that tells the first step, if it is asked for.
fn push_start(nexts: &mut Vec<Lit>, tied: bool) -> Result<(), NoMemory>
    ensures { OnOk result (nexts.new.items ≡ nexts.old.items ++ start_nexts tied) }
{
    if tied {
        nexts.push(Lit::TRUE)?;
    }
    Ok(())
}

/// Returns the next literals of all latches.
pub(crate) fn nexts_of(alloc: Global, sides: &Sides, tied: bool) -> Result<Vec<Lit>, NoMemory>
    ensures { IfOk result (λ nexts. nexts.items ≡ product_nexts sides.now tied) }
{
    let mut nexts = Vec::new(alloc);
    nexts.extend_from_slice(sides.first.nexts.as_slice())?;
    nexts.extend_from_slice(sides.second.nexts.as_slice())?;
    push_start(&mut nexts, tied)?;
    Ok(nexts)
}
