//! The counts of each kind in a circuit, filled once. A new count is a field here, and its place in
//! `specs/Counts`.
ghost use Rattle.std.specs.Prelude.{◌≡◌, IfOk, length, []};
ghost use Rattle.frame_net.specs.Passable.{passable_gates};
ghost use Rattle.reports.specs.CircuitCounts.{counts, statistics};

use aig_graph::{Circuit, Keep, NoMemory};
use frame_net::passable;
use path_levels::levels;
use std::alloc::Global;

/// How many there are of each kind in a circuit.
#[derive(Clone, Copy)]
pub struct Counts {
    pub inputs: u64,
    pub latches: u64,
    /// The latches whose reset is free.
    pub free: u64,
    /// The latches whose reset is known.
    pub known: u64,
    pub gates: u64,
    /// How many gates are on the longest way from inputs and latches to latches and properties.
    pub levels: u64,
    pub outputs: u64,
    /// The bad states.
    pub bad: u64,
    /// The invariant constraints.
    pub constraints: u64,
    /// The justice properties, not their literals.
    pub justice: u64,
    /// The fairness constraints.
    pub fairness: u64,
}

impl Counts {
    /// Counts what a circuit has. Linear in it, by a table of its gates.
    ///
    /// # Errors
    ///
    /// Memory is refused.
    pub fn of(alloc: Global, circuit: &Circuit) -> Result<Counts, NoMemory>
        ensures { IfOk result (λ found. found ≡ counts circuit.now) }
    {
        let levels = levels(alloc, circuit)?;
        let aig = circuit.aig();
        let props = circuit.props();
        Ok(Counts {
            inputs: u64::from(aig.inputs()),
            latches: aig.latches().len() as u64,
            free: u64::from(aig.free_latches()),
            known: u64::from(aig.known_latches()),
            gates: aig.gates().len() as u64,
            levels: u64::from(levels),
            outputs: props.outputs.len() as u64,
            bad: props.bad.len() as u64,
            constraints: props.constraints.len() as u64,
            justice: props.justice.len() as u64,
            fairness: props.fairness.len() as u64,
        })
    }
}

/// What `stat` tells of a circuit.
#[derive(Clone, Copy)]
pub struct Statistics {
    pub counts: Counts,
    /// The gates that latches may move over if none is held.
    pub passable: u64,
}

/// Returns the number of passable gates if no latch is held.
fn passable_gates(alloc: Global, circuit: &Circuit) -> Result<u64, NoMemory>
    ensures { IfOk result (λ count. count ≡ length (passable_gates circuit.now.aig [])) }
{
    let pass = passable(alloc, circuit.aig(), &Keep::none())?;
    Ok(u64::from(pass.count()))
}

impl Statistics {
    /// Counts what `stat` tells of a circuit. Linear in it.
    ///
    /// # Errors
    ///
    /// Memory is refused.
    pub fn of(alloc: Global, circuit: &Circuit) -> Result<Statistics, NoMemory>
        ensures { IfOk result (λ found. found ≡ statistics circuit.now) }
    {
        let counts = Counts::of(alloc, circuit)?;
        let passable = passable_gates(alloc, circuit)?;
        Ok(Statistics { counts, passable })
    }
}
