//! The network of a circuit and its maximum preflow.
ghost use Rattle.std.specs.Prelude.{IfOk};
ghost use Rattle.frame_net.specs.Cuts.{IsNetworkOf};
ghost use Rattle.pulse.specs.Conditions.{IsMaxPreflow};

use aig_graph::{Circuit, Keep, NoMemory};
use frame_net::{Net, passable};
use pulse::{Crew, MaxPreflow, PhaseGate, PulseError, run_with_global_relabeling};
use std::alloc::Global;
use std::thread::Threads;

/// Makes the network of a circuit and its held latches.
///
/// # Errors
///
/// `NoMemory` if memory is refused.
pub fn network(alloc: Global, circuit: &Circuit, keep: &Keep) -> Result<Net, NoMemory>
    ensures { IfOk result (IsNetworkOf circuit.now keep.now) }
{
    let pass = passable(alloc, circuit.aig(), keep)?;
    let net = Net::build(alloc, circuit.aig(), circuit.props(), &pass, keep)?;
    // Tells the prover that a network has a point for each side of a gate.
    net.known();
    net.known_points();
    Ok(net)
}

/// Finds a maximum preflow of a network, by pulses with global relabeling.
///
/// # Errors
///
/// `NoMemory` if memory is refused.
pub fn maximum_preflow<G: PhaseGate>(
    rt: &(impl Threads + Sync),
    alloc: Global,
    net: &Net,
    crew: &Crew<G>,
) -> Result<MaxPreflow, NoMemory>
    ensures { IfOk result (IsMaxPreflow net.now) }
{
    match run_with_global_relabeling(rt, alloc, net, crew) {
        Ok(preflow) => Ok(preflow),
        Err(PulseError::NoMemory) => Err(NoMemory),
    }
}
