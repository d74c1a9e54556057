//! Pulses from the start until no node is active.
ghost use Rattle.std.specs.Prelude.{◌≡◌, IfOk, false, length};
ghost use Rattle.frame_net.specs.FlowNet.{node_count};
ghost use Rattle.pulse_parts.specs.ExactRuns.{IsRun};
ghost use Rattle.pulse.specs.Conditions.{ArePushesOf, IsBetween, IsMaxPreflow, IsRunEnd, state_of};

use crate::active::is_active;
use crate::crew::Crew;
use crate::error::PulseError;
use crate::flow::Flow;
use crate::gate::PhaseGate;
use crate::max_preflow::MaxPreflow;
use crate::phases::{deliver_phase, read_phase};
use crate::pushes::Pushes;
use crate::relabel::{queue_for, relabel_when_due};
use frame_net::Net;
use std::alloc::Global;
use std::thread::Threads;

/// Runs pulses from the start of the flow until no node is active. For N nodes, labels change after
/// every N-th pulse that leaves a node active. Each becomes the residual distance to the sink, or N
/// if there is none. The result depends on no number of workers.
///
/// It takes at most `2 * N * N` pulses. Memory is asked for at the start, and for each phase of a
/// crew of two or more.
pub fn run_to_end<G: PhaseGate>(
    rt: &(impl Threads + Sync),
    alloc: Global,
    net: &Net,
    crew: &Crew<G>,
) -> Result<MaxPreflow, PulseError>
    ensures greatest { IfOk result (λ m. IsMaxPreflow net.now m) }
    ensures run { IfOk result (λ m. IsRunEnd net.now m) }
{
    let mut flow = Flow::start_for(alloc, net, crew.workers())?;
    let mut pushes = Pushes::new_for(alloc, net, crew.workers())?;
    let mut room = queue_for(alloc, net)?;
    let queue = room.as_mut_slice();
    let pulses = run(rt, alloc, net, &mut flow, &mut pushes, queue, crew)?;
    Ok(MaxPreflow { flow, pulses })
}

/// Runs pulses until no node is active. Returns their number.
fn run<R: Threads + Sync, G: PhaseGate>(
    rt: &R,
    alloc: Global,
    net: &Net,
    flow: &mut Flow,
    pushes: &mut Pushes,
    queue: &mut [u32],
    crew: &Crew<G>,
) -> Result<u64, PulseError>
    requires flow { IsBetween net.now flow.old }
    requires pushes { ArePushesOf net.now pushes.old }
    requires usable { pushes.old.spent ≡ false }
    requires queue { length queue.old ≡ node_count net.now }
    ensures flow { IfOk result (λ k. IsBetween net.now flow.new) }
    ensures run { IfOk result (λ k. IsRun net.now k (state_of net.now flow.old)
        (state_of net.now flow.new)) }
{
    net.known();
    let mut count = 0;
    'pulses: while is_active(net, flow) {
        read_phase(rt, alloc, net, flow, pushes, crew)?;
        deliver_phase(rt, alloc, net, flow, pushes, crew)?;
        count += 1;
        relabel_when_due(net, flow, queue, count);
    }
    Ok(count)
}
