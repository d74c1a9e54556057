//! Pulses from the start until no node is active, with the global relabeling of Cherkassky and
//! Goldberg (1997). Labels become exact as soon as that is worth its walk. A walk goes over all
//! arcs. One is made at the start, and one each time the rows walked since the last one hold more
//! than a quarter of the arcs.
ghost use Rattle.std.specs.Prelude.{◌≡◌, ◌*◌, ◌<◌, ◌≤◌, ◌⊎◌, IfOk, OnOk, false, length};
ghost use Rattle.frame_net.specs.FlowNet.{node_count};
ghost use Rattle.pulse_parts.specs.Parts.{Agree};
ghost use Rattle.pulse_parts.specs.Distances.{exact};
ghost use Rattle.pulse.specs.Conditions.{ArePushesOf, IsBetween, IsMaxPreflow, NoneActive, active_count, state_of};
ghost use Rattle.pulse.specs.Phases.{AfterPulse};
ghost use Rattle.pulse.specs.Sharing.{first_share};

use crate::active::{active_nodes, is_active};
use crate::crew::Crew;
use crate::error::PulseError;
use crate::flow::Flow;
use crate::gate::PhaseGate;
use crate::max_preflow::MaxPreflow;
use crate::phases::{deliver_by, read_by};
use crate::pushes::Pushes;
use crate::relabel::{queue_for, relabel};
use crate::sharing::Share;
use crate::workers::part_flow;
use frame_net::Net;
use std::alloc::Global;
use std::thread::Threads;

/// Runs pulses from the start of the flow until no node is active, with global relabeling. Each
/// label becomes the residual distance to the sink, or the number of nodes if there is none. This
/// is done at the start, and each time the rows walked since then hold more than a quarter of the
/// network's arcs. The run ends with a maximum preflow for every crew, after at most `2 * N * N`
/// pulses for N nodes.
///
/// Each pulse is as in `run_to_end`, but labels are exact at other times. So flow, labels and the
/// number of pulses may differ from that run's. A pulse goes to the crew if many nodes are active
/// for the network's size: at least 4096, or a quarter of all. They are counted at the start of the
/// first pulse, and for each later one in the pulse before. The calling thread makes all others, as
/// worker 0. Most pulses have ten active nodes, and to hand them out would cost more than they do.
///
/// Memory is asked for at the start, each time the number of the flow's parts changes, and for each
/// phase that is handed out.
pub fn run_with_global_relabeling<G: PhaseGate>(
    rt: &(impl Threads + Sync),
    alloc: Global,
    net: &Net,
    crew: &Crew<G>,
) -> Result<MaxPreflow, PulseError>
    ensures greatest { IfOk result (λ m. IsMaxPreflow net.now m) }
    ensures bounded { IfOk result (λ m. m.pulses ≤ 2 * (node_count net.now * node_count net.now)) }
{
    net.known();
    // At the start the only active nodes are heads of the source's arcs from which the sink is
    // reached.
    let first = Share::among(1).next(net, net.start(1), false, crew.workers());
    let mut flow = Flow::start_for(alloc, net, first.parts)?;
    let mut pushes = Pushes::new_for(alloc, net, first.parts)?;
    let pulses = run(rt, alloc, net, &mut flow, &mut pushes, crew, first)?;
    Ok(MaxPreflow { flow, pulses })
}

/// Parts the flow for the next pulse, so that both its phases find the lists of the last one in
/// their parts.
fn part_ahead(alloc: Global, net: &Net, flow: &mut Flow, parts: u32) -> Result<(), PulseError>
    requires some { 0 < parts }
    requires flow { IsBetween net.now flow.old }
    ensures flow { OnOk result (IsBetween net.now flow.new) }
    ensures agree { OnOk result (Agree (node_count net.now) (state_of net.now flow.old)
        (state_of net.now flow.new)) }
{
    net.known();
    let labels = flow.labels.as_slice();
    part_flow(alloc, net, labels, &mut flow.parts, parts)?;
    Ok(())
}

/// Makes a pulse that is shared out as `share` says.
fn pulse_by<R: Threads + Sync, G: PhaseGate>(
    rt: &R,
    alloc: Global,
    net: &Net,
    flow: &mut Flow,
    pushes: &mut Pushes,
    share: Share,
    gate: &G,
) -> Result<(), PulseError>
    requires some { 0 < share.parts }
    requires flow { IsBetween net.now flow.old }
    requires pushes { ArePushesOf net.now pushes.old }
    requires usable { pushes.old.spent ≡ false }
    ensures flow { OnOk result (AfterPulse net.now flow.old flow.new) }
    ensures pushes { OnOk result (ArePushesOf net.now pushes.new) }
    ensures unspent { OnOk result (pushes.new.spent ≡ false) }
{
    read_by(rt, alloc, net, flow, pushes, share, gate)?;
    deliver_by(rt, alloc, net, flow, pushes, share, gate)
}

/// Returns true if `walked`, the number of arcs in the rows walked since the labels were exact, is
/// more than a quarter of the arcs.
fn is_due(net: &Net, walked: usize) -> bool {
    walked > net.arcs() / 4
}

/// Makes the labels exact if they are due, and then counts the arcs that are walked from 0 again.
fn relabel_after_walks(net: &Net, flow: &mut Flow, queue: &mut [u32], walked: &mut usize)
    requires flow { IsBetween net.now flow.old }
    requires queue { length queue.old ≡ node_count net.now }
    ensures flow { IsBetween net.now flow.new }
    ensures labels { (flow.new ≡ flow.old)
        ⊎ Agree (node_count net.now) (exact (node_count net.now) (state_of net.now flow.old))
        (state_of net.now flow.new) }
{
    if is_due(net, *walked) {
        relabel(net, flow, queue);
        *walked = 0;
    }
}

/// Returns the share of the first pulse, once the labels are exact.
fn first_share(net: &Net, flow: &Flow, begun: Share, crew: u32) -> Share
    requires flow { IsBetween net.now flow.now }
    requires begun { 0 < begun.parts }
    requires some { 0 < crew }
    ensures share { result ≡ first_share (node_count net.now) (active_count net.now flow.now)
        crew begun }
    ensures some { 0 < result.parts }
{
    if crew == 1 {
        return Share::among(1);
    }
    begun.next(net, active_nodes(net, flow), false, crew)
}

/// Runs pulses until no node is active, from a flow in the parts of `begun`. Returns their number.
fn run<R: Threads + Sync, G: PhaseGate>(
    rt: &R,
    alloc: Global,
    net: &Net,
    flow: &mut Flow,
    pushes: &mut Pushes,
    crew: &Crew<G>,
    begun: Share,
) -> Result<u64, PulseError>
    requires some { 0 < begun.parts }
    requires flow { IsBetween net.now flow.old }
    requires pushes { ArePushesOf net.now pushes.old }
    requires usable { pushes.old.spent ≡ false }
    ensures flow { IfOk result (λ k. IsBetween net.now flow.new) }
    ensures ended { IfOk result (λ k. NoneActive net.now flow.new) }
    ensures bounded { IfOk result (λ k. k ≤ 2 * (node_count net.now * node_count net.now)) }
{
    net.known();
    let mut room = queue_for(alloc, net)?;
    let queue = room.as_mut_slice();
    relabel(net, flow, queue);
    let mut share = first_share(net, flow, begun, crew.workers());
    let mut count = 0;
    let mut walked: usize = 0;
    'pulses: while is_active(net, flow) {
        pulse_by(rt, alloc, net, flow, pushes, share, crew.gate())?;
        count += 1;
        walked = walked.saturating_add(pushes.arcs_walked(net));
        let active = pushes.walked() as usize;
        share = share.next(net, active, is_due(net, walked), crew.workers());
        part_ahead(alloc, net, flow, share.parts)?;
        relabel_after_walks(net, flow, queue, &mut walked);
    }
    Ok(count)
}
