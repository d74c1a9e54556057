//! Exact labels between two pulses: global relabeling.
ghost use Rattle.std.specs.Prelude.{◌≡◌, IfOk, length};
ghost use Rattle.frame_net.specs.FlowNet.{node_count};
ghost use Rattle.pulse_parts.specs.Parts.{Agree};
ghost use Rattle.pulse_parts.specs.Distances.{exact};
ghost use Rattle.pulse_parts.specs.ExactRuns.{after_pulse};
ghost use Rattle.pulse.specs.Conditions.{IsBetween, state_of};

use crate::active::is_active;
use crate::flow::Flow;
use frame_net::Net;
use pulse_parts::{exact_labels, hold_labels};
use std::alloc::{AllocError, Global};

/// Returns room for all nodes, for the walks that find exact labels.
pub(crate) fn queue_for(alloc: Global, net: &Net) -> Result<Vec<u32>, AllocError>
    ensures { IfOk result (λ queue. length queue.items ≡ node_count net.now) }
{
    vec![in alloc; 0u32; net.nodes() as usize]
}

/// Makes each label the residual distance to the sink, or the number of nodes if there is none. No
/// label falls, so no node becomes active, and the parts' lists still hold.
pub(crate) fn relabel(net: &Net, flow: &mut Flow, queue: &mut [u32])
    requires flow { IsBetween net.now flow.old }
    requires queue { length queue.old ≡ node_count net.now }
    ensures flow { IsBetween net.now flow.new }
    ensures exact { Agree (node_count net.now)
        (exact (node_count net.now) (state_of net.now flow.old)) (state_of net.now flow.new) }
{
    net.known();
    exact_labels(
        net,
        flow.parts.as_slice(),
        flow.labels.as_mut_slice(),
        queue,
    );
    let labels = flow.labels.as_slice();
    let parts = flow.parts.as_mut_slice();
    hold_labels(labels, parts);
}

/// Makes the labels exact after pulse number `count` of a run, if they are due. For N nodes they
/// are after every N-th pulse that leaves a node active.
pub(crate) fn relabel_when_due(net: &Net, flow: &mut Flow, queue: &mut [u32], count: u64)
    requires flow { IsBetween net.now flow.old }
    requires queue { length queue.old ≡ node_count net.now }
    ensures flow { IsBetween net.now flow.new }
    ensures after { Agree (node_count net.now)
        (after_pulse (node_count net.now) count (state_of net.now flow.old))
        (state_of net.now flow.new) }
{
    net.known();
    let nodes = u64::from(net.nodes());
    if count % nodes == 0 && is_active(net, flow) {
        relabel(net, flow, queue);
    }
}
