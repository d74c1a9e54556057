//! Active nodes of a flow: if there is one, and their number.
ghost use Rattle.std.specs.Prelude.{◌≡◌, ◌<◌, false};
ghost use Rattle.frame_net.specs.Flow.{is_active};
ghost use Rattle.frame_net.specs.FlowNet.{node_count};
ghost use Rattle.pulse_parts.specs.Runs.{any_active};
ghost use Rattle.pulse.specs.Conditions.{IsFlowOf, active_count, state_of};

use crate::flow::Flow;
use frame_net::Net;
use pulse_parts::any_active_node;

/// Returns true if some node is active. After a delivery phase only the nodes that it listed are
/// visited.
pub(crate) fn is_active(net: &Net, flow: &Flow) -> bool
    requires flow { IsFlowOf net.now flow.now }
    requires unspent { flow.now.spent ≡ false }
    ensures { result ≡ any_active (node_count net.now) (state_of net.now flow.now) }
{
    net.known();
    any_active_node(
        net,
        flow.labels.as_slice(),
        flow.parts.as_slice(),
        flow.listed,
    )
}

/// Returns true if node `v` is active.
fn is_node_active(net: &Net, flow: &Flow, v: u32) -> bool
    requires flow { IsFlowOf net.now flow.now }
    requires unspent { flow.now.spent ≡ false }
    requires node { v < node_count net.now }
    ensures { result ≡ is_active (node_count net.now) (state_of net.now flow.now) v }
{
    let nodes = net.nodes();
    pulse_parts::is_active(v, flow.excess(v), flow.label(v), nodes)
}

/// Returns the number of active nodes. All nodes are visited.
pub(crate) fn active_nodes(net: &Net, flow: &Flow) -> usize
    requires flow { IsFlowOf net.now flow.now }
    requires unspent { flow.now.spent ≡ false }
    ensures { result ≡ active_count net.now flow.now }
{
    net.known();
    let nodes = net.nodes();
    let mut count: usize = 0;
    for v in 0..nodes {
        if is_node_active(net, flow, v) {
            count += 1;
        }
    }
    count
}
