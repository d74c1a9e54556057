//! The events of a range of nodes, on the calling thread. They take no memory.
ghost use Rattle.std.specs.Prelude.{◌≡◌, ℕ, ◌<◌, ◌≤◌, false};
ghost use Rattle.frame_net.specs.FlowNet.{node_count};
ghost use Rattle.pulse_parts.specs.Marks.{IsPartlyDelivered, NoneMarked};
ghost use Rattle.pulse.specs.Conditions.{ArePushesOf, IsFlowOf, NoneDelivered, is_marked};
ghost use Rattle.pulse.specs.Phases.{RangeDelivered, RangeRead};

use crate::flow::Flow;
use crate::marks::mark;
use crate::pushes::Pushes;
use frame_net::Net;
use pulse_parts::{deliver_each, read_each};

/// Reads the nodes from `first` up to `end`: each writes its row of pushes.
pub fn read_range(net: &Net, flow: &Flow, pushes: &mut Pushes, first: u32, end: u32)
    requires flow { IsFlowOf net.now flow.now }
    requires pushes { ArePushesOf net.now pushes.old }
    requires unspent { flow.now.spent ≡ false }
    requires usable { pushes.old.spent ≡ false }
    requires none { NoneDelivered net.now flow.now }
    requires ordered { first ≤ end }
    requires within { end ≤ node_count net.now }
    ensures { RangeRead net.now flow.now first end pushes.old pushes.new }
{
    net.known();
    read_each(
        net,
        flow.labels.as_slice(),
        flow.parts.as_slice(),
        pushes.parts.as_mut_slice(),
        first,
        end,
    );
}

/// Delivers the nodes from `first` up to `end`, none of which was delivered since the last turn.
/// Each writes its row of flow, its excess and its new label, from the pushes of every node and the
/// labels of the pulse's start.
pub fn deliver_range(net: &Net, flow: &mut Flow, pushes: &Pushes, first: u32, end: u32)
    requires flow { IsFlowOf net.now flow.old }
    requires pushes { ArePushesOf net.now pushes.now }
    requires unspent { flow.old.spent ≡ false }
    requires usable { pushes.now.spent ≡ false }
    requires ordered { first ≤ end }
    requires within { end ≤ node_count net.now }
    requires none { NoneMarked (is_marked flow.old) first end }
    requires opening { IsPartlyDelivered net.now flow.old.labels pushes.now.values
        (is_marked flow.old) flow.old.cells }
    ensures { RangeDelivered net.now pushes.now first end flow.old flow.new }
{
    net.known();
    flow.listed = false;
    deliver_each(
        net,
        flow.labels.as_slice(),
        pushes.parts.as_slice(),
        flow.parts.as_mut_slice(),
        first,
        end,
    );
    mark(flow.delivered.as_mut_slice(), first, end);
}
