//! The events of a range of nodes over all parts, on the calling thread.
ghost use Rattle.std.specs.Prelude.{◌≡◌, true, length};
ghost use Rattle.frame_net.specs.FlowNet.{node_count};
ghost use Rattle.pulse_parts.specs.Listing.{ListActive};
ghost use Rattle.pulse_parts.specs.Visiting.{WholesDelivered};
ghost use Rattle.pulse_parts.specs.Parts.{AreFlowParts, ArePushParts, LabelsFit, cells_of, values_of};
ghost use Rattle.pulse_parts.specs.Reading.{PartsReadOn, WholesRead};
ghost use Rattle.pulse_parts.specs.Delivering.{PartsDelivered, PartsSafe};

use crate::{FlowPart, PushPart, deliver_part, deliver_whole, read_part, read_whole};
use frame_net::Net;

/// Reads the nodes from `first` up to `end`.
pub fn read_each(
    net: &Net,
    labels: &[u32],
    flow: &[FlowPart],
    parts: &mut [PushPart],
    first: u32,
    end: u32,
)
    requires labels { LabelsFit net.now labels.now }
    requires flow { AreFlowParts net.now 0 flow.now }
    requires parts { ArePushParts net.now 0 parts.old }
    ensures len { length parts.new ≡ length parts.old }
    ensures each { PartsReadOn net.now labels.now first end
        (cells_of flow.now) parts.old parts.new }
{
    for i in 0..parts.len() {
        read_part(net, labels, flow, &mut parts[i], first, end);
    }
}

/// Reads all nodes, by a walk of the active ones' rows only. If `listed`, the flow's parts list the
/// active nodes.
pub fn read_every(
    net: &Net,
    labels: &[u32],
    flow: &[FlowPart],
    parts: &mut [PushPart],
    listed: bool,
)
    requires labels { LabelsFit net.now labels.now }
    requires flow { AreFlowParts net.now 0 flow.now }
    requires parts { ArePushParts net.now 0 parts.old }
    requires listed { listed ≡ true → ListActive (node_count net.now) labels.now flow.now }
    ensures len { length parts.new ≡ length parts.old }
    ensures each { WholesRead net.now labels.now (cells_of flow.now) parts.old parts.new }
{
    for i in 0..parts.len() {
        read_whole(net, labels, flow, &mut parts[i], listed);
    }
}

/// Delivers the nodes from `first` up to `end`.
pub fn deliver_each(
    net: &Net,
    labels: &[u32],
    pushes: &[PushPart],
    parts: &mut [FlowPart],
    first: u32,
    end: u32,
)
    requires pushes { ArePushParts net.now 0 pushes.now }
    requires labels { LabelsFit net.now labels.now }
    requires parts { AreFlowParts net.now 0 parts.old }
    requires safe { PartsSafe net.now (values_of pushes.now) first end parts.old }
    ensures len { length parts.new ≡ length parts.old }
    ensures each { PartsDelivered net.now labels.now
        (values_of pushes.now) first end parts.old parts.new }
{
    for i in 0..parts.len() {
        deliver_part(net, labels, pushes, &mut parts[i], first, end);
    }
}

/// Delivers all nodes. If complete lists name the nodes that have something to do, only these are
/// visited. If `listed`, the parts' lists are of this flow and these labels.
pub fn deliver_every(
    net: &Net,
    labels: &[u32],
    pushes: &[PushPart],
    parts: &mut [FlowPart],
    listed: bool,
)
    requires pushes { ArePushParts net.now 0 pushes.now }
    requires labels { LabelsFit net.now labels.now }
    requires parts { AreFlowParts net.now 0 parts.old }
    requires safe { PartsSafe net.now (values_of pushes.now) 0 (node_count net.now) parts.old }
    requires lists { listed ≡ true → ListActive (node_count net.now) labels.now parts.old }
    ensures len { length parts.new ≡ length parts.old }
    ensures each { WholesDelivered net.now labels.now (values_of pushes.now) parts.old parts.new }
{
    for i in 0..parts.len() {
        deliver_whole(net, labels, pushes, &mut parts[i], listed);
    }
}
