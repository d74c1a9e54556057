//! The walk backward from the sink over arcs with a residual, nearest nodes first.
ghost use Rattle.std.specs.Prelude.{◌≡◌, ℕ, ◌+◌, ◌<◌, ◌≤◌, [], length, slice_index};
ghost use Rattle.frame_net.specs.Laws.{IsDistance};
ghost use Rattle.frame_net.specs.FlowNet.{node_count};
ghost use Rattle.pulse_parts.specs.Parts.{AreFlowParts, cells_of, pairs};
ghost use Rattle.pulse_parts.specs.Walks.{Sweeps};

use crate::{FlowPart, residual_at};
use frame_net::Net;

/// Reads the node at a place of the queue. Each node without a label that has a residual arc to it
/// gets one more than its label, and the next place of the queue. An arc from such a node is the
/// mate of one in the row that is read. Returns the number of queued nodes.
fn read_node(
    net: &Net,
    parts: &[FlowPart],
    place: usize,
    queued: usize,
    labels: &mut [u32],
    queue: &mut [u32],
) -> usize
    requires parts { AreFlowParts net.now 0 parts.now }
    requires labels { length labels.old ≡ node_count net.now }
    requires queue { length queue.old ≡ node_count net.now }
    requires place { place < queued }
    requires few { queued ≤ node_count net.now }
    requires sweeps { Sweeps (node_count net.now) (pairs net.now (cells_of parts.now) [])
        (slice_index labels.old) (slice_index queue.old) queued place }
    ensures { Sweeps (node_count net.now) (pairs net.now (cells_of parts.now) [])
        (slice_index labels.new) (slice_index queue.new) result (place + 1) }
{
    net.known();
    let nodes = net.nodes();
    net.known_capacities();
    let w = queue[place];
    let heads = net.heads(w);
    let mates = net.mates(w);
    let label = labels[w as usize] + 1;
    let mut count = queued;
    for k in 0..heads.len() {
        let v = heads[k];
        if labels[v as usize] == nodes && residual_at(parts, mates[k] as usize) > 0 {
            labels[v as usize] = label;
            queue[count] = v;
            count += 1;
        }
    }
    count
}

/// Takes all labels away: a node without one has the number of nodes.
fn unlabel(labels: &mut [u32], nodes: u32)
    ensures { (v : ℕ) → v < length labels.old → slice_index labels.new v ≡ nodes }
{
    labels.fill(nodes);
}

/// Writes the label of each node: its residual distance to the sink, or the number of nodes if no
/// residual arcs lead there. The labels of before don't matter. `queue` is room for all nodes.
/// Linear in the network, and takes no memory.
pub fn exact_labels(net: &Net, parts: &[FlowPart], labels: &mut [u32], queue: &mut [u32])
    requires parts { AreFlowParts net.now 0 parts.now }
    requires labels { length labels.old ≡ node_count net.now }
    requires queue { length queue.old ≡ node_count net.now }
    ensures { IsDistance (node_count net.now) (pairs net.now (cells_of parts.now) labels.old)
        (slice_index labels.new) }
{
    net.known();
    let nodes = net.nodes();
    unlabel(labels, nodes);
    labels[1] = 0;
    queue[0] = 1;
    let mut queued = 1;
    let mut place = 0;
    'nodes: while place < queued {
        queued = read_node(net, parts, place, queued, labels, queue);
        place += 1;
    }
}
