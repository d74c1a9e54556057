//! Delivery: each node writes its own row of residuals, its excess and its new label, from all
//! pushes and the labels of the pulse's start. The pushes that come in are those over the mates of
//! the row's arcs.
ghost use Rattle.std.specs.Prelude.{◌≡◌, ℕ, ◌+◌, ◌<◌, ◌≤◌, length, slice_index};
ghost use Rattle.frame_net.specs.FlowNet.{node_count, row_len};
ghost use Rattle.pulse_parts.specs.Parts.{ArePushParts, FlowPartFits, LabelsFit, values_of};
ghost use Rattle.pulse_parts.specs.Delivering.{delivered_excess, delivered_label, delivered_res, label_after, KeepsLists, NodeSafe, PartDelivered, PartSafe};

use crate::inflow::add_row;
use crate::parts::{FlowPart, PushPart};
use crate::places::push_row;
use frame_net::{Net, relabel, subtract_pushes};

/// Returns the label of node `v` after delivery, by its residuals after delivery. It stays unless
/// `v` was active and keeps some of its excess.
fn next_label(net: &Net, labels: &[u32], v: u32, excess: u32, outflow: u32, row: &[u32]) -> u32
    requires v { v < node_count net.now }
    requires labels { LabelsFit net.now labels.now }
    requires row { length row.now ≡ row_len net.now v }
    ensures { result ≡ label_after net.now labels.now v excess outflow (slice_index row.now) }
{
    net.known();
    let nodes = net.nodes();
    let label = labels[v as usize];
    if v > 1 && excess > 0 && label < nodes && outflow < excess {
        relabel(net.heads(v), row, labels, nodes)
    } else {
        label
    }
}

/// The excess and the label of a node after its delivery.
#[derive(Clone, Copy)]
struct Delivered {
    excess: u32,
    label: u32,
}

/// Delivers one node into its row. Returns its excess and its label after delivery.
fn deliver_node(
    net: &Net,
    labels: &[u32],
    parts: &[PushPart],
    v: u32,
    excess: u32,
    row: &mut [u32],
) -> Delivered
    requires parts { ArePushParts net.now 0 parts.now }
    requires v { v < node_count net.now }
    requires labels { LabelsFit net.now labels.now }
    requires row { length row.old ≡ row_len net.now v }
    requires safe { NodeSafe net.now (values_of parts.now) v (slice_index row.old) excess }
    ensures excess { result.excess ≡ delivered_excess net.now (values_of parts.now) v excess }
    ensures label { result.label ≡ delivered_label net.now labels.now (values_of parts.now) v
        (slice_index row.old) excess }
    ensures row { (k : ℕ) → k < row_len net.now v
        → slice_index row.new k ≡ delivered_res net.now (values_of parts.now) v
        (slice_index row.old) k }
{
    let own = push_row(parts, net, v);
    let outflow = subtract_pushes(own, row);
    let inflow = add_row(parts, net, v, row);
    let label = next_label(net, labels, v, excess, outflow, row);
    Delivered {
        excess: excess - outflow + inflow,
        label,
    }
}

/// Delivers node `v` of a part into the part's cells.
pub(crate) fn deliver_at(
    net: &Net,
    labels: &[u32],
    pushes: &[PushPart],
    v: u32,
    part: &mut FlowPart,
)
    requires pushes { ArePushParts net.now 0 pushes.now }
    requires labels { LabelsFit net.now labels.now }
    requires part { FlowPartFits net.now part.old }
    requires from { part.old.first ≤ v }
    requires to { v < part.old.end }
    requires safe { PartSafe net.now (values_of pushes.now) v (v + 1) part.old }
    ensures same { KeepsLists part.old part.new }
    ensures delivered { PartDelivered net.now labels.now (values_of pushes.now) v
        (v + 1) part.old part.new }
{
    net.known();
    let from = net.start(v) - part.base;
    let to = net.start(v + 1) - part.base;
    let at = (v - part.first) as usize;
    let residuals = part.residuals.as_mut_slice();
    let excess = part.excess.as_mut_slice();
    let next = part.next.as_mut_slice();
    let had = excess[at];
    let delivered = deliver_node(net, labels, pushes, v, had, &mut residuals[from..to]);
    excess[at] = delivered.excess;
    next[at] = delivered.label;
}

/// Delivers the nodes of a part that lie from `first` up to `end`.
pub fn deliver_part(
    net: &Net,
    labels: &[u32],
    pushes: &[PushPart],
    part: &mut FlowPart,
    first: u32,
    end: u32,
)
    requires pushes { ArePushParts net.now 0 pushes.now }
    requires labels { LabelsFit net.now labels.now }
    requires part { FlowPartFits net.now part.old }
    requires safe { PartSafe net.now (values_of pushes.now) first end part.old }
    ensures { PartDelivered net.now labels.now (values_of pushes.now) first end part.old part.new }
{
    net.known();
    let low = first.max(part.first);
    let high = end.min(part.end);
    if low < high {
        for v in low..high {
            deliver_at(net, labels, pushes, v, part);
        }
    }
}
