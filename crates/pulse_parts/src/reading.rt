//! Reading: each node writes its own row of pushes, by the flow and the labels of the pulse's
//! start.
ghost use Rattle.std.specs.Prelude.{◌≡◌, ℕ, ◌+◌, ◌-◌, ◌<◌, ◌≤◌, ◌^◌, min, length, slice_index};
ghost use Rattle.frame_net.specs.FlowNet.{node_count, start, row_len};
ghost use Rattle.pulse_parts.specs.Parts.{AreFlowParts, LabelsFit, PushPartFits, cells_of};
ghost use Rattle.pulse_parts.specs.Reading.{IsCountedOn, PartReadOn, RowsRead, active_from, arc_push, cells_active};

use crate::clearing::clear;
use crate::parts::{FlowPart, PushPart};
use crate::places::part_of;
use frame_net::{Net, write_pushes};

/// Reads node `v` into its row. No other function walks a row for pushes, and each walk is counted.
fn walk_row(
    net: &Net,
    labels: &[u32],
    v: u32,
    residuals: &[u32],
    excess: u32,
    row: &mut [u32],
    walked: &mut u32,
)
    requires labels { LabelsFit net.now labels.now }
    requires v { v < node_count net.now }
    requires residuals { length residuals.now ≡ row_len net.now v }
    requires row { length row.old ≡ row_len net.now v }
    ensures row { (k : ℕ) → k < row_len net.now v
        → slice_index row.new k ≡ arc_push net.now labels.now v
        (slice_index residuals.now) excess k }
    ensures counted { walked.new ≡ min (walked.old + 1) (2 ^ 32 - 1) }
{
    net.known();
    let nodes = net.nodes();
    let heads = net.heads(v);
    write_pushes(heads, residuals, labels, nodes, v, excess, row);
    *walked = walked.saturating_add(1);
}

/// Reads node `v` into `values`, which begin with arc `base`.
pub(crate) fn walk_at(
    net: &Net,
    labels: &[u32],
    flow: &[FlowPart],
    v: u32,
    base: usize,
    values: &mut [u32],
    walked: &mut u32,
)
    requires labels { LabelsFit net.now labels.now }
    requires flow { AreFlowParts net.now 0 flow.now }
    requires v { v < node_count net.now }
    requires from { base ≤ start net.now v }
    requires to { start net.now (v + 1) ≤ base + length values.old }
    ensures row { RowsRead net.now labels.now base v (v + 1)
        (cells_of flow.now) values.old values.new }
    ensures counted { walked.new ≡ min (walked.old + 1) (2 ^ 32 - 1) }
{
    net.known();
    let at = net.start(v);
    let next = net.start(v + 1);
    let part = part_of(flow, net, v);
    let had = part.excess[(v - part.first) as usize];
    let residuals = &part.residuals[at - part.base..next - part.base];
    walk_row(
        net,
        labels,
        v,
        residuals,
        had,
        &mut values[at - base..next - base],
        walked,
    );
}

/// Returns the excess of node `v`.
fn excess_of(net: &Net, flow: &[FlowPart], v: u32) -> u32
    requires flow { AreFlowParts net.now 0 flow.now }
    requires v { v < node_count net.now }
    ensures { result ≡ slice_index (cells_of flow.now).excess v }
{
    net.known();
    let part = part_of(flow, net, v);
    part.excess[(v - part.first) as usize]
}

/// Returns true if node `v` is active.
pub(crate) fn is_active(net: &Net, labels: &[u32], flow: &[FlowPart], v: u32) -> bool
    requires labels { LabelsFit net.now labels.now }
    requires flow { AreFlowParts net.now 0 flow.now }
    requires v { v < node_count net.now }
    ensures { result ≡ cells_active net.now labels.now (cells_of flow.now) v }
{
    let nodes = net.nodes();
    v > 1 && excess_of(net, flow, v) > 0 && labels[v as usize] < nodes
}

/// Reads node `v` into `values`, which begin with arc `base`: walks and counts its row if it is
/// active, else clears it.
fn read_at(
    net: &Net,
    labels: &[u32],
    flow: &[FlowPart],
    v: u32,
    base: usize,
    values: &mut [u32],
    walked: &mut u32,
)
    requires labels { LabelsFit net.now labels.now }
    requires flow { AreFlowParts net.now 0 flow.now }
    requires v { v < node_count net.now }
    requires from { base ≤ start net.now v }
    requires to { start net.now (v + 1) ≤ base + length values.old }
    ensures row { RowsRead net.now labels.now base v (v + 1)
        (cells_of flow.now) values.old values.new }
    ensures counted { IsCountedOn walked.old
        (active_from net.now labels.now (cells_of flow.now) v (v + 1)) walked.new }
{
    net.known();
    if is_active(net, labels, flow, v) {
        walk_at(net, labels, flow, v, base, values, walked);
    } else {
        clear(values, net.start(v) - base, net.start(v + 1) - base);
    }
}

/// Reads the nodes of a part that lie from `first` up to `end`. The list of nodes that push isn't
/// complete any more.
pub fn read_part(
    net: &Net,
    labels: &[u32],
    flow: &[FlowPart],
    part: &mut PushPart,
    first: u32,
    end: u32,
)
    requires labels { LabelsFit net.now labels.now }
    requires flow { AreFlowParts net.now 0 flow.now }
    requires part { PushPartFits net.now part.old }
    ensures { PartReadOn net.now labels.now first end (cells_of flow.now) part.old part.new }
{
    net.known();
    let low = first.max(part.first);
    let high = end.min(part.end);
    if low < high {
        part.pushing.forget();
        for v in low..high {
            let base = part.base;
            let values = part.values.as_mut_slice();
            read_at(net, labels, flow, v, base, values, &mut part.walked);
        }
    }
}
