//! The units that come in at a node: the pushes over the mates of its row's arcs.
ghost use Rattle.std.specs.Prelude.{◌≡◌, ℕ, ◌+◌, ◌<◌, ◌≤◌, ◌^◌, true, length, slice_index};
ghost use Rattle.frame_net.specs.FlowNet.{node_count, row_len, head};
ghost use Rattle.pulse_parts.specs.Parts.{ArePushParts, values_of};
ghost use Rattle.pulse_parts.specs.Delivering.{back, row_inflow};
ghost use Rattle.pulse_parts.specs.Listing.{IsRising};
ghost use Rattle.pulse_parts.specs.Receiving.{AddsPushes, ListInOrder, Receives, RowFits};

use crate::parts::PushPart;
use crate::places::{push_at, push_row};
use frame_net::Net;

/// The most arcs of a short row. Few of the arcs of a longer one, as the sink's, may carry pushes.
const LONG_ROW: usize = 64;

/// Adds the pushes over the mates of a row's arcs to its residuals, by a visit of each arc. Returns
/// their sum.
fn add_each(parts: &[PushPart], net: &Net, v: u32, row: &mut [u32]) -> u32
    requires parts { ArePushParts net.now 0 parts.now }
    requires v { v < node_count net.now }
    requires len { length row.old ≡ row_len net.now v }
    requires fits { RowFits net.now (values_of parts.now) v row.old }
    requires sum { row_inflow net.now (values_of parts.now) v < 2 ^ 32 }
    ensures inflow { result ≡ row_inflow net.now (values_of parts.now) v }
    ensures row { AddsPushes net.now (values_of parts.now) v row.old row.new }
{
    net.known();
    let heads = net.heads(v);
    let mates = net.mates(v);
    let mut inflow = 0;
    for k in 0..row.len() {
        let push = push_at(parts, net, heads[k], mates[k] as usize);
        row[k] += push;
        inflow += push;
    }
    inflow
}

/// Returns the first place of node `v` among the heads of a row, or the row's length if it isn't
/// there.
fn place_of(heads: &[u32], v: u32) -> usize
    ensures within { result ≤ length heads.now }
    ensures there { result < length heads.now → slice_index heads.now result ≡ v }
    ensures found { (j : ℕ) → j < length heads.now → slice_index heads.now j ≡ v
        → result < length heads.now }
{
    for j in 0..heads.len() {
        if heads[j] == v {
            return j;
        }
    }
    heads.len()
}

/// Adds the push from node `u` to node `v` to `v`'s row, and returns it.
fn receive(parts: &[PushPart], net: &Net, u: u32, v: u32, row: &mut [u32]) -> u32
    requires parts { ArePushParts net.now 0 parts.now }
    requires u { u < node_count net.now }
    requires v { v < node_count net.now }
    requires len { length row.old ≡ row_len net.now v }
    requires fits { (k : ℕ) → k < row_len net.now v → head net.now v k ≡ u
        → slice_index row.old k + back net.now (values_of parts.now) v k < 2 ^ 32 }
    ensures { Receives net.now (values_of parts.now) u v row.old row.new result }
{
    net.known();
    net.known_capacities();
    let heads = net.heads(u);
    let j = place_of(heads, v);
    if j == heads.len() {
        return 0;
    }
    let push = push_row(parts, net, u)[j];
    let at = net.mates(u)[j] as usize - net.start(v);
    row[at] += push;
    push
}

/// Does what `add_each` does, by a visit of the nodes that push, which the parts list in rising
/// order.
fn add_listed(parts: &[PushPart], net: &Net, v: u32, row: &mut [u32]) -> u32
    requires parts { ArePushParts net.now 0 parts.now }
    requires v { v < node_count net.now }
    requires len { length row.old ≡ row_len net.now v }
    requires fits { RowFits net.now (values_of parts.now) v row.old }
    requires sum { row_inflow net.now (values_of parts.now) v < 2 ^ 32 }
    requires listed { ListInOrder parts.now }
    ensures inflow { result ≡ row_inflow net.now (values_of parts.now) v }
    ensures row { AddsPushes net.now (values_of parts.now) v row.old row.new }
{
    net.known();
    let mut inflow = 0;
    for i in 0..parts.len() {
        let part = &parts[i];
        let list = part.pushing.nodes.as_slice();
        for j in 0..list.len() {
            inflow += receive(parts, net, list[j], v, row);
        }
    }
    inflow
}

/// Returns true if a list rises strictly.
fn is_rising(list: &[u32]) -> bool
    ensures { result ≡ true → IsRising list.now }
{
    for i in 0..list.len() {
        if i > 0 && list[i - 1] >= list[i] {
            return false;
        }
    }
    true
}

/// Returns true if fewer than `most` nodes push, and all parts list them in rising order.
fn few_push(parts: &[PushPart], most: usize) -> bool
    ensures { result ≡ true → ListInOrder parts.now }
{
    let mut count: usize = 0;
    for i in 0..parts.len() {
        let part = &parts[i];
        let list = part.pushing.nodes.as_slice();
        count = count.saturating_add(list.len());
        if !part.pushing.complete || count >= most || !is_rising(list) {
            return false;
        }
    }
    true
}

/// Adds the pushes over the mates of a row's arcs to its residuals, and returns their sum. If a row
/// is long and few nodes push, it visits those nodes in place of the row's arcs.
pub(crate) fn add_row(parts: &[PushPart], net: &Net, v: u32, row: &mut [u32]) -> u32
    requires parts { ArePushParts net.now 0 parts.now }
    requires v { v < node_count net.now }
    requires len { length row.old ≡ row_len net.now v }
    requires fits { RowFits net.now (values_of parts.now) v row.old }
    requires sum { row_inflow net.now (values_of parts.now) v < 2 ^ 32 }
    ensures inflow { result ≡ row_inflow net.now (values_of parts.now) v }
    ensures row { AddsPushes net.now (values_of parts.now) v row.old row.new }
{
    if row.len() > LONG_ROW && few_push(parts, row.len() / 4) {
        add_listed(parts, net, v, row)
    } else {
        add_each(parts, net, v, row)
    }
}
