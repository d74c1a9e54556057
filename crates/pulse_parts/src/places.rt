//! Finds a node's row among the parts, which are few: one for each worker.
ghost use Rattle.std.specs.Prelude.{◌≡◌, ℕ, ◌+◌, ◌<◌, ◌≤◌, length, slice_index};
ghost use Rattle.frame_net.specs.FlowNet.{node_count, start, row_len};
ghost use Rattle.pulse_parts.specs.Parts.{AreFlowParts, ArePushParts, HoldsNode, cells_of, values_of};
ghost use Rattle.pulse_parts.specs.Delivering.{own};

use crate::parts::{FlowPart, PushPart};
use frame_net::Net;

/// Returns the part that holds node `v`.
pub fn part_of<'a>(parts: &'a [FlowPart], net: &Net, v: u32) -> &'a FlowPart
    requires parts { AreFlowParts net.now 0 parts.now }
    requires v { v < node_count net.now }
    ensures { HoldsNode net.now (cells_of parts.now) v result.now }
{
    net.known();
    for part in parts {
        if v < part.end {
            return part;
        }
    }
    unreachable!()
}

/// Returns the push over arc `arc`, which is in the row of node `w`.
pub fn push_at(parts: &[PushPart], net: &Net, w: u32, arc: usize) -> u32
    requires parts { ArePushParts net.now 0 parts.now }
    requires w { w < node_count net.now }
    requires from { start net.now w ≤ arc }
    requires to { arc < start net.now (w + 1) }
    ensures { result ≡ slice_index (values_of parts.now) arc }
{
    net.known();
    for part in parts {
        if w < part.end {
            return part.values[arc - part.base];
        }
    }
    unreachable!()
}

/// Returns the row of pushes of node `v`.
pub(crate) fn push_row<'a>(parts: &'a [PushPart], net: &Net, v: u32) -> &'a [u32]
    requires parts { ArePushParts net.now 0 parts.now }
    requires v { v < node_count net.now }
    ensures len { length result.now ≡ row_len net.now v }
    ensures value { (k : ℕ) → k < row_len net.now v
        → slice_index result.now k ≡ own net.now (values_of parts.now) v k }
{
    net.known();
    let at = net.start(v);
    let next = net.start(v + 1);
    for part in parts {
        if v < part.end {
            return &part.values[at - part.base..next - part.base];
        }
    }
    unreachable!()
}
