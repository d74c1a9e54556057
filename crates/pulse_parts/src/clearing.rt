//! Sets rows of pushes to 0 before the active nodes write theirs.
ghost use Rattle.std.specs.Prelude.{◌+◌, ◌<◌, ◌≤◌, length};
ghost use Rattle.frame_net.specs.FlowNet.{node_count, start};
ghost use Rattle.pulse_parts.specs.Listing.{EachListed};
ghost use Rattle.pulse_parts.specs.Parts.{PushPartFits};
ghost use Rattle.pulse_parts.specs.Reading.{Clears, ClearsListed, PartCleared};

use crate::parts::PushPart;
use frame_net::Net;

/// Writes 0s at the places from `from` up to `to`.
pub(crate) fn clear(values: &mut [u32], from: usize, to: usize)
    requires ordered { from ≤ to }
    requires within { to ≤ length values.old }
    ensures { Clears from to values.old values.new }
{
    for x in from..to {
        values[x] = 0;
    }
}

/// Clears the rows of the listed nodes, in `values`, which begin with arc `base`.
fn clear_listed(net: &Net, list: &[u32], base: usize, values: &mut [u32])
    requires nodes { EachListed list.now (λ v. v < node_count net.now) }
    requires from { EachListed list.now (λ v. base ≤ start net.now v) }
    requires to { EachListed list.now (λ v. start net.now (v + 1) ≤ base + length values.old) }
    ensures { ClearsListed net.now base list.now (length list.now) values.old values.new }
{
    net.known();
    for i in 0..list.len() {
        let v = list[i];
        clear(values, net.start(v) - base, net.start(v + 1) - base);
    }
}

/// Clears the rows of a part: those of the listed nodes, or all if the list isn't complete.
pub(crate) fn clear_part(net: &Net, part: &mut PushPart)
    requires part { PushPartFits net.now part.old }
    ensures { PartCleared net.now part.old part.new }
{
    net.known();
    if part.pushing.complete {
        let list = part.pushing.nodes.as_slice();
        clear_listed(net, list, part.base, part.values.as_mut_slice());
    } else {
        let size = part.values.len();
        clear(part.values.as_mut_slice(), 0, size);
    }
}
