//! A flow at the start, and room for its pushes.
ghost use Rattle.std.specs.Prelude.{◌≡◌, IfOk, false};
ghost use Rattle.pulse.specs.Conditions.{ArePushesOf, IsBetween};

use aig_graph::NoMemory;
use frame_net::Net;
use pulse::{Flow, Pushes};
use std::alloc::Global;

pub(crate) fn start(alloc: Global, net: &Net) -> Result<(Flow, Pushes), NoMemory>
    ensures flow { IfOk result (λ both. IsBetween net.now both.0) }
    ensures pushes { IfOk result (λ both. ArePushesOf net.now both.1) }
    ensures usable { IfOk result (λ both. both.1.spent ≡ false) }
{
    let flow = Flow::start(alloc, net)?;
    let pushes = Pushes::new(alloc, net)?;
    Ok((flow, pushes))
}
