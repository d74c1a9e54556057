//! The units that come to nodes and that go on from them.
ghost use Rattle.std.specs.Prelude.{◌≡◌, ◌<◌, IsTrue, length};
ghost use Rattle.aig_graph.specs.Graph.{latches_and_gates};
ghost use Rattle.unit_flows.specs.Units.{comes_after, IsBalancedBefore};
ghost use Rattle.unit_flows.specs.Onward.{IsFuller};

use crate::gate_flow::GateFlow;
use crate::tallies::unit;
use aig_graph::Aig;

/// Returns true if a unit comes after the variable at `place`: a known latch, or a gate that one
/// goes through.
pub(crate) fn comes_after(aig: &Aig, flows: &[GateFlow], place: usize) -> bool
    requires place { place < latches_and_gates aig.now }
    requires flows { length flows.now ≡ length aig.now.gates }
    ensures { result ≡ comes_after aig.now flows.now place }
{
    let latches = aig.latches().len();
    if place < latches {
        aig.is_known_latch(aig.first_latch() + place as u32)
    } else {
        flows[place - latches].through
    }
}

/// Returns true if no more units go on from before a gate than come there, if `came` come from
/// gates that read it.
pub(crate) fn gives_no_more(flow: &GateFlow, came: u32) -> bool
    ensures { IsTrue result → IsBalancedBefore flow.now came }
{
    let goes = u64::from(unit(flow.through))
        + u64::from(flow.first_down)
        + u64::from(flow.second_down);
    let comes = u64::from(unit(flow.first_up)) + u64::from(unit(flow.second_up)) + u64::from(came);
    goes <= comes
}

/// Returns true if more units come to before a gate than go on from there, if `came` come from
/// gates that read it.
pub(crate) fn is_fuller(flow: &GateFlow, came: u32) -> bool
    ensures { IsTrue result → IsFuller flow.now came }
{
    let goes = u64::from(unit(flow.through))
        + u64::from(flow.first_down)
        + u64::from(flow.second_down);
    let comes = u64::from(unit(flow.first_up)) + u64::from(unit(flow.second_up)) + u64::from(came);
    goes < comes
}
