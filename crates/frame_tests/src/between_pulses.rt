//! The first worked network between its first two pulses, and what the pushes of the second one
//! send.
ghost use Rattle.std.specs.Prelude.{◌≡◌, false};
ghost use Rattle.pulse.specs.Conditions.{ArePushesOf, IsBetween, IsFlowOf};

use crate::starts::start;
use crate::worked_pulses::pulse_by_ranges;
use frame_net::Net;
use pulse::{Flow, Pushes, read_range};
use std::alloc::Global;

/// Returns the number of units that the source sends: it fills the arc to each latch at the start.
fn sent_by_source(net: &Net, flow: &Flow) -> i64
    requires { IsBetween net.now flow.now }
{
    let mut sent: i64 = 0;
    net.known_capacities();
    for arc in 0..net.arcs() {
        if arc < 2 {
            sent = sent.saturating_add(flow.flow(arc as u32));
        }
    }
    sent
}

/// Returns true if no node is delivered, and memory was refused neither to the flow nor to the
/// pushes.
fn is_between(net: &Net, flow: &Flow, pushes: &Pushes) -> bool
    requires { IsFlowOf net.now flow.now }
{
    let mut between = !flow.is_spent() & !pushes.is_spent();
    for v in 0..net.nodes() {
        between = between & !flow.is_delivered(v);
    }
    between
}

/// Returns the number of units that the pushes send over all arcs.
fn sent(net: &Net, pushes: &Pushes) -> u32
    requires pushes { ArePushesOf net.now pushes.now }
    requires usable { pushes.now.spent ≡ false }
{
    let mut sent: u32 = 0;
    net.known_capacities();
    for arc in 0..net.arcs() {
        sent = sent.saturating_add(pushes.push(arc as u32));
    }
    sent
}

/// Returns true if the second pulse sends the units of both latches.
fn sends_both(net: &Net, flow: &mut Flow, pushes: &mut Pushes) -> bool
    requires flow { IsBetween net.now flow.old }
    requires pushes { ArePushesOf net.now pushes.old }
    requires usable { pushes.old.spent ≡ false }
{
    let nodes = net.nodes();
    pulse_by_ranges(net, flow, pushes);
    let between = is_between(net, flow, pushes) & (sent_by_source(net, flow) == 2);
    read_range(net, flow, pushes, 0, nodes);
    between & (sent(net, pushes) == 2)
}

/// Returns true if the second pulse sends them from the start.
pub(crate) fn sends_both_units(alloc: Global, net: &Net) -> bool {
    match start(alloc, net) {
        Ok((mut flow, mut pushes)) => {
            let holds = sends_both(net, &mut flow, &mut pushes);
            drop(flow);
            drop(pushes);
            holds
        }
        Err(_) => false,
    }
}
