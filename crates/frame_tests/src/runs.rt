//! The ends of runs over the first worked network.
ghost use Rattle.std.specs.Prelude.{IfOk};
ghost use Rattle.pulse.specs.Conditions.{IsMaxPreflow};

use crate::arcs::is_at;
use frame_net::Net;
use pulse::{Crew, MaxPreflow, OpenGate, PulseError, run_to_end, run_with_global_relabeling};
use std::alloc::Global;
use std::thread::Threads;

fn has_labels(net: &Net, end: &MaxPreflow, labels: &[u32]) -> bool
    requires { IsMaxPreflow net.now end.now }
{
    let mut same = true;
    for v in 0..net.nodes() {
        same = same & is_at(labels, v as usize, end.label(v));
    }
    same
}

/// What flows over each arc at the end: the source sends a unit to each latch. That of the second
/// goes through the gate to the sink, and that of the first has come back.
const UNITS: [i64; 12] = [1, 1, -1, -1, 0, -1, 1, 0, -1, 1, 1, -1];

fn has_flow(net: &Net, end: &MaxPreflow) -> bool
    requires { IsMaxPreflow net.now end.now }
{
    net.known_capacities();
    let mut same = UNITS.len() == net.arcs();
    for k in 0..net.arcs() {
        same = same & (k < UNITS.len() && UNITS[k] == end.flow(k as u32));
    }
    same
}

/// Returns true if a run ended after `pulses` pulses, and left the labels that were worked by hand.
fn ended_as_worked(net: &Net, ended: Result<MaxPreflow, PulseError>, pulses: u64) -> bool
    requires { IfOk ended (IsMaxPreflow net.now) }
{
    match ended {
        Ok(end) => {
            let made = end.pulses();
            let labelled = has_labels(net, &end, &[6, 0, 6, 6, 6, 1]);
            let flows = has_flow(net, &end);
            drop(end);
            (made == pulses) & labelled & flows
        }
        Err(_) => false,
    }
}

/// Returns true if a run of six pulses does, and one with global relabeling. In that both units of
/// excess go to the gate. One goes on to the sink, the other back to a latch, which can't reach the
/// sink any more.
pub(crate) fn end_as_worked<R: Threads + Sync>(rt: &R, alloc: Global, net: &Net) -> bool {
    let crew = Crew::new(2, OpenGate);
    let plain = ended_as_worked(net, run_to_end(rt, alloc, net, &crew), 6);
    plain & ended_as_worked(net, run_with_global_relabeling(rt, alloc, net, &crew), 3)
}
