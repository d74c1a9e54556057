//! The pulses of both worked networks, phase by phase, by crews of several sizes.
ghost use Rattle.std.specs.Prelude.{◌≡◌, OnOk, false};
ghost use Rattle.pulse.specs.Conditions.{ArePushesOf, IsBetween, IsFlowOf};

use crate::arcs::is_at as is_in;
use crate::starts::start;
use frame_net::Net;
use pulse::{
    Crew, Flow, OpenGate, PhaseGate, PulseError, Pushes, deliver_phase, deliver_range, read_phase,
    read_range,
};
use std::alloc::Global;
use std::thread::Threads;

/// Numbers of workers: one, some that divide the nodes unevenly, one for each node of the second
/// network, and the most.
const CREWS: [u32; 6] = [1, 2, 5, 7, 12, 64];

/// Labels of all nodes, excess of all but the source, and the number of active nodes, whose rows
/// the next read phase walks.
#[derive(Clone, Copy)]
struct State {
    labels: &'static [u32],
    excess: &'static [u32],
    active: u32,
}

/// The first network at the start, and after each of six pulses.
const STATES: [State; 7] = [
    State {
        labels: &[6, 0, 0, 0, 0, 0],
        excess: &[0, 1, 1, 0, 0],
        active: 2,
    },
    State {
        labels: &[6, 0, 1, 1, 0, 0],
        excess: &[0, 1, 1, 0, 0],
        active: 2,
    },
    State {
        labels: &[6, 0, 1, 1, 0, 0],
        excess: &[0, 0, 0, 2, 0],
        active: 1,
    },
    State {
        labels: &[6, 0, 1, 1, 1, 0],
        excess: &[0, 0, 0, 2, 0],
        active: 1,
    },
    State {
        labels: &[6, 0, 1, 1, 2, 0],
        excess: &[0, 0, 0, 1, 1],
        active: 2,
    },
    State {
        labels: &[6, 0, 1, 1, 2, 1],
        excess: &[0, 1, 0, 0, 1],
        active: 2,
    },
    State {
        labels: &[6, 0, 3, 1, 2, 1],
        excess: &[1, 1, 0, 0, 0],
        active: 1,
    },
];

/// A state that isn't looked at.
const UNSEEN: State = State {
    labels: &[],
    excess: &[],
    active: 0,
};

/// The second network after eleven pulses. In the eleventh the node after the first gate delivers
/// to the node before it, which keeps its own unit and relabels.
const AFTER_ELEVEN: State = State {
    labels: &[12, 0, 3, 3, 3, 3, 4, 3, 4, 1, 2, 1],
    excess: &[1, 0, 0, 0, 0, 2, 0, 1, 0, 0, 0],
    active: 2,
};

const LATER_STATES: [State; 12] = [
    UNSEEN,
    UNSEEN,
    UNSEEN,
    UNSEEN,
    UNSEEN,
    UNSEEN,
    UNSEEN,
    UNSEEN,
    UNSEEN,
    UNSEEN,
    UNSEEN,
    AFTER_ELEVEN,
];

/// Returns true if the flow is in this state.
fn is_at(net: &Net, flow: &Flow, state: &State) -> bool
    requires flow { IsFlowOf net.now flow.now }
    requires unspent { flow.now.spent ≡ false }
{
    let mut same = true;
    for v in 0..net.nodes() {
        same = same & is_in(state.labels, v as usize, flow.label(v));
    }
    for v in 1..net.nodes() {
        same = same & is_in(state.excess, v as usize - 1, flow.excess(v));
    }
    same
}

/// Makes a pulse by both phases. Returns true if the flow is in this state, if that is looked at,
/// and stays in it over the read phase. That phase walks the rows of active nodes.
fn pulses_from<R: Threads + Sync, G: PhaseGate>(
    rt: &R,
    alloc: Global,
    net: &Net,
    flow: &mut Flow,
    pushes: &mut Pushes,
    crew: &Crew<G>,
    state: &State,
) -> Result<bool, PulseError>
    requires flow { IsBetween net.now flow.old }
    requires pushes { ArePushesOf net.now pushes.old }
    requires usable { pushes.old.spent ≡ false }
    ensures flow { OnOk result (IsBetween net.now flow.new) }
    ensures pushes { OnOk result (ArePushesOf net.now pushes.new) }
    ensures usable { OnOk result (pushes.new.spent ≡ false) }
{
    let before = is_at(net, flow, state);
    read_phase(rt, alloc, net, flow, pushes, crew)?;
    let between = is_at(net, flow, state) & (pushes.walked() == state.active);
    deliver_phase(rt, alloc, net, flow, pushes, crew)?;
    Ok((before & between) | state.labels.is_empty())
}

/// Returns true if the pulses of a crew go through the states.
fn goes_through<R: Threads + Sync>(
    rt: &R,
    alloc: Global,
    net: &Net,
    flow: &mut Flow,
    pushes: &mut Pushes,
    crew: &Crew<OpenGate>,
    states: &[State],
) -> Result<bool, PulseError>
    requires flow { IsBetween net.now flow.old }
    requires pushes { ArePushesOf net.now pushes.old }
    requires usable { pushes.old.spent ≡ false }
{
    for state in states {
        if !pulses_from(rt, alloc, net, flow, pushes, crew, state)? {
            return Ok(false);
        }
    }
    Ok(true)
}

/// Returns true if they do from the start.
fn follows<R: Threads + Sync>(
    rt: &R,
    alloc: Global,
    net: &Net,
    crew: &Crew<OpenGate>,
    states: &[State],
) -> bool {
    match start(alloc, net) {
        Ok((mut flow, mut pushes)) => {
            let follows = goes_through(rt, alloc, net, &mut flow, &mut pushes, crew, states);
            drop(flow);
            drop(pushes);
            follows == Ok(true)
        }
        Err(_) => false,
    }
}

/// Returns true if the pulses of every crew do.
fn all_follow<R: Threads + Sync>(rt: &R, alloc: Global, net: &Net, states: &[State]) -> bool {
    let mut all = true;
    for workers in CREWS {
        let crew = Crew::new(workers.clamp(1, 64), OpenGate);
        all = all & follows(rt, alloc, net, &crew, states);
    }
    all
}

/// Makes a pulse by the ranges of all nodes.
pub(crate) fn pulse_by_ranges(net: &Net, flow: &mut Flow, pushes: &mut Pushes)
    requires flow { IsBetween net.now flow.old }
    requires pushes { ArePushesOf net.now pushes.old }
    requires usable { pushes.old.spent ≡ false }
    ensures flow { IsBetween net.now flow.new }
    ensures pushes { ArePushesOf net.now pushes.new }
    ensures usable { pushes.new.spent ≡ false }
{
    net.known();
    let nodes = net.nodes();
    read_range(net, flow, pushes, 0, nodes);
    deliver_range(net, flow, pushes, 0, nodes);
    flow.turn();
}

/// Returns true if a crew makes a pulse after one by ranges.
pub(crate) fn pulses_after_ranges<R: Threads + Sync, G: PhaseGate>(
    rt: &R,
    alloc: Global,
    net: &Net,
    flow: &mut Flow,
    pushes: &mut Pushes,
    crew: &Crew<G>,
) -> bool
    requires flow { IsBetween net.now flow.old }
    requires pushes { ArePushesOf net.now pushes.old }
    requires usable { pushes.old.spent ≡ false }
{
    pulse_by_ranges(net, flow, pushes);
    pulses_from(rt, alloc, net, flow, pushes, crew, &UNSEEN) == Ok(true)
}

/// Returns true if the pulses of the first network go through its states, by every crew.
pub(crate) fn follow_states<R: Threads + Sync>(rt: &R, alloc: Global, net: &Net) -> bool {
    all_follow(rt, alloc, net, &STATES)
}

/// Returns true if the second network's flow is in its state after eleven pulses of every crew.
pub(crate) fn follow_after_eleven<R: Threads + Sync>(rt: &R, alloc: Global, net: &Net) -> bool {
    all_follow(rt, alloc, net, &LATER_STATES)
}
