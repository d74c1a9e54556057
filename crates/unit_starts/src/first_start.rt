//! A circuit's first flow, if nothing is known of any gate. Two starts are tried over the gates,
//! and the one that brings more units to the sink is taken.
//!
//! The first goes up the gates: each takes a unit that waits after a fan-in. It tries the larger
//! fan-in first, since what is read late has fewer readers to come. The second goes from the sink
//! down: each gate that is asked for a unit asks a fan-in that nobody has asked, the smaller first.
//! Then units go up along what was asked, and gates that got none take what still waits.
//!
//! For most circuits one of them brings all units, or all but a few.

use crate::left_units::LeftUnits;
use crate::region::Region;
use crate::start::{FanIn, Start};
use aig_graph::NoMemory;
use std::alloc::Global;
use unit_flows::GateFlow;

/// The places of a gate's own variable and of its two fan-ins, from the first latch on.
#[derive(Clone, Copy)]
struct GatePlaces {
    own: usize,
    smaller: usize,
    larger: usize,
}

impl GatePlaces {
    /// Stands for the places of no gate.
    const NONE: GatePlaces = GatePlaces {
        own: usize::MAX,
        smaller: usize::MAX,
        larger: usize::MAX,
    };

    /// Returns the places of gate `gate`.
    fn of(region: &Region, gate: usize) -> GatePlaces {
        let gates = region.gates;
        if gate >= gates.len() {
            return GatePlaces::NONE;
        }
        GatePlaces {
            own: region.latches.len().wrapping_add(gate),
            smaller: region.place(gates[gate].rhs1) as usize,
            larger: region.place(gates[gate].rhs0) as usize,
        }
    }
}

/// Lets the gate take the unit that waits after `fan_in`. Returns true if there was one.
fn takes(start: &mut Start, gate: usize, places: &GatePlaces, fan_in: FanIn) -> bool {
    let place = match fan_in {
        FanIn::Smaller => places.smaller,
        FanIn::Larger => places.larger,
    };
    start.takes_from(gate, places.own, fan_in, place)
}

/// Lets a passable gate that has taken nothing take a unit that waits after a fan-in: after
/// `first`, else after `second`.
#[inline(always)]
fn take_waiting(region: &Region, start: &mut Start, gate: usize, first: FanIn, second: FanIn) {
    let places = GatePlaces::of(region, gate);
    if start.taken(gate).is_some() || !region.is_passable(places.own) {
        return;
    }
    if !takes(start, gate, &places, first) {
        takes(start, gate, &places, second);
    }
}

/// Lets each passable gate that has taken nothing take a unit that waits after a fan-in. One pass
/// goes up the gates. A gate takes the unit after `first`, else that after `second`.
#[inline(always)]
fn take_all_waiting(region: &Region, start: &mut Start, first: FanIn, second: FanIn) {
    for gate in 0..region.gates.len() {
        take_waiting(region, start, gate, first, second);
    }
}

/// Lets a passable gate whose unit is asked for ask a fan-in that nobody has asked, the smaller
/// first.
fn ask(region: &Region, start: &mut Start, gate: usize) {
    let places = GatePlaces::of(region, gate);
    if !region.is_passable(places.own) || !start.is_asked(places.own) {
        return;
    }
    if start.asks(places.smaller) {
        start.note(gate, Some(FanIn::Smaller));
    } else if start.asks(places.larger) {
        start.note(gate, Some(FanIn::Larger));
    }
}

/// Lets a gate that asked a fan-in take the unit that waits there, if one does, else nothing.
fn take_asked(region: &Region, start: &mut Start, gate: usize) {
    if let Some(fan_in) = start.taken(gate) {
        start.note(gate, None);
        takes(start, gate, &GatePlaces::of(region, gate), fan_in);
    }
}

/// Lets all gates ask, from the last to the first, and then take what they asked for.
fn ask_and_take(region: &Region, start: &mut Start) {
    let gates = region.gates.len();
    for gate in (0..gates).rev() {
        ask(region, start, gate);
    }
    for gate in 0..gates {
        take_asked(region, start, gate);
    }
}

/// Returns the flow at a gate that takes its unit from `taken`, if anywhere, and lets it through.
fn flow_of(taken: Option<FanIn>) -> GateFlow {
    let mut flow = GateFlow::none();
    match taken {
        Some(FanIn::Smaller) => flow.first_up = true,
        Some(FanIn::Larger) => flow.second_up = true,
        None => return flow,
    }
    flow.through = true;
    flow
}

/// Replaces a flow by the one that takes these units.
fn put(flows: &mut Vec<GateFlow>, takes: &[Option<FanIn>]) -> Result<(), NoMemory> {
    flows.clear();
    let mut refused = flows.reserve(takes.len()).is_err();
    for k in 0..takes.len() {
        refused = refused | flows.push(flow_of(takes[k])).is_err();
    }
    if refused { Err(NoMemory) } else { Ok(()) }
}

/// The start up the gates, and the places at which it leaves units. Its tables serve the start from
/// the sink down.
#[derive(Drop)]
pub(crate) struct FirstStart {
    start: Start,
    pub left: LeftUnits,
}

/// Replaces a flow by that of a start. Returns the start, and the places at which it leaves units.
fn put_first(
    alloc: Global,
    flows: &mut Vec<GateFlow>,
    start: Start,
) -> Result<FirstStart, NoMemory> {
    let is_put = put(flows, start.takes.as_slice());
    let left = start.left(alloc);
    match (is_put, left) {
        (Ok(()), Ok(left)) => Ok(FirstStart { start, left }),
        _ => {
            drop(start);
            Err(NoMemory)
        }
    }
}

/// Replaces a flow by that of a start, if the start brings more than `arrived` units to the sink.
/// Returns true if it does.
fn put_better(flows: &mut Vec<GateFlow>, start: &Start, arrived: usize) -> Result<bool, NoMemory> {
    if start.arrived <= arrived {
        return Ok(false);
    }
    match put(flows, start.takes.as_slice()) {
        Ok(()) => Ok(true),
        Err(error) => Err(error),
    }
}

/// Replaces a flow by that of the start up the gates.
///
/// # Errors
///
/// `NoMemory` if a table is refused.
pub(crate) fn put_start_up(
    alloc: Global,
    region: &Region,
    flows: &mut Vec<GateFlow>,
) -> Result<FirstStart, NoMemory> {
    let mut start = Start::new(alloc, region)?;
    take_all_waiting(region, &mut start, FanIn::Larger, FanIn::Smaller);
    put_first(alloc, flows, start)
}

/// Replaces a flow by that of the start from the sink down, if it brings more units to the sink
/// than the first start. Returns true if it does.
///
/// # Errors
///
/// `NoMemory` if a table is refused.
pub(crate) fn put_start_down(
    region: &Region,
    flows: &mut Vec<GateFlow>,
    first: FirstStart,
) -> Result<bool, NoMemory> {
    let FirstStart { start, left } = first;
    drop(left);
    let arrived = start.arrived;
    let mut start = start.again(region);
    ask_and_take(region, &mut start);
    take_all_waiting(region, &mut start, FanIn::Smaller, FanIn::Larger);
    let is_put = put_better(flows, &start, arrived);
    drop(start);
    is_put
}
