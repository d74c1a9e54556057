//! A frame that is cut. Workers that own whole components are at work at once, and a crew shares
//! the pulses of a large one. The flow that they find is one flow for every number of workers. So
//! is that of a frame that isn't cut, whose pulses a crew shares. Two workers are in a phase at
//! once in the first pulse of a small circuit, and in one of many active nodes.
ghost use Rattle.std.specs.Prelude.{◌<◌, ◌≤◌};

use crate::circuits::TWO_LATCHES;
use crate::meeting_gates::MeetingGate;
use crate::wide_circuits::{BLOCK, FanIn, RACE, Units};
use aag_text::read_aag;
use aig_graph::{Choice, Circuit, ClosedSet, Keep, NoMemory};
use pulse::{Crew, OpenGate, PhaseGate};
use std::alloc::Global;
use std::test::*;
use std::thread::Threads;
use unit_components::{Sizes, chosen_by_sizes};
use unit_flows::{Frame, GateFlow, UnitFlow};

/// Each circuit is cut, and a part of over 64 places is large.
const SMALL: Sizes = Sizes {
    circuit: 1,
    alone: usize::MAX,
    part: 8,
    large: 64,
};

/// Each circuit is cut, for one worker too, and no part is large.
pub(crate) const SHARED: Sizes = Sizes {
    circuit: 1,
    alone: 1,
    part: 8,
    large: 1 << 24,
};

/// No circuit is cut.
const WHOLE: Sizes = Sizes {
    circuit: 1 << 24,
    alone: usize::MAX,
    part: 8,
    large: 64,
};

/// Each circuit is cut, and each component with three places is a part.
const EACH: Sizes = Sizes {
    circuit: 1,
    alone: usize::MAX,
    part: 3,
    large: 64,
};

/// Blocks, beside each other.
pub(crate) const BLOCKS: Units = Units {
    count: 64,
    latches: 3,
    kinds: BLOCK,
    outputs: 3,
    joined: None,
};

/// These blocks leave as many active nodes as a pulse is shared out for.
const MANY_BLOCKS: Units = Units {
    count: 4096,
    latches: 3,
    kinds: BLOCK,
    outputs: 3,
    joined: None,
};

/// Blocks that are joined by their last gates.
const TWO_CHAINS: Units = Units {
    count: 8192,
    latches: 3,
    kinds: BLOCK,
    outputs: 3,
    joined: Some(FanIn::Kind(2)),
};

const RACES: Units = Units {
    count: 2048,
    latches: 7,
    kinds: RACE,
    outputs: 5,
    joined: None,
};

/// Six pairs of latches, and the gate of each pair, which is an output. So is the second latch of
/// each second pair.
const SIX_PAIRS: &[u8] =
    b"aag 30 12 12 9 6\n2\n4\n6\n8\n10\n12\n14\n16\n18\n20\n22\n24\n26 2\n28 4\n30 6\n32 8\n34 10\n36 12\n38 14\n40 16\n42 18\n44 20\n46 22\n48 24\n50\n52\n54\n56\n58\n60\n32\n40\n48\n50 28 26\n52 32 30\n54 36 34\n56 40 38\n58 44 42\n60 48 46\n";

/// Returns the number of gates of a set, if there is one.
fn gates_of(shown: Result<Option<ClosedSet>, NoMemory>) -> Option<usize> {
    match shown {
        Ok(Some(set)) => Some(set.vars().len()),
        Ok(None) => None,
        Err(_) => None,
    }
}

/// Returns the number of gates of the greatest least set that a crew shows, or none.
fn shown_gates<R: Threads + Sync, G: PhaseGate>(
    rt: &R,
    alloc: Global,
    circuit: &Circuit,
    crew: &Crew<G>,
    sizes: Sizes,
    flow: &mut UnitFlow,
) -> Option<usize> {
    let keep = Keep::none();
    let greatest = Choice::Greatest;
    match Frame::new(alloc, circuit, &keep) {
        Ok(frame) => {
            let shown = chosen_by_sizes(rt, alloc, &frame, greatest, crew, sizes, flow);
            drop(frame);
            gates_of(shown)
        }
        Err(_) => None,
    }
}

/// Returns true if two workers meet in the first and the last of these phases, which are of the
/// first two. They are to show a set of `gates` gates.
fn meet<R: Threads + Sync>(
    rt: &R,
    alloc: Global,
    circuit: &Circuit,
    sizes: Sizes,
    phases: [u64; 2],
    gates: usize,
) -> bool {
    let crew = Crew::new(2, MeetingGate::new());
    let mut flow = UnitFlow::none(alloc);
    let shown = shown_gates(rt, alloc, circuit, &crew, sizes, &mut flow);
    drop(flow);
    let [first, last] = phases;
    (shown == Some(gates)) & crew.gate().saw_both(first) & crew.gate().saw_both(last)
}

/// Returns true if they do on the circuit of a text.
fn meet_in<R: Threads + Sync>(
    rt: &R,
    alloc: Global,
    text: &[u8],
    sizes: Sizes,
    phases: [u64; 2],
    gates: usize,
) -> bool {
    match read_aag(alloc, text) {
        Ok(circuit) => {
            let holds = meet(rt, alloc, &circuit, sizes, phases, gates);
            drop(circuit);
            holds
        }
        Err(_) => false,
    }
}

/// Returns true if they do on the circuit of units.
fn meet_on<R: Threads + Sync>(
    rt: &R,
    alloc: Global,
    units: &Units,
    sizes: Sizes,
    phases: [u64; 2],
    gates: usize,
) -> bool {
    match units.circuit(alloc) {
        Ok(circuit) => {
            let holds = meet(rt, alloc, &circuit, sizes, phases, gates);
            drop(circuit);
            holds
        }
        Err(_) => false,
    }
}

/// Returns true if `workers` workers show a set of `gates` gates by the flow `wanted`, from nothing
/// and then along itself.
fn finds<R: Threads + Sync>(
    rt: &R,
    alloc: Global,
    circuit: &Circuit,
    workers: u32,
    sizes: Sizes,
    gates: usize,
    wanted: &[GateFlow],
) -> bool
    requires some { 0 < workers }
    requires few { workers ≤ 64 }
{
    let crew = Crew::new(workers, OpenGate);
    let mut flow = UnitFlow::none(alloc);
    let shown = shown_gates(rt, alloc, circuit, &crew, sizes, &mut flow);
    let same = flow.gates.as_slice() == wanted;
    let again = shown_gates(rt, alloc, circuit, &crew, sizes, &mut flow);
    drop(flow);
    (shown == Some(gates)) & same & (again == Some(gates))
}

/// Returns true if one, three, seven and sixty-four workers find the flow that two find.
fn find_the_same<R: Threads + Sync>(
    rt: &R,
    alloc: Global,
    circuit: &Circuit,
    sizes: Sizes,
    gates: usize,
) -> bool {
    let crew = Crew::new(2, OpenGate);
    let mut flow = UnitFlow::none(alloc);
    let shown = shown_gates(rt, alloc, circuit, &crew, sizes, &mut flow);
    let same = finds(rt, alloc, circuit, 1, sizes, gates, flow.gates.as_slice())
        & finds(rt, alloc, circuit, 3, sizes, gates, flow.gates.as_slice())
        & finds(rt, alloc, circuit, 7, sizes, gates, flow.gates.as_slice())
        & finds(rt, alloc, circuit, 64, sizes, gates, flow.gates.as_slice());
    drop(flow);
    (shown == Some(gates)) & same
}

/// Returns true if they do so on the circuit of units.
fn find_the_same_on<R: Threads + Sync>(
    rt: &R,
    alloc: Global,
    units: &Units,
    sizes: Sizes,
    gates: usize,
) -> bool {
    match units.circuit(alloc) {
        Ok(circuit) => {
            let same = find_the_same(rt, alloc, &circuit, sizes, gates);
            drop(circuit);
            same
        }
        Err(_) => false,
    }
}

#[test]
fn two_workers_meet_in_the_first_pulse_of_a_small_circuit(rt: HostRuntime) {
    assert!(rt; meet_in(&rt, rt.alloc(), TWO_LATCHES, Sizes::OF_RUN, [0, 1], 1));
}

#[test]
fn two_workers_meet_in_a_pulse_of_many_active_nodes(rt: HostRuntime) {
    assert!(rt; meet_on(&rt, rt.alloc(), &MANY_BLOCKS, Sizes::OF_RUN, [0, 1], 12_288));
}

#[test]
fn two_workers_own_components_at_the_same_moment(rt: HostRuntime) {
    assert!(rt; meet_on(&rt, rt.alloc(), &BLOCKS, SHARED, [0, 0], 192));
}

#[test]
fn two_workers_share_the_pulses_of_a_large_component(rt: HostRuntime) {
    assert!(rt; meet_on(&rt, rt.alloc(), &TWO_CHAINS, SMALL, [1, 1], 24_576));
}

#[test]
fn parts_have_the_same_flow_for_every_number_of_workers(rt: HostRuntime) {
    assert!(rt; find_the_same_on(&rt, rt.alloc(), &BLOCKS, SHARED, 192));
}

// In the fourth pulse two units are before the third gate of each of 2048 races, and one is before
// the sixth. So 4096 nodes are active, and the pulse is shared out. The third gate keeps a unit,
// and the sixth pushes there. It has to see the label of before, in whichever range that is.
#[test]
fn pulses_leave_the_same_flow_for_every_number_of_workers(rt: HostRuntime) {
    assert!(rt; find_the_same_on(&rt, rt.alloc(), &RACES, WHOLE, 16_384));
}

// A gate takes the unit of its second latch if both wait. With the marks of another pair it does so
// if that latch is an output. Then the first latch's unit stays, since it can go nowhere but
// through the gate, and one unit fewer leaves. In all, six leave at gates and three at latches. As
// many latches are left after a move over all gates, so the greatest least set has these.
#[test]
fn each_part_has_marks_of_its_own(rt: HostRuntime) {
    assert!(rt; meet_in(&rt, rt.alloc(), SIX_PAIRS, EACH, [0, 0], 6));
}

// As the head of `Sizes::OF_RUN` says. Several workers cut a circuit of 2^19 latches and gates into
// parts of 2^13, one worker one of 2^22. A part of over 2^16 is large. A size that nothing reaches
// would change no set.
#[test]
fn a_run_cuts_from_the_sizes_that_are_told(rt: HostRuntime) {
    let Sizes {
        circuit,
        alone,
        part,
        large,
    } = Sizes::OF_RUN;
    assert!(rt; (circuit == 524_288) & (alone == 4_194_304));
    assert!(rt; (part == 8192) & (large == 65_536));
}

// Its routes would be others.
#[test]
fn one_worker_whose_routes_are_told_cuts_no_circuit(rt: HostRuntime) {
    assert!(rt; Sizes::OF_ROUTES.alone == usize::MAX);
    assert!(rt; Sizes::OF_ROUTES.circuit == Sizes::OF_RUN.circuit);
}
