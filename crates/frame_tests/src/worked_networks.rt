//! The two networks that were worked by hand, each made once: arcs, distances, pulses and runs.
use crate::arcs::are_as_worked;
use crate::between_pulses::sends_both_units;
use crate::circuits::TWO_LATCHES;
use crate::distances::start_as_worked;
use crate::nets::{FOUR_LATCHES, built, net_of_text};
use crate::phase_gates::{each_crew_passes, second_pulse_is_shared, two_workers_meet};
use crate::runs::end_as_worked;
use crate::worked_pulses::{follow_after_eleven, follow_states};
use aag_text::read_aag;
use aig_graph::NoMemory;
use frame_net::Net;
use std::alloc::Global;
use std::test::*;
use std::thread::Threads;

/// Returns true if the first network has its arcs in their rows and its distances at the start. Its
/// pulses and runs have to send what they should.
fn is_first_as_worked<R: Threads + Sync>(rt: &R, alloc: Global, net: &Net) -> bool {
    let arcs = are_as_worked(net);
    let distances = start_as_worked(alloc, net);
    let pulses = follow_states(rt, alloc, net) & sends_both_units(alloc, net);
    let phases = each_crew_passes(rt, alloc, net) & two_workers_meet(rt, alloc, net);
    arcs & distances & pulses & phases & end_as_worked(rt, alloc, net)
}

/// Returns true if the second network relabels after delivery, and its second pulse is handed out.
fn is_second_as_worked<R: Threads + Sync>(rt: &R, alloc: Global, net: &Net) -> bool {
    follow_after_eleven(rt, alloc, net) & second_pulse_is_shared(rt, alloc, net)
}

/// Returns true if the network of a circuit is as worked: that of the first, or of the second.
fn is_as_worked<R: Threads + Sync>(rt: &R, alloc: Global, text: &[u8], is_first: bool) -> bool {
    match net_of_text(alloc, text) {
        Ok(net) => {
            let worked = if is_first {
                is_first_as_worked(rt, alloc, &net)
            } else {
                is_second_as_worked(rt, alloc, &net)
            };
            drop(net);
            worked
        }
        Err(_) => false,
    }
}

/// Returns true if the first network, built of the passable gates of its circuit, has its arcs in
/// their rows.
fn is_built_as_worked(alloc: Global) -> bool {
    match read_aag(alloc, TWO_LATCHES) {
        Ok(circuit) => {
            let net = built(alloc, &circuit);
            drop(circuit);
            has_arcs_as_worked(net)
        }
        Err(_) => false,
    }
}

/// Returns true if a network, if there is one, has its arcs in their rows.
fn has_arcs_as_worked(built: Result<Net, NoMemory>) -> bool {
    match built {
        Ok(net) => {
            let arcs = are_as_worked(&net);
            drop(net);
            arcs
        }
        Err(_) => false,
    }
}

#[test]
fn builds_the_first_network_of_passable_gates(rt: HostRuntime) {
    assert!(rt; is_built_as_worked(rt.alloc()));
}

#[test]
fn goes_through_the_first_network_as_worked(rt: HostRuntime) {
    assert!(rt; is_as_worked(&rt, rt.alloc(), TWO_LATCHES, true));
}

#[test]
fn relabels_after_delivery_and_hands_out_the_second_pulse_of_the_second(rt: HostRuntime) {
    assert!(rt; is_as_worked(&rt, rt.alloc(), FOUR_LATCHES, false));
}
