//! The greatest and the smallest least set of a circuit that has two, at the end of both runs.
//! `tests/cases/retime` has others.
ghost use Rattle.std.specs.Prelude.{IfOk};
ghost use Rattle.pulse.specs.Conditions.{IsMaxPreflow};

use crate::circuits::is_set;
use crate::nets::net_of_text;
use aag_text::read_aag;
use aig_graph::{Choice, Circuit, Keep};
use cut_cert::{
    chosen_of_network, greatest_cut, maximum_preflow, near_cut, routes, shown_by_network,
};
use frame_net::Net;
use pulse::{Crew, MaxPreflow, OpenGate, run_to_end};
use std::alloc::Global;
use std::test::*;
use std::thread::Threads;

/// Three latches and two gates. Variable 7 is the gate of the first two latches. Variable 8 is the
/// gate of that one and the third latch, and an output, as the third latch is. Two latches are left
/// after a move over the first gate, and as many after one over both.
pub(crate) const TWO_LEAST_SETS: &[u8] =
    b"aag 8 3 3 2 2\n2\n4\n6\n8 2\n10 4\n12 6\n16\n12\n14 10 8\n16 14 12\n";

/// Returns true if there are two routes, by which the smallest has the first gate alone.
fn is_smallest_by_routes(alloc: Global, net: &Net, end: &MaxPreflow) -> bool
    requires { IsMaxPreflow net.now end.now }
{
    match routes(alloc, net, end) {
        Ok(found) => {
            let two = found.len() == 2;
            let set = near_cut(alloc, net, &found);
            drop(found);
            two & is_set(set, &[7])
        }
        Err(_) => false,
    }
}

/// Returns true if the greatest has both gates and the smallest the first, at the end of a run, if
/// it has one.
fn are_both<E: Copy>(alloc: Global, net: &Net, ended: Result<MaxPreflow, E>) -> bool
    requires { IfOk ended (IsMaxPreflow net.now) }
{
    match ended {
        Ok(end) => {
            let greatest = greatest_cut(alloc, net, &end);
            let smallest = is_smallest_by_routes(alloc, net, &end);
            drop(end);
            smallest & is_set(greatest, &[7, 8])
        }
        Err(_) => false,
    }
}

/// Returns true if they are so at the end of the plain run, and of the one with global relabeling.
fn are_both_at_each_end<R: Threads + Sync>(rt: &R, alloc: Global, net: &Net) -> bool {
    let crew = Crew::new(1, OpenGate);
    let plain = are_both(alloc, net, run_to_end(rt, alloc, net, &crew));
    plain & are_both(alloc, net, maximum_preflow(rt, alloc, net, &crew))
}

/// Returns true if they are so for the circuit of the text.
fn are_both_of_text<R: Threads + Sync>(rt: &R, alloc: Global) -> bool {
    match net_of_text(alloc, TWO_LEAST_SETS) {
        Ok(net) => {
            let both = are_both_at_each_end(rt, alloc, &net);
            drop(net);
            both
        }
        Err(_) => false,
    }
}

#[test]
fn smallest_has_the_first_gate_and_greatest_has_both(rt: HostRuntime) {
    assert!(rt; are_both_of_text(&rt, rt.alloc()));
}

/// Returns whether the network of a circuit gives these gates by a choice, with two routes.
fn is_chosen<R: Threads + Sync>(
    rt: &R,
    alloc: Global,
    circuit: &Circuit,
    choice: Choice,
    gates: &[u32],
) -> bool {
    let crew = Crew::new(1, OpenGate);
    let alone = chosen_of_network(rt, alloc, circuit, &Keep::none(), choice, &crew);
    if !is_set(alone, gates) {
        return false;
    }
    match shown_by_network(rt, alloc, circuit, &Keep::none(), choice, &crew) {
        Ok((set, routes)) => {
            let two = routes.len() == 2;
            drop(routes);
            two & is_set(Ok(set), gates)
        }
        Err(_) => false,
    }
}

/// Returns whether the network of the circuit's text does so by either choice.
fn are_chosen<R: Threads + Sync>(rt: &R, alloc: Global) -> bool {
    match read_aag(alloc, TWO_LEAST_SETS) {
        Ok(circuit) => {
            let greatest = is_chosen(rt, alloc, &circuit, Choice::Greatest, &[7, 8]);
            let smallest = is_chosen(rt, alloc, &circuit, Choice::Smallest, &[7]);
            drop(circuit);
            greatest & smallest
        }
        Err(_) => false,
    }
}

#[test]
fn network_has_the_chosen_set_and_its_routes(rt: HostRuntime) {
    assert!(rt; are_chosen(&rt, rt.alloc()));
}
