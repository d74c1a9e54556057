//! Each worker of a crew passes the gate of each phase once, and then leaves it once, before it
//! passes the next. Two of them are in a phase at once. Phases count on after a pulse by ranges,
//! and a later pulse is handed to the crew too.
use crate::counting_gate::CountingGate;
use crate::meeting_gates::MeetingGate;
use crate::starts::start;
use crate::worked_pulses::pulses_after_ranges;
use frame_net::Net;
use pulse::{Crew, PhaseGate, run_to_end, run_with_global_relabeling};
use std::alloc::Global;
use std::thread::Threads;

/// Returns the number of pulses that a crew's run makes, or 0 if memory is refused.
fn pulses_of<R: Threads + Sync, G: PhaseGate>(
    rt: &R,
    alloc: Global,
    net: &Net,
    crew: &Crew<G>,
) -> u64 {
    match run_to_end(rt, alloc, net, crew) {
        Ok(end) => {
            let pulses = end.pulses();
            drop(end);
            pulses
        }
        Err(_) => 0,
    }
}

/// Returns true if a crew makes a pulse after one by ranges, from the start.
fn makes_a_pulse_after_ranges<R: Threads + Sync, G: PhaseGate>(
    rt: &R,
    alloc: Global,
    net: &Net,
    crew: &Crew<G>,
) -> bool {
    match start(alloc, net) {
        Ok((mut flow, mut pushes)) => {
            let made = pulses_after_ranges(rt, alloc, net, &mut flow, &mut pushes, crew);
            drop(flow);
            drop(pushes);
            made
        }
        Err(_) => false,
    }
}

/// Returns true if `workers` workers pass and leave both phases of each of the six pulses of a run.
fn sees_all<R: Threads + Sync>(rt: &R, alloc: Global, net: &Net, workers: u32) -> bool {
    match CountingGate::from(alloc, workers, 0) {
        Ok(gate) => {
            let crew = Crew::new(workers.clamp(1, 64), gate);
            let pulses = pulses_of(rt, alloc, net, &crew);
            let saw_all = crew.gate().saw_all(12);
            drop(crew);
            (pulses == 6) & saw_all
        }
        Err(_) => false,
    }
}

/// Returns true if one worker passes and leaves the third and the fourth phase, which are those of
/// the pulse after one by ranges.
fn sees_all_after_ranges<R: Threads + Sync>(rt: &R, alloc: Global, net: &Net) -> bool {
    match CountingGate::from(alloc, 1, 2) {
        Ok(gate) => {
            let crew = Crew::new(1, gate);
            let made = makes_a_pulse_after_ranges(rt, alloc, net, &crew);
            let saw_all = crew.gate().saw_all(4);
            drop(crew);
            made & saw_all
        }
        Err(_) => false,
    }
}

/// Returns true if one worker, which is the calling thread, two, and more workers than nodes do so
/// in a run. One does so after a pulse by ranges.
pub(crate) fn each_crew_passes<R: Threads + Sync>(rt: &R, alloc: Global, net: &Net) -> bool {
    let one = sees_all(rt, alloc, net, 1);
    let two = sees_all(rt, alloc, net, 2);
    let many = sees_all(rt, alloc, net, 7);
    one & two & many & sees_all_after_ranges(rt, alloc, net)
}

/// Returns true if two workers are in each phase of the first pulse at once.
pub(crate) fn two_workers_meet<R: Threads + Sync>(rt: &R, alloc: Global, net: &Net) -> bool {
    let crew = Crew::new(2, MeetingGate::new());
    let pulses = pulses_of(rt, alloc, net, &crew);
    (pulses == 6) & crew.gate().saw_both(0) & crew.gate().saw_both(1)
}

/// Returns true if the second worker has a part in both phases of the second pulse. All four
/// latches of twelve nodes are active in the first, which is over a quarter.
pub(crate) fn second_pulse_is_shared<R: Threads + Sync>(rt: &R, alloc: Global, net: &Net) -> bool {
    match CountingGate::from(alloc, 2, 0) {
        Ok(gate) => {
            let crew = Crew::new(2, gate);
            let ended = run_with_global_relabeling(rt, alloc, net, &crew);
            let has_ended = ended.is_ok();
            drop(ended);
            let saw = crew.gate().saw(4, 1);
            drop(crew);
            has_ended & saw
        }
        Err(_) => false,
    }
}
