//! What a watcher is notified of in a run, in order.
ghost use Rattle.std.specs.Prelude.{⊤};

use crate::circuits::{CHAINS, options};
use aag_text::Counted;
use aig_binary::{AnyReader, read_circuit};
use frames::{FrameWatcher, Stage, run_spelt};
use pulse::{Crew, OpenGate};
use std::alloc::Global;
use std::test::*;
use std::thread::Threads;

/// The number of stages of a run so far, and whether each was that of the chains' two frames. Once
/// it is known, also the number of sets that a network found.
#[derive(Drop)]
struct Stages {
    count: u32,
    are_wanted: bool,
    networks: Option<u32>,
}

/// Returns true if a stage of the chains' run is the one with this number. A look for a set is told
/// the number of frames that were taken, and of known latches and gates.
fn is_stage(number: u32, stage: Stage<'_>) -> bool {
    match stage {
        Stage::Cleaning => number == 0,
        Stage::Looking { taken, aig } => {
            let latches = aig.known_latches() as usize;
            let in_turn = number as usize == taken.saturating_mul(2).saturating_add(1);
            in_turn & (latches.saturating_add(taken) == 4) & (aig.gates().len() == 1)
        }
        Stage::Moving => (number == 2) | (number == 4),
        Stage::Writing => number == 6,
    }
}

impl FrameWatcher for Stages {
    ghost was_notified = { λ _ _. ⊤ };

    fn enter(&mut self, stage: Stage<'_>) {
        self.are_wanted = self.are_wanted & is_stage(self.count, stage);
        self.count = self.count.wrapping_add(1);
    }

    fn count_networks(&mut self, networks: u32) {
        // after the last move, before the circuit is written
        self.are_wanted = self.are_wanted & (self.count == 6);
        self.networks = Some(networks);
    }
}

/// Returns true if a watcher of the chains is notified of each stage of both frames.
fn tells_each_stage<R: Threads + Sync>(rt: &R, alloc: Global) -> bool {
    let Ok(spelt) = read_circuit(&mut Counted::new(CHAINS), &mut AnyReader::new(alloc)) else {
        return false;
    };
    let options = options(alloc, 8);
    let crew = Crew::new(1, OpenGate);
    let mut writer = Counted::new(Vec::new(alloc));
    let mut stages = Stages {
        count: 0,
        are_wanted: true,
        networks: None,
    };
    let ended = run_spelt(rt, alloc, spelt, &mut writer, &options, &crew, &mut stages);
    let has_ended = ended.is_ok();
    drop(ended);
    has_ended & stages.are_wanted & (stages.count == 7) & (stages.networks == Some(0))
}

#[test]
fn a_watcher_is_notified_of_each_stage(rt: HostRuntime) {
    assert!(rt; tells_each_stage(&rt, rt.alloc()));
}
