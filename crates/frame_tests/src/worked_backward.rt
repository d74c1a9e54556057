//! A circuit whose latches move backward as was worked out by hand, with what a watcher is notified
//! of.
use aag_text::read_aag;
use aig_graph::{Circuit, Keep};
use backward_retiming::{MoveOptions, MoveStage, MoveWatcher, MovedBack, move_back};
use std::alloc::Global;
use std::test::*;

/// A decoder of two inputs whose first line starts at 1: two latches do for its four lines.
const DECODER: &[u8] =
    b"aag 10 2 4 4 4\n2\n4\n6 14 1\n8 16\n10 18\n12 20\n6\n8\n10\n12\n14 4 2\n16 5 2\n18 4 3\n20 5 3\n";

/// The stages that a run notified of: those that were wanted so far, or another.
#[derive(Drop)]
struct Seen {
    stages: u32,
    is_wanted: bool,
}

/// Returns true if the stage with a number is the wanted one. A set is looked for in four latches,
/// then in the two that are left, and the result is checked.
fn is_stage(number: u32, stage: MoveStage) -> bool {
    match stage {
        MoveStage::Looking {
            taken,
            latches,
            gates,
        } => {
            let first = (number == 0) & (taken == 0) & (latches == 4);
            let second = (number == 1) & (taken == 1) & (latches == 2);
            (first | second) & (gates == 4)
        }
        MoveStage::Checking => number == 2,
        MoveStage::Writing => false,
    }
}

impl MoveWatcher for Seen {
    fn begin(&mut self, stage: MoveStage) {
        self.is_wanted = self.is_wanted & is_stage(self.stages, stage);
        self.stages = self.stages.wrapping_add(1);
    }
}

/// Returns true if two latches are left, and a map of their gates is shown.
/// `tests/cases/backward/decoder.case` has the texts.
fn is_wanted(moved: &MovedBack) -> bool {
    moved.is_shown
        & (moved.circuit.aig().latches().len() == 2)
        & (moved.circuit.aig().gates().len() == 4)
        & (moved.map.aig().gates().len() == 4)
}

fn becomes(alloc: Global, circuit: Circuit, seen: &mut Seen) -> bool {
    let options = MoveOptions {
        frames: 1 << 28,
        levels: None,
    };
    match move_back(alloc, circuit, &Keep::none(), &options, seen) {
        Ok(moved) => {
            let wanted = is_wanted(&moved);
            drop(moved);
            wanted
        }
        Err(_) => false,
    }
}

fn moves(alloc: Global) -> bool {
    let mut seen = Seen {
        stages: 0,
        is_wanted: true,
    };
    match read_aag(alloc, DECODER) {
        Ok(circuit) => becomes(alloc, circuit, &mut seen) & seen.is_wanted & (seen.stages == 3),
        Err(_) => false,
    }
}

#[test]
fn moves_latches_as_worked_by_hand(rt: HostRuntime) {
    assert!(rt; moves(rt.alloc()));
}
