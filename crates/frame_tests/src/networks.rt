//! That no network is made for a set that units show, if some of them go on along the last flow.
//! They leave ways back, of which marks of before don't know.
ghost use Rattle.std.specs.Prelude.{⊤};

use crate::circuits::options;
use aag_text::read_aag;
use aig_graph::Circuit;
use frames::{FrameReport, FrameWatcher, GivenCircuit, Rounds, Stage, run_watched};
use pulse::{Crew, OpenGate};
use std::alloc::Global;
use std::test::*;
use std::thread::Threads;

/// A pipelined cipher from which most latches and gates were taken out, with frames of 33 to 26
/// latches and of 26 to 23. In the second one a gate takes a unit that waits. A unit that is left
/// elsewhere can come to the sink by the way back. `tests/cases/json/no_network` has the answer.
const PIPELINE: &[u8] =
    b"aag 66 6 33 1 27\n2\n4\n6\n8\n10\n12\n14 93\n16 4\n18 2\n20 10\n22 48\n24 102\n26 45\n28 108\n30 112\n32 125\n34 64\n36 62\n38 6\n40 18\n42 16\n44 8\n46 0 1\n48 52 1\n50 74 1\n52 12\n54 127 1\n56 128 1\n58 26 1\n60 28 1\n62 30 1\n64 24 1\n66 131 1\n68 34 1\n70 132 1\n72 36 1\n74 52\n76 38\n78 76\n14\n80 68 66\n82 80 71\n84 83 71\n86 84 73\n88 87 67\n90 89 67\n92 91 67\n94 50 46\n96 95 51\n98 96 43\n100 97 42\n102 101 99\n104 54 53\n106 104 40\n108 107 40\n110 57 47\n112 111 20\n114 58 18\n116 114 60\n118 117 18\n120 119 59\n122 121 59\n124 122 18\n126 43 23\n128 38 23\n130 33 17\n132 78 21\n";

/// How many sets a network found, once that is known.
#[derive(Drop)]
struct Networks {
    found: Option<u32>,
}

impl FrameWatcher for Networks {
    ghost was_notified = { λ _ _. ⊤ };

    fn enter(&mut self, _stage: Stage<'_>) {}

    fn count_networks(&mut self, networks: u32) {
        self.found = Some(networks);
    }
}

/// Returns whether there were two frames, from 33 to 26 latches and to 23.
fn has_two_frames(rounds: &Rounds) -> bool {
    match rounds.frames.as_slice() {
        [first, second] => is_frame(first, 33, 26) & is_frame(second, 26, 23),
        _ => false,
    }
}

fn is_frame(report: &FrameReport, before: u32, after: u32) -> bool {
    (report.before == before) & (report.after == after)
}

/// Returns whether a crew takes these frames without a network.
fn takes_frames<R: Threads + Sync>(rt: &R, alloc: Global, circuit: &Circuit, workers: u32) -> bool {
    let crew = Crew::new(workers.clamp(1, 64), OpenGate);
    let mut networks = Networks { found: None };
    let options = options(alloc, 1 << 28);
    let lent = GivenCircuit::Lent(circuit);
    let run = run_watched(rt, alloc, lent, &options, &crew, &mut networks);
    drop(options);
    let taken = match &run {
        Ok(run) => has_two_frames(&run.retimed),
        Err(_) => false,
    };
    drop(run);
    taken & (networks.found == Some(0))
}

/// Returns whether one worker and two do.
fn take_frames<R: Threads + Sync>(rt: &R, alloc: Global) -> bool {
    match read_aag(alloc, PIPELINE) {
        Ok(circuit) => {
            let one = takes_frames(rt, alloc, &circuit, 1);
            let both = one & takes_frames(rt, alloc, &circuit, 2);
            drop(circuit);
            both
        }
        Err(_) => false,
    }
}

#[test]
fn no_network_is_made_where_units_go_on_along_the_last_flow(rt: HostRuntime) {
    assert!(rt; take_frames(&rt, rt.alloc()));
}
