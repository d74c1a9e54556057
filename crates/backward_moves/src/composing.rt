//! The map of all frames, composed of the change of each. Latches and gates have names, by which a
//! frame's map says what the latches that went are after it. It says nothing of those that stay.
//! The last frame comes first, so that the gates of each are put once.

use crate::copies::{set_literal, standing};
use crate::shared::{Shared, pair_at};
use aig_graph::Memory;
use backward_sets::{Draft, DraftLatch, Literal, Pair, number};

/// A latch that went in a frame, and the literal of its value after the frame.
#[derive(Clone, Copy)]
pub(crate) struct Gone {
    pub latch: u32,
    pub by: Literal,
}

impl Gone {
    /// Stands for no latch.
    pub const NONE: Gone = Gone {
        latch: 0,
        by: Literal::FALSE,
    };

    /// Returns true if the latch is still there, as itself.
    pub fn stays(self) -> bool {
        self.by == Literal::of(self.latch)
    }
}

/// The values of the latches that went in a frame, by the latches after it: gates over these, and a
/// literal for each that went. Variables are names, and the gates have those from `first` on.
pub(crate) struct FrameMap {
    pub first: u32,
    pub gates: Vec<Pair>,
    pub gone: Vec<Gone>,
}

impl Drop for FrameMap {
    // written out: docs/PROOFS.md, Drops and exits
    fn drop(self) {
        let FrameMap {
            first: _first,
            gates: _gates,
            gone: _gone,
        } = self;
    }
}

impl FrameMap {
    /// Returns the first name that nothing has after the frame.
    pub fn names(&self) -> u32 {
        self.first.wrapping_add(number(self.gates.len()))
    }
}

/// Gates over the latches after all frames, which have the variables from 1 on, and a literal for
/// each latch of the first draft.
#[derive(Drop)]
pub(crate) struct WholeMap {
    pub gates: Vec<Pair>,
    pub outputs: Vec<Literal>,
}

/// Puts the literals of latches, which have the variables from 1 on, by name.
fn put_latches(stands: &mut [Literal], latches: &[DraftLatch]) {
    for place in 0..latches.len() {
        let own = Literal::of(number(place).wrapping_add(1));
        set_literal(stands, latches[place].name, own);
    }
}

/// Puts the literals of the gates of a frame's map.
fn put_gates(stands: &mut [Literal], gates: &mut Shared, map: &FrameMap) {
    let pairs = map.gates.as_slice();
    for place in 0..number(pairs.len()) {
        let pair = pair_at(pairs, place);
        let lit = gates.and(
            standing(stands, pair.larger),
            standing(stands, pair.smaller),
        );
        set_literal(stands, map.first.wrapping_add(place), lit);
    }
}

/// Puts the literals of the latches that went in a frame.
fn put_gone(stands: &mut [Literal], gone: &[Gone]) {
    for place in 0..gone.len() {
        let own = standing(stands, gone[place].by);
        set_literal(stands, gone[place].latch, own);
    }
}

/// Returns the number of gates of the maps of all frames.
fn count_gates(maps: &[FrameMap]) -> usize {
    let mut count = 0usize;
    for map in maps {
        count = count.saturating_add(map.gates.len());
    }
    count
}

/// Puts the literals of the first latches, whose names begin with 1.
fn put_outputs(stands: &[Literal], outputs: &mut [Literal]) {
    for place in 0..outputs.len() {
        outputs[place] = standing(stands, Literal::of(number(place).wrapping_add(1)));
    }
}

/// Returns the map of frames that lead from `first` latches to a draft.
pub(crate) fn composed(
    memory: &mut Memory,
    maps: &[FrameMap],
    first: usize,
    draft: &Draft,
) -> WholeMap {
    let mut stands = memory.table(Literal::FALSE, draft.names as usize);
    let mut outputs = memory.table(Literal::FALSE, first);
    let after = draft.many_latches().wrapping_add(1);
    let mut gates = Shared::after(memory, after, count_gates(maps));
    put_latches(stands.as_mut_slice(), draft.latches.as_slice());
    for place in (0..maps.len()).rev() {
        put_gates(stands.as_mut_slice(), &mut gates, &maps[place]);
        put_gone(stands.as_mut_slice(), maps[place].gone.as_slice());
    }
    put_outputs(stands.as_slice(), outputs.as_mut_slice());
    WholeMap {
        gates: gates.into_gates(),
        outputs,
    }
}
