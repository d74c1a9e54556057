//! The set that was moved last, in its copies of now. The number of latches that a frame saves
//! doesn't rise from frame to frame. So a set that saves as many as the last one did is as good as
//! any, and no flow is needed to find it.

use crate::copies::{VERSIONS, Version, copy_of};
use aig_graph::Memory;
use backward_sets::{GateUnits, Literal, count_marks, entry, has_mark, number, set_mark};

/// Marks of the copies of the gates that were moved last, by variable, and the number of latches
/// that this saved. If a flow chose them, its units follow, by gate.
#[derive(Drop)]
pub(crate) struct Again {
    pub marks: Vec<bool>,
    pub saved: u32,
    pub units: Vec<GateUnits>,
}

impl Again {
    /// Returns the set of no gate.
    pub fn none(memory: &mut Memory) -> Again {
        Again {
            marks: memory.nothing(),
            saved: 0,
            units: memory.nothing(),
        }
    }

    /// Returns true if there is no set to be moved again.
    pub fn is_empty(&self) -> bool {
        count_marks(self.marks.as_slice()) == 0
    }
}

/// Where the copies of variables stand in a draft.
#[derive(Clone, Copy)]
pub(crate) struct Copies<'a> {
    /// The variable of the draft's first gate.
    pub first: u32,
    /// The copies, as they were numbered when they were made.
    pub copies: &'a [Literal],
    /// By that number the one in the draft.
    pub numbers: &'a [u32],
}

impl Copies<'_> {
    /// Marks the copy of a variable in a version, if it is a gate.
    fn mark(&self, var: u32, version: Version, marks: &mut [bool]) {
        let made = copy_of(self.copies, var, version);
        let number = entry(self.numbers, made.var());
        if number >= self.first {
            set_mark(marks, number, true);
        }
    }

    /// Marks the copies of the gates of the set `inside`.
    pub fn mark_all(&self, inside: &[bool], marks: &mut [bool]) {
        for var in 0..number(inside.len()) {
            if has_mark(inside, var) {
                for place in 0..VERSIONS {
                    self.mark(var, Version::of(place), marks);
                }
            }
        }
    }
}
