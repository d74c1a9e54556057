//! The reasons for which latches stay, counted when the frames have ended.

use aig_graph::Memory;
use backward_sets::{Draft, DraftLatch, DraftReset, count_marks, freeze_long, has_mark, movable};

/// The numbers of latches that stay, by reason: they add up to all.
#[derive(Clone, Copy)]
pub struct Staying {
    /// The latches whose reset is free.
    pub free: u32,
    /// The others that are held.
    pub held: u32,
    /// The others that read an input, a latch or a constant.
    pub behind_no_gate: u32,
    /// The others behind a gate that may not move: a property reads it, or a free or a held latch,
    /// or such a gate.
    pub read_elsewhere: u32,
    /// If there is a bound, the others behind a gate that would make a path too long.
    pub too_long: Option<u32>,
    /// The others, which could move.
    pub could_move: u32,
    /// The gates that latches may move over.
    pub movable: u32,
    /// True if the frames ended since none leaves fewer latches, and not by their limit.
    pub is_least: bool,
}

impl Staying {
    /// The counts of no latches.
    pub const NONE: Staying = Staying {
        free: 0,
        held: 0,
        behind_no_gate: 0,
        read_elsewhere: 0,
        too_long: None,
        could_move: 0,
        movable: 0,
        is_least: true,
    };

    /// Returns the counts with one latch more behind a gate on too long a path.
    fn with_too_long(self) -> Staying {
        let count = match self.too_long {
            Some(count) => count,
            None => 0,
        };
        Staying {
            too_long: Some(count.wrapping_add(1)),
            ..self
        }
    }
}

/// Marks of the gates of a draft that may move, and of those that may within a bound.
#[derive(Drop)]
struct Gates {
    may: Vec<bool>,
    within: Vec<bool>,
}

impl Gates {
    /// Returns all gates that may move, without a bound and with one.
    fn of(memory: &mut Memory, draft: &Draft, bound: Option<u32>) -> Gates {
        let mut frozen = memory.table(false, draft.size());
        let may = movable(memory, draft, frozen.as_slice());
        if let Some(bound) = bound {
            let _ = freeze_long(memory, draft, bound, frozen.as_mut_slice());
        }
        let within = movable(memory, draft, frozen.as_slice());
        Gates { may, within }
    }

    /// Returns the counts with one latch more.
    fn counted(&self, draft: &Draft, latch: &DraftLatch, counts: Staying) -> Staying {
        let var = latch.next.var();
        if latch.reset == DraftReset::Free {
            let free = counts.free.wrapping_add(1);
            return Staying { free, ..counts };
        }
        if latch.held {
            let held = counts.held.wrapping_add(1);
            return Staying { held, ..counts };
        }
        if var < draft.first_gate() {
            let behind_no_gate = counts.behind_no_gate.wrapping_add(1);
            return Staying {
                behind_no_gate,
                ..counts
            };
        }
        self.counted_behind(var, counts)
    }

    /// Returns the counts with one latch more, which may move and reads the gate `var`.
    fn counted_behind(&self, var: u32, counts: Staying) -> Staying {
        if !has_mark(self.may.as_slice(), var) {
            let read_elsewhere = counts.read_elsewhere.wrapping_add(1);
            return Staying {
                read_elsewhere,
                ..counts
            };
        }
        if !has_mark(self.within.as_slice(), var) {
            return counts.with_too_long();
        }
        let could_move = counts.could_move.wrapping_add(1);
        Staying {
            could_move,
            ..counts
        }
    }
}

/// Returns why the latches of a draft stay, under a bound or without one.
pub(crate) fn staying_of(
    memory: &mut Memory,
    draft: &Draft,
    bound: Option<u32>,
    is_least: bool,
) -> Staying {
    let gates = Gates::of(memory, draft, bound);
    let none = Staying::NONE;
    let mut counts = Staying {
        too_long: match bound {
            Some(_) => Some(0),
            None => None,
        },
        movable: count_marks(gates.may.as_slice()),
        is_least,
        ..none
    };
    for place in 0..draft.many_latches() {
        counts = gates.counted(draft, &draft.latch(place), counts);
    }
    counts
}
