//! A frame: a set is chosen by a flow, wishes are handed down it, and the draft is made anew. If
//! wishes make the border take too many latches, or ways get too long, some gates are frozen, and
//! the flow is asked again. A flow begins with the units of the last one that are still a flow.

use crate::again::Again;
use crate::composing::FrameMap;
use crate::rebuilding::{Rebuilt, rebuild};
use aig_graph::Memory;
use backward_sets::{
    Bordered, Draft, GateUnits, Guide, Wish, Wishes, border_of, count_marks, freeze_long,
    freeze_losers, guide_of, has_mark, is_closed, justify, least_set, levels_of, movable, number,
    set_mark, starts_of, wish_of, wishes_of,
};
use std::mem;

/// The most times that a flow is asked in a frame.
const MOST_TRIES: u32 = 16;

/// The counts of a frame: latches that take part before it and after, gates that moved, and
/// variables that have two latches.
#[derive(Clone, Copy)]
pub struct FrameCounts {
    pub before: u32,
    pub after: u32,
    pub gates: u32,
    pub doubled: u32,
}

/// The draft after a frame, the map of its states to those before, the frame's counts, and the set
/// that the next frame tries first.
#[derive(Drop)]
pub(crate) struct Moved {
    pub draft: Draft,
    pub map: FrameMap,
    pub counts: FrameCounts,
    pub again: Again,
}

/// A set with its wishes, and the number of latches that its border takes.
#[derive(Drop)]
struct Settled {
    set: Bordered,
    wishes: Wishes,
    after: u32,
    doubled: u32,
}

/// The tables of a frame by a draft.
#[derive(Drop)]
struct Frame<'a> {
    draft: &'a Draft,
    starts: Vec<Wish>,
    /// The values that guide wishes, or nothing as long as no set was settled.
    guide: Vec<bool>,
    frozen: Vec<bool>,
    latches: u32,
    bound: Option<u32>,
    /// True if gates were frozen in the last attempt, so that another set may do.
    open: bool,
    /// The units of the last flow by gate, or nothing as long as no flow was asked.
    units: Vec<GateUnits>,
}

/// Freezes the variables that latches of both resets read: they would be border variables with two
/// latches.
fn freeze_doubled(starts: &[Wish], frozen: &mut [bool]) {
    for var in 0..number(starts.len()) {
        set_mark(frozen, var, wish_of(starts, var).is_both());
    }
}

/// Copies marks into a table that has none.
fn copy_marks(marks: &[bool], all: &mut [bool]) {
    for var in 0..number(marks.len()) {
        set_mark(all, var, has_mark(marks, var));
    }
}

/// Returns the number of latches that the border of a set takes, by these wishes.
fn cost(set: &Bordered, wishes: &[Wish]) -> u32 {
    count_marks(set.border.as_slice()).wrapping_add(set.doubled(wishes))
}

/// Returns a set with its border.
fn bordered(memory: &mut Memory, draft: &Draft, inside: Vec<bool>) -> Bordered {
    let border = border_of(memory, draft, inside.as_slice());
    Bordered { inside, border }
}

impl<'a> Frame<'a> {
    fn new(memory: &mut Memory, draft: &'a Draft, bound: Option<u32>) -> Frame<'a> {
        let starts = starts_of(memory, draft);
        let mut frozen = memory.table(false, draft.size());
        freeze_doubled(starts.as_slice(), frozen.as_mut_slice());
        Frame {
            draft,
            starts,
            guide: memory.nothing(),
            frozen,
            latches: draft.taking_part(),
            bound,
            open: false,
            units: memory.nothing(),
        }
    }

    /// Makes the guide, if it isn't there yet.
    fn make_guide(&mut self, memory: &mut Memory) {
        if self.guide.is_empty() {
            self.guide = guide_of(memory, self.draft);
        }
    }

    /// Returns the wishes of a set.
    fn wishes(&mut self, memory: &mut Memory, set: &Bordered) -> Wishes {
        self.make_guide(memory);
        let starts = self.starts.as_slice();
        let mut values = memory.table(false, self.draft.size());
        copy_marks(self.guide.as_slice(), values.as_mut_slice());
        let solves = justify(memory, self.draft, set, starts, values.as_mut_slice());
        let guide = Guide {
            values: values.as_slice(),
            solves,
        };
        wishes_of(memory, self.draft, set, starts, &guide)
    }

    /// Returns a set with its wishes.
    fn settle(&mut self, memory: &mut Memory, set: Bordered) -> Settled {
        let wishes = self.wishes(memory, &set);
        let doubled = set.doubled(wishes.of.as_slice());
        Settled {
            after: count_marks(set.border.as_slice()).wrapping_add(doubled),
            doubled,
            set,
            wishes,
        }
    }

    /// Returns true if a draft has a way that is too long.
    fn is_long(&self, memory: &mut Memory, draft: &Draft) -> bool {
        match self.bound {
            Some(bound) => levels_of(memory, draft) > bound,
            None => false,
        }
    }

    /// Returns the result of a move, after gates that nothing reads are dropped.
    fn made(&self, memory: &mut Memory, mut rebuilt: Rebuilt, settled: &Settled) -> Moved {
        let inside = settled.set.inside.as_slice();
        let (marks, units) = rebuilt.sweep(memory, inside, self.draft, self.units.as_slice());
        let (draft, map) = rebuilt.into_draft_and_map();
        Moved {
            draft,
            map,
            counts: FrameCounts {
                before: self.latches,
                after: settled.after,
                gates: count_marks(settled.set.inside.as_slice()),
                doubled: settled.doubled,
            },
            again: Again {
                marks,
                saved: self.latches.saturating_sub(settled.after),
                units,
            },
        }
    }

    /// Returns the result of the move over a set, or none if a way gets too long.
    fn moved(&self, memory: &mut Memory, settled: &Settled) -> Option<Moved> {
        let (set, wishes) = (&settled.set, &settled.wishes);
        let rebuilt = rebuild(memory, self.draft, set, wishes, settled.after);
        if self.is_long(memory, &rebuilt.draft) {
            None
        } else {
            Some(self.made(memory, rebuilt, settled))
        }
    }

    /// Returns true if the last set may move again.
    fn may_repeat(&self, memory: &mut Memory, again: &Again) -> bool {
        let may = movable(memory, self.draft, self.frozen.as_slice());
        !again.is_empty() & is_closed(self.draft, may.as_slice(), again.marks.as_slice())
    }

    /// Moves a set, if its border takes at most `most` latches.
    fn moved_within(&mut self, memory: &mut Memory, set: Bordered, most: u32) -> Option<Moved> {
        let settled = self.settle(memory, set);
        if settled.after > most {
            None
        } else {
            self.moved(memory, &settled)
        }
    }

    /// Moves the last set again, if that saves at least the number of latches that it saved then.
    fn move_last(&mut self, memory: &mut Memory, again: &Again) -> Option<Moved> {
        let most = self.latches.saturating_sub(again.saved);
        let mut inside = memory.table(false, self.draft.size());
        copy_marks(again.marks.as_slice(), inside.as_mut_slice());
        let set = bordered(memory, self.draft, inside);
        if cost(&set, self.starts.as_slice()) > most {
            None
        } else {
            self.moved_within(memory, set, most)
        }
    }

    /// Freezes gates so that ways don't get too long.
    fn shorten(&mut self, memory: &mut Memory) {
        if let Some(bound) = self.bound {
            self.open = freeze_long(memory, self.draft, bound, self.frozen.as_mut_slice());
        }
    }

    /// Freezes gates so that fewer variables have both wishes.
    fn give_way(&mut self, memory: &mut Memory, settled: &Settled) {
        self.open = freeze_losers(
            memory,
            self.draft,
            &settled.set,
            &settled.wishes,
            self.starts.as_slice(),
            self.frozen.as_mut_slice(),
        );
    }

    /// Moves a set, if that saves latches and no way gets too long; else freezes gates.
    fn attempt(&mut self, memory: &mut Memory, settled: &Settled) -> Option<Moved> {
        if settled.after >= self.latches {
            self.give_way(memory, settled);
            return None;
        }
        let moved = self.moved(memory, settled);
        if moved.is_none() {
            self.shorten(memory);
        }
        moved
    }

    /// Returns the set that a flow chooses, and the number of latches that its border takes by the
    /// starts.
    fn least(&mut self, memory: &mut Memory) -> (Vec<bool>, u32) {
        let may = movable(memory, self.draft, self.frozen.as_slice());
        let starts = self.starts.as_slice();
        least_set(memory, self.draft, may.as_slice(), starts, &mut self.units)
    }

    /// Moves the set that a flow chooses.
    fn attempt_next(&mut self, memory: &mut Memory) -> Option<Moved> {
        self.open = false;
        let (inside, units) = self.least(memory);
        if units >= self.latches {
            return None;
        }
        let set = bordered(memory, self.draft, inside);
        let settled = self.settle(memory, set);
        self.attempt(memory, &settled)
    }

    /// Asks a flow for sets until one moves, no gate was frozen, or [`MOST_TRIES`] were tried. The
    /// first flow begins with the units of the last frame's.
    fn search(&mut self, memory: &mut Memory, again: &mut Again) -> Option<Moved> {
        let units = mem::replace(&mut again.units, memory.nothing());
        drop(mem::replace(&mut self.units, units));
        for _ in 0..MOST_TRIES {
            match self.attempt_next(memory) {
                None if self.open => {}
                found => return found,
            }
        }
        None
    }

    /// Moves the last set again, or one that a flow chooses.
    fn run(&mut self, memory: &mut Memory, again: &mut Again) -> Option<Moved> {
        let last = if self.may_repeat(memory, again) {
            self.move_last(memory, again)
        } else {
            None
        };
        match last {
            None => self.search(memory, again),
            found => found,
        }
    }
}

/// Moves latches backward once, if that saves some.
pub(crate) fn next_frame(
    memory: &mut Memory,
    draft: &Draft,
    bound: Option<u32>,
    again: &mut Again,
) -> Option<Moved> {
    let mut frame = Frame::new(memory, draft, bound);
    frame.run(memory, again)
}
