//! The middles of long rows, which are left out of a draft. In a frame they stay as they are, so a
//! frame looks at their ends alone. A row gives some back at the end from which latches go, and
//! gets longer at the end at which new ones come.

use crate::links::Links;
use crate::relaying::relay;
use aig_graph::Memory;
use backward_sets::{Draft, DraftLatch, Literal, number, set_mark};
use checked_tables::{entry_or, put_if_there};
use std::mem;

/// How many latches stay at either end of a row of which some are left out.
const NEAR: u32 = 16;

/// Latches come back if fewer than these stand before them. The steps of a guide are as many.
const LEAST: u32 = 4;

/// A row that has this number of latches in the draft gets shorter.
const MOST: u32 = 48;

/// A latch that is left out, and one more than the number of the next in its list; 0 at the end.
#[derive(Clone, Copy)]
struct Hidden {
    latch: DraftLatch,
    after: u32,
}

impl Hidden {
    /// None.
    const NONE: Hidden = Hidden {
        latch: DraftLatch::NONE,
        after: 0,
    };
}

/// The latches that are left out before another one, in their order. It has the numbers of the
/// first and the last, plus one.
#[derive(Clone, Copy)]
struct List {
    front: u32,
    back: u32,
    many: u32,
}

impl List {
    /// None.
    const NONE: List = List {
        front: 0,
        back: 0,
        many: 0,
    };
}

/// The latches that are left out.
#[derive(Drop)]
pub struct Rows {
    /// Those that came back too.
    hidden: Vec<Hidden>,
    lists: Vec<List>,
    many: u32,
    /// Those that come back now.
    back: Vec<DraftLatch>,
    /// By place of a latch whether it is left out now.
    hides: Vec<bool>,
}

/// Puts a latch at a place.
fn set_latch(latches: &mut [DraftLatch], place: u32, latch: DraftLatch) {
    put_if_there(latches, place as usize, latch);
}

/// Returns the hidden latch with a number from 1 on.
fn hidden_at(hidden: &[Hidden], number: u32) -> Hidden {
    entry_or(hidden, number.wrapping_sub(1) as usize, Hidden::NONE)
}

/// Sets what follows a hidden latch in its list.
fn set_after(hidden: &mut [Hidden], number: u32, after: u32) {
    let Hidden { latch, .. } = hidden_at(hidden, number);
    let place = number.wrapping_sub(1) as usize;
    put_if_there(hidden, place, Hidden { latch, after });
}

/// Puts a list.
fn set_list(lists: &mut [List], number: u32, list: List) {
    put_if_there(lists, number.wrapping_sub(1) as usize, list);
}

impl Rows {
    /// Returns rows of which no latch is left out.
    pub fn none(memory: &mut Memory) -> Rows {
        Rows {
            hidden: memory.nothing(),
            lists: memory.nothing(),
            many: 0,
            back: memory.nothing(),
            hides: memory.nothing(),
        }
    }

    /// Returns the number of latches that are left out.
    pub fn many(&self) -> u32 {
        self.many
    }

    /// Returns the list with a number from 1 on, and none at 0.
    fn list_at(&self, number: u32) -> List {
        let place = number.wrapping_sub(1) as usize;
        entry_or(self.lists.as_slice(), place, List::NONE)
    }

    /// Returns a list with those of another one after it.
    fn joined(&mut self, list: List, other: List) -> List {
        if list.many == 0 {
            return other;
        }
        if other.many == 0 {
            return list;
        }
        set_after(self.hidden.as_mut_slice(), list.back, other.front);
        List {
            front: list.front,
            back: other.back,
            many: list.many.wrapping_add(other.many),
        }
    }

    /// Returns a list with the latches that are left out before another one after it, and then that
    /// one.
    fn appended(&mut self, memory: &mut Memory, list: List, latch: DraftLatch) -> List {
        let before = self.list_at(latch.list);
        let list = self.joined(list, before);
        memory.push(&mut self.hidden, Hidden { latch, after: 0 });
        self.many = self.many.wrapping_add(1);
        let own = number(self.hidden.len());
        let last = List {
            front: own,
            back: own,
            many: 1,
        };
        self.joined(list, last)
    }

    /// Gives a latch the list before it, and has it read the one at a place for now.
    fn hold(&mut self, memory: &mut Memory, draft: &mut Draft, place: u32, list: List, from: u32) {
        let latch = draft.latch(place);
        let before = self.list_at(latch.list);
        let list = self.joined(list, before);
        memory.push(&mut self.lists, list);
        let from = draft.first_latch().wrapping_add(from);
        let held = DraftLatch {
            next: Literal::of(from).signed_as(latch.next),
            list: number(self.lists.len()),
            ..latch
        };
        set_latch(draft.latches.as_mut_slice(), place, held);
    }

    /// Leaves out the middle of the row that begins with a latch, if it is long. Whether it is.
    fn shorten(
        &mut self,
        memory: &mut Memory,
        draft: &mut Draft,
        links: &Links,
        first: u32,
    ) -> bool {
        let length = links.length(draft, first);
        if length < MOST {
            return false;
        }
        let mut at = first;
        for _ in 1..NEAR {
            at = links.next(draft, at);
        }
        let from = at;
        let mut list = List::NONE;
        for _ in NEAR..length.wrapping_sub(NEAR) {
            at = links.next(draft, at);
            list = self.appended(memory, list, draft.latch(at));
            set_mark(self.hides.as_mut_slice(), at, true);
        }
        self.hold(memory, draft, links.next(draft, at), list, from);
        true
    }

    /// Gives back some of the latches that are left out before the one at a place. Their variables
    /// come after all others for now.
    fn give_back(&mut self, memory: &mut Memory, draft: &mut Draft, place: u32, most: u32) {
        let latch = draft.latch(place);
        let mut list = self.list_at(latch.list);
        let mut from = latch.next.var();
        for _ in 0..most.min(list.many) {
            let Hidden { latch: own, after } = hidden_at(self.hidden.as_slice(), list.front);
            let next = Literal::of(from).signed_as(own.next);
            from = draft.end().wrapping_add(number(self.back.len()));
            memory.push(
                &mut self.back,
                DraftLatch {
                    next,
                    list: 0,
                    ..own
                },
            );
            list = List {
                front: after,
                back: list.back,
                many: list.many.wrapping_sub(1),
            };
            self.many = self.many.wrapping_sub(1);
        }
        set_list(self.lists.as_mut_slice(), latch.list, list);
        let held = DraftLatch {
            next: Literal::of(from).signed_as(latch.next),
            list: if list.many > 0 { latch.list } else { 0 },
            ..latch
        };
        set_latch(draft.latches.as_mut_slice(), place, held);
    }

    /// Gives latches back to the row that begins with a latch, if too few stand before those that
    /// are left out.
    fn lengthen(&mut self, memory: &mut Memory, draft: &mut Draft, links: &Links, first: u32) {
        let mut at = first;
        for before in 0..LEAST {
            if draft.latch(at).list > 0 {
                self.give_back(memory, draft, at, NEAR.wrapping_sub(before));
                return;
            }
            at = links.next(draft, at);
        }
    }

    /// Leaves out the middles of rows that are long. Whether there are any.
    fn shorten_all(&mut self, memory: &mut Memory, draft: &mut Draft, links: &Links) -> bool {
        let mut any = false;
        for place in 0..draft.many_latches() {
            if links.is_first(place) {
                let shorter = self.shorten(memory, draft, links, place);
                any = any | shorter;
            }
        }
        any
    }

    /// Gives latches back, or else leaves some out, if rows have changed. Marks are by variable of
    /// the draft.
    pub fn keep_up(&mut self, memory: &mut Memory, draft: &mut Draft, marks: &mut Vec<bool>) {
        let links = Links::of(memory, draft);
        let hides = memory.table(false, draft.latches.len());
        drop(mem::replace(&mut self.hides, hides));
        for place in 0..draft.many_latches() {
            if links.is_first(place) {
                self.lengthen(memory, draft, &links, place);
            }
        }
        if !self.back.is_empty() || self.shorten_all(memory, draft, &links) {
            self.relay(memory, draft, marks);
        }
    }

    /// Gives all latches back.
    pub fn restore(&mut self, memory: &mut Memory, draft: &mut Draft, marks: &mut Vec<bool>) {
        for place in 0..draft.many_latches() {
            if draft.latch(place).list > 0 {
                self.give_back(memory, draft, place, u32::MAX);
            }
        }
        drop(mem::replace(&mut self.hides, memory.nothing()));
        self.relay(memory, draft, marks);
    }

    /// Puts the latches that come back into the draft, and takes out those that are left out.
    fn relay(&mut self, memory: &mut Memory, draft: &mut Draft, marks: &mut Vec<bool>) {
        relay(
            memory,
            draft,
            marks,
            self.back.as_slice(),
            self.hides.as_slice(),
        );
        self.back.truncate(0);
    }
}
