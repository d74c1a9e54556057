//! Rows of latches: in a row each latch but the last is read by the next one alone, and all take
//! part.

use aig_graph::Memory;
use backward_sets::{Draft, Literal, entry, has_mark, number, set_mark};
use checked_tables::put_if_covered;

/// What stands for a latch that nothing reads.
const UNREAD: u32 = 0;

/// What stands for a latch that something else than a latch reads, or that several read.
const ELSEWHERE: u32 = u32::MAX;

/// The place of no latch.
const NOWHERE: u32 = u32::MAX;

/// By place of a latch, the place plus one of the only latch that reads it. Also whether it is the
/// first of its row.
#[derive(Drop)]
pub(crate) struct Links {
    readers: Vec<u32>,
    firsts: Vec<bool>,
}

impl Links {
    /// Returns the rows of a draft.
    pub fn of(memory: &mut Memory, draft: &Draft) -> Links {
        let readers = memory.table(UNREAD, draft.latches.len());
        let firsts = memory.table(false, draft.latches.len());
        let mut links = Links { readers, firsts };
        links.note_all(draft);
        links.mark_firsts(draft);
        links
    }

    /// Notes that something reads a literal, if that is a latch's.
    fn note(&mut self, draft: &Draft, lit: Literal, reader: u32) {
        let place = lit.var().wrapping_sub(draft.first_latch());
        let known = entry(self.readers.as_slice(), place);
        let reader = if known == UNREAD { reader } else { ELSEWHERE };
        put_if_covered(self.readers.as_mut_slice(), place as usize, reader);
    }

    /// Notes what properties, latches and gates read.
    fn note_all(&mut self, draft: &Draft) {
        for place in 0..number(draft.observed.len()) {
            self.note(draft, draft.observed(place), ELSEWHERE);
        }
        for place in 0..draft.many_latches() {
            self.note(draft, draft.latch(place).next, place.wrapping_add(1));
        }
        for var in draft.first_gate()..draft.end() {
            let pair = draft.gate(var);
            self.note(draft, pair.larger, ELSEWHERE);
            self.note(draft, pair.smaller, ELSEWHERE);
        }
    }

    /// Marks the latches that are the first of their rows.
    fn mark_firsts(&mut self, draft: &Draft) {
        for place in 0..draft.many_latches() {
            let before = draft.latch(place).next.var();
            let before = before.wrapping_sub(draft.first_latch());
            let first = self.next(draft, before) != place;
            set_mark(self.firsts.as_mut_slice(), place, first);
        }
    }

    /// Returns true if a latch is the first of its row.
    pub fn is_first(&self, place: u32) -> bool {
        has_mark(self.firsts.as_slice(), place)
    }

    /// Returns the place of the latch after another one in its row, or none if that is the last.
    pub fn next(&self, draft: &Draft, place: u32) -> u32 {
        let reader = entry(self.readers.as_slice(), place);
        let after = reader.wrapping_sub(1);
        let is_linked = (reader != UNREAD)
            & (reader != ELSEWHERE)
            & (after != place)
            & draft.latch(place).takes_part()
            & draft.latch(after).takes_part();
        if is_linked { after } else { NOWHERE }
    }

    /// Returns the number of latches in the row that begins with this one.
    pub fn length(&self, draft: &Draft, first: u32) -> u32 {
        let mut at = first;
        let mut length = 0u32;
        for _ in 0..draft.many_latches() {
            if at == NOWHERE {
                return length;
            }
            length = length.wrapping_add(1);
            at = self.next(draft, at);
        }
        length
    }
}
