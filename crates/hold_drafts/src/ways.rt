//! Which hold each latch is opened by. Of its candidates it is the one that most latches have, so
//! that classes are large.

use crate::candidates::{Candidate, Candidates};
use crate::walks::Split;
use aig_graph::Memory;
use backward_sets::{Literal, has_mark, number};

/// How many latches a hold has to have.
#[derive(Clone, Copy, PartialEq, Eq, Debug)]
pub enum Way {
    /// Two.
    Pairs,
    /// An eighth of all, and two more.
    Eighths,
    /// Two, if outer parts of holds are looked at too.
    Outer,
    /// More than there are: all latches are plain.
    Plain,
}

impl Way {
    /// Returns the least number of latches of a hold, if there are `latches` in all.
    fn least(self, latches: usize) -> u32 {
        match self {
            Way::Pairs | Way::Outer => 2,
            Way::Eighths => number(latches / 8).saturating_add(2),
            Way::Plain => u32::MAX,
        }
    }

    /// Returns the candidates that are looked at.
    fn of(self, candidates: &Candidates) -> &[Candidate] {
        match self {
            Way::Outer => candidates.outer.as_slice(),
            Way::Pairs | Way::Eighths | Way::Plain => candidates.list.as_slice(),
        }
    }
}

/// Takes a candidate in the place of the latch's last one, if more latches have its hold.
fn consider(taken: &mut [Option<Candidate>], candidate: Candidate) {
    let place = candidate.latch as usize;
    if place < taken.len() {
        let better = match taken[place] {
            Some(other) => candidate.many > other.many,
            None => true,
        };
        if better {
            taken[place] = Some(candidate);
        }
    }
}

/// Considers all candidates of which enough latches have the hold.
fn consider_all(
    taken: &mut [Option<Candidate>],
    list: &[Candidate],
    least: u32,
    only: Option<&[bool]>,
) {
    for place in 0..list.len() {
        let candidate = list[place];
        let may = match only {
            Some(marks) => has_mark(marks, candidate.latch),
            None => true,
        };
        if may && candidate.many >= least {
            consider(taken, candidate);
        }
    }
}

/// Returns by latch how it is opened, or nothing if it stays plain. If there are marks, only marked
/// latches are opened.
pub(crate) fn splits_of(
    memory: &mut Memory,
    candidates: &Candidates,
    latches: usize,
    way: Way,
    only: Option<&[bool]>,
) -> Vec<Option<Split>> {
    let mut taken = memory.table(None, latches);
    let list = way.of(candidates);
    consider_all(taken.as_mut_slice(), list, way.least(latches), only);
    let mut splits = memory.list(latches);
    for place in 0..taken.len() {
        let split = match taken[place] {
            Some(candidate) => Some(candidate.split),
            None => None,
        };
        memory.push(&mut splits, split);
    }
    splits
}

/// Returns the hold of a latch, or none if it stays plain.
fn hold_at(splits: &[Option<Split>], place: usize) -> Literal {
    if place < splits.len() {
        match splits[place] {
            Some(split) => split.hold,
            None => Literal::NONE,
        }
    } else {
        Literal::NONE
    }
}

/// Returns true if [`Way::Outer`] opens one of the latches by another hold than [`Way::Pairs`].
pub fn opens_otherwise(memory: &mut Memory, candidates: &Candidates, latches: usize) -> bool {
    let pairs = splits_of(memory, candidates, latches, Way::Pairs, None);
    let outer = splits_of(memory, candidates, latches, Way::Outer, None);
    for place in 0..latches {
        if hold_at(pairs.as_slice(), place) != hold_at(outer.as_slice(), place) {
            return true;
        }
    }
    false
}
