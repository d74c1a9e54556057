//! Loads are simplified by what is known while their latches load: an enable is 1 in all that
//! stands before them. Else a gate that reads the enable once more keeps latches from moving.

use crate::candidates::Candidate;
use crate::contexts::{Context, conjuncts_of, contains, context_of};
use crate::literals::{TRUE, literal_at, opposite, set_literal};
use crate::sharing::Sharing;
use aig_graph::Memory;
use backward_sets::{Literal, has_mark, number, set_mark};
use checked_tables::put_if_covered;

/// The most contexts by which loads are simplified. Each takes a look at all gates.
const MOST_CONTEXTS: usize = 64;

/// The gates before loads, some of which are simpler in a context.
#[derive(Drop)]
struct Settled {
    first: u32,
    /// The literals that are 1.
    ones: Vec<Literal>,
    /// By gate what stands for it, or none if that isn't known yet.
    stands: Vec<Literal>,
    /// Marks the gates for which something has to stand.
    needed: Vec<bool>,
}

/// Adds to literals that are 1 all conjuncts of each.
fn with_conjuncts(memory: &mut Memory, sharing: &Sharing, lit: Literal) -> Vec<Literal> {
    let mut ones = conjuncts_of(memory, sharing, lit);
    memory.push(&mut ones, lit);
    ones
}

impl Settled {
    /// Returns the gates in a context.
    fn new(memory: &mut Memory, sharing: &Sharing, context: &Context) -> Settled {
        let gates = sharing.gates().len();
        let mut settled = Settled {
            first: sharing.first(),
            ones: with_conjuncts(memory, sharing, opposite(context.left)),
            stands: memory.table(Literal::NONE, gates),
            needed: memory.table(false, gates),
        };
        settled.set_ones();
        settled
    }

    /// Returns a gate's place.
    fn place(&self, lit: Literal) -> u32 {
        lit.var().wrapping_sub(self.first)
    }

    /// Sets what stands for a literal, if it is a gate.
    fn set(&mut self, lit: Literal, stand: Literal) {
        let place = self.place(lit) as usize;
        put_if_covered(self.stands.as_mut_slice(), place, stand.signed_as(lit));
    }

    /// Lets the constant true stand for the literals that are 1.
    fn set_ones(&mut self) {
        for place in 0..number(self.ones.len()) {
            let one = literal_at(self.ones.as_slice(), place);
            self.set(one, TRUE);
        }
    }

    /// Lets the conjuncts of a hold but `left` stand for themselves. Returns false if that isn't so
    /// of one that has to be 1.
    fn keep(&mut self, conjuncts: &[Literal], left: Literal) -> bool {
        for lit in conjuncts {
            let known = self.known(*lit);
            if known == Literal::NONE {
                self.set(*lit, *lit);
            } else if (known != *lit) & (*lit != left) {
                return false;
            }
        }
        true
    }

    /// Returns what stands for a literal, or none if that isn't known yet.
    fn known(&self, lit: Literal) -> Literal {
        let place = self.place(lit);
        if (place as usize) < self.stands.len() {
            let stand = literal_at(self.stands.as_slice(), place);
            if stand == Literal::NONE {
                stand
            } else {
                stand.signed_as(lit)
            }
        } else if contains(self.ones.as_slice(), lit) {
            TRUE
        } else if contains(self.ones.as_slice(), opposite(lit)) {
            Literal::FALSE
        } else {
            lit
        }
    }

    /// Marks the gate of a literal, if nothing stands for it yet.
    fn need(&mut self, lit: Literal) {
        if self.known(lit) == Literal::NONE {
            let place = self.place(lit);
            set_mark(self.needed.as_mut_slice(), place, true);
        }
    }

    /// Marks all gates below those that are needed.
    fn need_all(&mut self, sharing: &Sharing) {
        for place in (0..number(self.needed.len())).rev() {
            if has_mark(self.needed.as_slice(), place) {
                let pair = sharing.gate(self.first.wrapping_add(place));
                self.need(pair.larger);
                self.need(pair.smaller);
            }
        }
    }

    /// Makes what stands for each gate that is needed. Of one whose fan-ins stand for themselves it
    /// is the gate itself.
    fn make_all(&mut self, memory: &mut Memory, sharing: &mut Sharing) {
        for place in 0..number(self.needed.len()) {
            if has_mark(self.needed.as_slice(), place) {
                let own = Literal::of(self.first.wrapping_add(place));
                let pair = sharing.gate(own.var());
                let larger = self.known(pair.larger);
                let smaller = self.known(pair.smaller);
                let same = (larger == pair.larger) & (smaller == pair.smaller);
                let stand = if same {
                    own
                } else {
                    sharing.and(memory, larger, smaller)
                };
                set_literal(self.stands.as_mut_slice(), place, stand);
            }
        }
    }
}

/// Returns the contexts of candidates, rising, each once.
fn contexts_of(memory: &mut Memory, sharing: &Sharing, list: &[Candidate]) -> Vec<u64> {
    let mut keys = memory.nothing();
    for candidate in list {
        if let Some(context) = context_of(memory, sharing, candidate) {
            memory.push(&mut keys, context.key());
        }
    }
    keys.sort_unstable();
    keys.dedup();
    keys
}

/// Returns, for each candidate that has a context, the context's place and then its own, rising.
fn members_of(
    memory: &mut Memory,
    sharing: &Sharing,
    list: &[Candidate],
    contexts: &[u64],
) -> Vec<u64> {
    let mut members = memory.nothing();
    for place in 0..list.len() {
        if let Some(context) = context_of(memory, sharing, &list[place]) {
            if let Ok(at) = contexts.binary_search(&context.key()) {
                let member = u64::from(number(at)) << 32 | u64::from(number(place));
                memory.push(&mut members, member);
            }
        }
    }
    members.sort_unstable();
    members
}

/// Returns the place of a member among the candidates.
fn place_of(member: u64) -> usize {
    (member & 0xffff_ffff) as usize
}

/// Simplifies the loads of the members of one context.
fn settle_members(
    memory: &mut Memory,
    sharing: &mut Sharing,
    list: &mut [Candidate],
    members: &[u64],
    context: &Context,
) {
    let mut settled = Settled::new(memory, sharing, context);
    let conjuncts = conjuncts_of(memory, sharing, context.hold);
    if !settled.keep(conjuncts.as_slice(), context.left) {
        return;
    }
    for member in members {
        let place = place_of(*member);
        if place < list.len() {
            settled.need(list[place].split.load);
        }
    }
    settled.need_all(sharing);
    settled.make_all(memory, sharing);
    for member in members {
        let place = place_of(*member);
        if place < list.len() {
            list[place].split.load = settled.known(list[place].split.load);
        }
    }
}

/// Returns the end of the members of the context at `place`, which begin at `first`.
fn end_of_members(members: &[u64], first: usize, place: usize) -> usize {
    let mut end = first;
    for at in first..members.len() {
        if members[at] >> 32 != u64::from(number(place)) {
            break;
        }
        end = at.wrapping_add(1);
    }
    end
}

/// Simplifies the loads of candidates, each by its context.
pub(crate) fn settle(memory: &mut Memory, sharing: &mut Sharing, list: &mut [Candidate]) {
    let contexts = contexts_of(memory, sharing, list);
    let members = members_of(memory, sharing, list, contexts.as_slice());
    let mut first = 0usize;
    for place in 0..contexts.len().min(MOST_CONTEXTS) {
        let end = end_of_members(members.as_slice(), first, place);
        if first <= end && end <= members.len() {
            let own = &members.as_slice()[first..end];
            settle_members(memory, sharing, list, own, &Context::of(contexts[place]));
        }
        first = end;
    }
}
