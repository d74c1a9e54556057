//! One value for each variable of a set and its border, by which latches start as they do. It is
//! found by unit propagation, and a search that goes back a bounded number of times. The search
//! looks at the gates that are to be 0 and have no fan-in that is 0, from the last one down. It
//! first tries the fan-in that is 0 in a guide.

use crate::border::Bordered;
use crate::drafts::{Draft, Pair};
use crate::literals::Literal;
use crate::starts::Wish;
use crate::tables::has_mark;
use crate::values::Values;
use aig_graph::Memory;
use checked_tables::{entry_or, put_if_there};

/// The most times that the search goes back.
const MOST_BACK: u32 = 1000;

/// A choice. There were `count` values before it, and the search was at `look`. `choice` is the
/// literal that it made 0, or none if the other way was taken.
#[derive(Clone, Copy)]
struct Decision {
    count: u32,
    choice: Literal,
    look: u32,
}

impl Decision {
    /// Stands for no choice.
    const NONE: Decision = Decision {
        count: 0,
        choice: Literal::NONE,
        look: 0,
    };
}

/// A search for values.
#[derive(Drop)]
struct Search<'a> {
    values: Values<'a>,
    /// At most one for each gate: the gate of a choice isn't open as long as the choice stands.
    decisions: Vec<Decision>,
    /// The number of decisions that stand.
    depth: u32,
    /// No gate from this variable on is open.
    look: u32,
    back: u32,
}

/// Returns the decision at `place`.
fn decision_at(decisions: &[Decision], place: u32) -> Decision {
    entry_or(decisions, place as usize, Decision::NONE)
}

/// Puts a decision at `place`.
fn set_decision(decisions: &mut [Decision], place: u32, decision: Decision) {
    put_if_there(decisions, place as usize, decision);
}

/// Returns true if a literal is 0 in a guide.
fn is_zero(guide: &[bool], lit: Literal) -> bool {
    has_mark(guide, lit.var()) == lit.is_negated()
}

/// Returns the fan-in that is made 0 first.
fn choice_of(guide: &[bool], pair: &Pair) -> Literal {
    if !is_zero(guide, pair.larger) & is_zero(guide, pair.smaller) {
        pair.smaller
    } else {
        pair.larger
    }
}

impl<'a> Search<'a> {
    /// Returns a search without choices.
    fn new(
        memory: &mut Memory,
        draft: &'a Draft,
        set: &'a Bordered,
        starts: &'a [Wish],
    ) -> Search<'a> {
        Search {
            values: Values::none(memory, draft, set, starts),
            decisions: memory.table(Decision::NONE, draft.gates.len()),
            depth: 0,
            look: draft.end(),
            back: 0,
        }
    }

    /// Returns true if a fan-in of a gate that is to be 0 can still be made 0, and isn't yet.
    fn is_waiting(&self, lit: Literal) -> bool {
        !self.values.of(lit).zero & !self.values.is_both(lit.var())
    }

    /// Returns true if a gate of the set is to be 0, and no fan-in is yet.
    fn is_open(&self, set: &Bordered, var: u32, pair: &Pair) -> bool {
        set.has(var)
            & self.values.of(Literal::of(var)).zero
            & self.is_waiting(pair.larger)
            & self.is_waiting(pair.smaller)
    }

    /// Goes down to the last gate that is open. Returns true if there is one.
    fn find_open(&mut self, draft: &Draft, set: &Bordered) -> bool {
        for _ in draft.first_gate()..self.look {
            let var = self.look.wrapping_sub(1);
            if self.is_open(set, var, &draft.gate(var)) {
                return true;
            }
            self.look = var;
        }
        false
    }

    /// Gives a literal a value; if it is 0, the other way is still open. Returns true if nothing
    /// contradicts.
    fn decide(&mut self, choice: Literal, value: bool) -> bool {
        let decision = Decision {
            count: self.values.count(),
            choice: if value { Literal::NONE } else { choice },
            look: self.look,
        };
        set_decision(self.decisions.as_mut_slice(), self.depth, decision);
        self.depth = self.depth.wrapping_add(1);
        self.values.assume(choice, value)
    }

    /// Takes back the last choice that can be made otherwise, and those after it. Returns its
    /// literal, or none if there is no such choice.
    fn retract(&mut self) -> Literal {
        for _ in 0..self.depth {
            self.depth = self.depth.wrapping_sub(1);
            let decision = decision_at(self.decisions.as_slice(), self.depth);
            self.values.forget(decision.count);
            self.look = decision.look;
            if decision.choice != Literal::NONE {
                return decision.choice;
            }
        }
        Literal::NONE
    }

    /// Goes back until nothing contradicts. Returns false if that isn't reached.
    fn mend(&mut self) -> bool {
        for _ in self.back..MOST_BACK {
            self.back = self.back.wrapping_add(1);
            let choice = self.retract();
            if choice == Literal::NONE {
                return false;
            }
            if self.decide(choice, true) {
                return true;
            }
        }
        false
    }

    /// Makes choices until no gate is open. Returns false if that isn't reached.
    fn run(&mut self, draft: &Draft, set: &Bordered, guide: &[bool]) -> bool {
        for _ in 0..u64::MAX {
            if !self.find_open(draft, set) {
                return true;
            }
            let pair = draft.gate(self.look.wrapping_sub(1));
            if !self.decide(choice_of(guide, &pair), false) && !self.mend() {
                return false;
            }
        }
        false
    }

    /// Searches, and writes the values that are found over those of a guide. Returns true if such
    /// are found.
    fn justify(&mut self, draft: &Draft, set: &Bordered, guide: &mut [bool]) -> bool {
        let found = self.values.begin() && self.run(draft, set, guide);
        if found {
            self.values.write_over(guide);
        }
        found
    }
}

/// Writes values over those of a guide by which all latches start as they do. Returns false if none
/// are found; then the guide stays as it is.
pub fn justify(
    memory: &mut Memory,
    draft: &Draft,
    set: &Bordered,
    starts: &[Wish],
    guide: &mut [bool],
) -> bool {
    let mut search = Search::new(memory, draft, set, starts);
    search.justify(draft, set, guide)
}
