//! The conditions at the border under which latches start as they do, handed down the set gate by
//! gate. A gate that has to be 1 wishes that both fan-ins are 1. One that has to be 0 wishes that
//! one of them is 0. It takes the fan-in that has the wish already, else the one that a guide has
//! at 0.

use crate::border::Bordered;
use crate::drafts::{Draft, Pair};
use crate::literals::Literal;
use crate::starts::{Wish, add_wish, set_wish, wish_of};
use crate::tables::{has_mark, number, set_mark};
use aig_graph::Memory;

/// The wishes of each variable, and marks of the gates that are to be 0 by their larger fan-in.
#[derive(Drop)]
pub struct Wishes {
    pub of: Vec<Wish>,
    pub by_larger: Vec<bool>,
}

/// The values by which a fan-in is chosen.
#[derive(Clone, Copy)]
pub struct Guide<'a> {
    /// The values that variables had at a step that leads near the start.
    pub values: &'a [bool],
    /// True if these values make all latches start as they do.
    pub solves: bool,
}

/// Returns the price of the wish that a literal is 0, with these wishes.
fn price(wishes: &[Wish], set: &Bordered, guide: &Guide, lit: Literal) -> u32 {
    let value = lit.is_negated();
    let known = wish_of(wishes, lit.var());
    let other = has_mark(guide.values, lit.var()) != value;
    let far = if guide.solves { 1000u32 } else { 30 };
    let inside = if value { 4u32 } else { 2 };
    if known.has(value) {
        return 0;
    }
    (if known.has(!value) { 100u32 } else { 10 })
        .wrapping_add(far.wrapping_mul(u32::from(other)))
        .wrapping_add(inside.wrapping_mul(u32::from(set.has(lit.var()))))
}

/// Copies wishes into a table that has none.
fn copy_wishes(wishes: &[Wish], all: &mut [Wish]) {
    for var in 0..number(wishes.len()) {
        set_wish(all, var, wish_of(wishes, var));
    }
}

impl Wishes {
    /// Adds the wish that `lit` has `value`.
    fn wish(&mut self, lit: Literal, value: bool) {
        add_wish(self.of.as_mut_slice(), lit, value);
    }

    /// Wishes that both fan-ins of a gate are 1, if it is to be 1.
    fn force(&mut self, var: u32, pair: &Pair) {
        if wish_of(self.of.as_slice(), var).one {
            self.wish(pair.larger, true);
            self.wish(pair.smaller, true);
        }
    }

    /// Wishes that the cheaper fan-in of a gate is 0, if it is to be 0.
    fn choose(&mut self, set: &Bordered, guide: &Guide, var: u32, pair: &Pair) {
        let wishes = self.of.as_slice();
        if wish_of(wishes, var).zero {
            let larger = price(wishes, set, guide, pair.larger)
                <= price(wishes, set, guide, pair.smaller);
            set_mark(self.by_larger.as_mut_slice(), var, larger);
            self.wish(if larger { pair.larger } else { pair.smaller }, false);
        }
    }

    /// Hands down the forced wishes, and those that need a choice as well if `chooses`.
    fn hand_down(&mut self, draft: &Draft, set: &Bordered, guide: &Guide, chooses: bool) {
        for var in (draft.first_gate()..draft.end()).rev() {
            if set.has(var) {
                let pair = draft.gate(var);
                self.force(var, &pair);
                if chooses {
                    self.choose(set, guide, var, &pair);
                }
            }
        }
    }
}

/// Hands wishes down a set: first those that are forced, then those that need a choice, with those
/// that they force.
pub fn wishes_of(
    memory: &mut Memory,
    draft: &Draft,
    set: &Bordered,
    starts: &[Wish],
    guide: &Guide,
) -> Wishes {
    let mut wishes = Wishes {
        of: memory.table(Wish::NONE, draft.size()),
        by_larger: memory.table(false, draft.size()),
    };
    copy_wishes(starts, wishes.of.as_mut_slice());
    wishes.hand_down(draft, set, guide, false);
    wishes.hand_down(draft, set, guide, true);
    wishes
}
