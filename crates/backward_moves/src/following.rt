//! The units of a flow after a move. Each gate hands its units on to the gate that it becomes. If
//! several take its place, the first has them. They needn't be a flow of the new network.

use crate::again::Copies;
use crate::copies::{VERSIONS, Version, copy_of, literal_at};
use aig_graph::Memory;
use backward_sets::{Draft, GateUnits, Literal, Pair, entry, number};
use checked_tables::put_if_there;

/// What becomes of variables in a frame.
#[derive(Clone, Copy)]
pub(crate) struct Following<'a> {
    pub copies: Copies<'a>,
    /// By variable its replacement outside of the set, numbered as the copies are.
    pub stands: &'a [Literal],
}

impl Following<'_> {
    /// Returns the variable of a copy; after those comes the replacement outside of the set.
    fn became(&self, var: u32, place: u32) -> u32 {
        let made = if place < VERSIONS {
            copy_of(self.copies.copies, var, Version::of(place))
        } else {
            literal_at(self.stands, var)
        };
        entry(self.copies.numbers, made.var())
    }

    /// Returns the gate that a gate becomes, or 0 if there is none.
    fn gate(&self, var: u32) -> u32 {
        for place in 0..VERSIONS + 1 {
            let own = self.became(var, place);
            if own >= self.copies.first {
                return own;
            }
        }
        0
    }

    /// Returns true if a variable became `own`.
    fn is(&self, var: u32, own: u32) -> bool {
        for place in 0..VERSIONS + 1 {
            if self.became(var, place) == own {
                return true;
            }
        }
        false
    }

    /// Returns true if the fan-ins of a gate changed places.
    fn swaps(&self, before: &Pair, after: &Pair) -> bool {
        !self.is(before.larger.var(), after.larger.var())
            & !self.is(before.smaller.var(), after.smaller.var())
    }

    /// Hands the units of each gate of the draft `before` on.
    fn put_all(&self, before: &Draft, units: &[GateUnits], after: &Draft, all: &mut [GateUnits]) {
        for place in 0..units.len() {
            let var = before.first_gate().wrapping_add(number(place));
            let own = self.gate(var);
            if own >= self.copies.first {
                let swaps = self.swaps(&before.gate(var), &after.gate(own));
                let units = units[place].swapped_if(swaps);
                put_if_there(all, own.wrapping_sub(self.copies.first) as usize, units);
            }
        }
    }

    /// Returns the units of the gates of the draft `after`, from those of the draft `before`. If
    /// there are none, returns nothing.
    pub fn units(
        &self,
        memory: &mut Memory,
        before: &Draft,
        units: &[GateUnits],
        after: &Draft,
    ) -> Vec<GateUnits> {
        if units.is_empty() {
            return memory.nothing();
        }
        let mut all = memory.table(GateUnits::NONE, after.gates.len());
        self.put_all(before, units, after, all.as_mut_slice());
        all
    }
}
