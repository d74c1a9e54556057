//! Values of a step that leads near to the state in which latches start. From the reset state a few
//! steps are made under 64 rows of inputs at once. Of all steps the one is kept after which the
//! fewest latches differ from their resets. Many circuits start in a state in which they stay under
//! some inputs, so that a step leads there.

use crate::drafts::Draft;
use crate::literals::Literal;
use crate::tables::{number, set_mark};
use aig_graph::Memory;
use checked_tables::{entry_or, put_if_there};

/// The number of steps that are made.
const STEPS: u32 = 4;

/// Rows of values by variable, a bit in each of 64 lanes, and the rows of the state. `wrong` counts
/// in each lane the latches that would start otherwise.
#[derive(Drop)]
struct Lanes {
    values: Vec<u64>,
    state: Vec<u64>,
    wrong: Vec<u64>,
    seed: u64,
}

/// Returns the row of a variable.
fn row(values: &[u64], var: u32) -> u64 {
    entry_or(values, var as usize, 0)
}

/// Returns the row of a literal.
fn literal_row(values: &[u64], lit: Literal) -> u64 {
    let row = row(values, lit.var());
    if lit.is_negated() { !row } else { row }
}

/// Puts the row of a variable.
fn set_row(values: &mut [u64], var: u32, row: u64) {
    put_if_there(values, var as usize, row);
}

/// Puts the state in which latches have their resets, into one that is 0. A reset that isn't known
/// is 0.
fn reset_state(draft: &Draft, state: &mut [u64]) {
    for place in 0..draft.many_latches() {
        if draft.latch(place).starts_at_1() {
            set_row(state, place, u64::MAX);
        }
    }
}

/// Puts the rows of latches, from a state, and of gates.
fn put_rows(draft: &Draft, state: &[u64], values: &mut [u64]) {
    for place in 0..draft.many_latches() {
        set_row(
            values,
            draft.first_latch().wrapping_add(place),
            row(state, place),
        );
    }
    for var in draft.first_gate()..draft.end() {
        let pair = draft.gate(var);
        let both = literal_row(values, pair.larger) & literal_row(values, pair.smaller);
        set_row(values, var, both);
    }
}

/// Adds one to the count of each lane in which a row is 1. The counts stand in binary: each entry
/// has one of the bits of all counts, the lowest first.
fn count_lanes(counts: &mut [u64], row: u64) {
    let mut carry = row;
    for place in 0..counts.len() {
        if carry == 0 {
            return;
        }
        let bits = counts[place];
        counts[place] = bits ^ carry;
        carry = bits & carry;
    }
}

/// Returns the count of a lane.
fn count_of(counts: &[u64], lane: u32) -> u32 {
    let mut count = 0u32;
    for place in (0..counts.len()).rev() {
        let bit = counts[place].wrapping_shr(lane) % 2 == 1;
        count = count.wrapping_mul(2).wrapping_add(u32::from(bit));
    }
    count
}

/// Puts the state a step later. Counts by lane the latches that aren't held, whose reset is
/// settled, and that don't have that value then.
fn put_state(draft: &Draft, values: &[u64], state: &mut [u64], wrong: &mut [u64]) {
    for place in 0..draft.many_latches() {
        let latch = draft.latch(place);
        let row = literal_row(values, latch.next);
        set_row(state, place, row);
        if latch.is_settled() {
            count_lanes(wrong, if latch.starts_at_1() { !row } else { row });
        }
    }
}

/// Returns the first lane with the least count, and the count.
fn least_lane(counts: &[u64]) -> (u32, u32) {
    let (mut best, mut least) = (0u32, u32::MAX);
    for lane in 0..u64::BITS {
        let count = count_of(counts, lane);
        if count < least {
            best = lane;
            least = count;
        }
    }
    (best, least)
}

/// Writes the values of one lane into `guide`.
fn lane_values(values: &[u64], lane: u32, guide: &mut [bool]) {
    for var in 0..number(values.len()) {
        set_mark(guide, var, row(values, var).wrapping_shr(lane) % 2 == 1);
    }
}

impl Lanes {
    /// Returns rows that are all 0.
    fn new(memory: &mut Memory, draft: &Draft) -> Lanes {
        let values = memory.table(0u64, draft.size());
        let state = memory.table(0u64, draft.latches.len());
        let wrong = memory.table(0u64, u32::BITS as usize);
        Lanes {
            values,
            state,
            wrong,
            seed: 0x9e37_79b9_7f4a_7c15,
        }
    }

    /// Returns the next row of inputs: 0 in the first lane, 1 in the second, else pseudo-random.
    fn input(&mut self) -> u64 {
        self.seed ^= self.seed << 13;
        self.seed ^= self.seed >> 7;
        self.seed ^= self.seed << 17;
        (self.seed & !3) | 2
    }

    /// Makes a step.
    fn step(&mut self, draft: &Draft) {
        for var in 1..draft.first_latch() {
            let row = self.input();
            set_row(self.values.as_mut_slice(), var, row);
        }
        put_rows(draft, self.state.as_slice(), self.values.as_mut_slice());
        self.wrong.fill(0);
        put_state(
            draft,
            self.values.as_slice(),
            self.state.as_mut_slice(),
            self.wrong.as_mut_slice(),
        );
    }

    /// Makes all steps, and writes the values of the best into `guide`.
    fn run(&mut self, draft: &Draft, guide: &mut [bool]) {
        reset_state(draft, self.state.as_mut_slice());
        let mut fewest = u32::MAX;
        for _ in 0..STEPS {
            self.step(draft);
            let (lane, wrong) = least_lane(self.wrong.as_slice());
            if wrong < fewest {
                fewest = wrong;
                lane_values(self.values.as_slice(), lane, guide);
            }
        }
    }
}

/// Returns by variable its value at a step that leads to the resets, or as near as the steps that
/// are tried.
pub fn guide_of(memory: &mut Memory, draft: &Draft) -> Vec<bool> {
    let mut guide = memory.table(false, draft.size());
    let mut lanes = Lanes::new(memory, draft);
    lanes.run(draft, guide.as_mut_slice());
    guide
}
