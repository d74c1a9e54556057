//! How near a latch stands below its own next literal. A walk goes down only where the latch is
//! near enough, so it ends at once if a latch reads nothing of itself.

use crate::choices::choice_of;
use crate::sharing::Sharing;
use aig_graph::Memory;
use backward_sets::{Literal, entry, number, set_entry};
use checked_tables::entry_or;

/// The most steps from a next literal down to its latch.
pub(crate) const MOST_STEPS: u32 = 10;

/// The most gates that are visited for a latch: all within the steps before the last.
const MOST_VISITED: usize = 1 << 10;

/// Stands for a gate that wasn't visited.
const UNSEEN: u32 = u32::MAX;

/// Stands for a gate from which the latch isn't reached.
const FAR: u32 = u32::MAX - 1;

/// The variables that a step goes down to from a gate.
#[derive(Clone, Copy)]
struct Below {
    first: u32,
    second: u32,
}

/// The steps down to a latch from the gates that were visited. A step goes over a gate, or over a
/// multiplexer to one of its sides.
#[derive(Drop)]
pub(crate) struct Nearness {
    first_gate: u32,
    /// The variable of the latch.
    own: u32,
    /// By gate the number of steps, [`UNSEEN`] or [`FAR`].
    steps: Vec<u32>,
    /// Room for [`MOST_VISITED`].
    visited: Vec<u32>,
}

impl Nearness {
    /// Returns tables for gates, none of which is visited.
    pub fn new(memory: &mut Memory, first_gate: u32, gates: usize) -> Nearness {
        let steps = memory.table(UNSEEN, gates);
        let visited = memory.list(MOST_VISITED);
        Nearness {
            first_gate,
            own: 0,
            steps,
            visited,
        }
    }

    /// Returns the entry of a gate, or [`FAR`] if a variable is no gate.
    fn mark(&self, var: u32) -> u32 {
        entry_or(
            self.steps.as_slice(),
            var.wrapping_sub(self.first_gate) as usize,
            FAR,
        )
    }

    /// Sets the entry of a gate.
    fn set_mark(&mut self, var: u32, mark: u32) {
        let place = var.wrapping_sub(self.first_gate);
        set_entry(self.steps.as_mut_slice(), place, mark);
    }

    /// Returns the number of steps from a variable down to the latch, or more than
    /// [`MOST_STEPS`] if it isn't reached.
    pub fn steps(&self, var: u32) -> u32 {
        if var == self.own { 0 } else { self.mark(var) }
    }

    /// Returns the number of gates that were visited.
    fn many(&self) -> u32 {
        number(self.visited.len())
    }

    /// Forgets the gates that were visited.
    fn forget(&mut self) {
        for place in 0..self.many() {
            let var = entry(self.visited.as_slice(), place);
            self.set_mark(var, UNSEEN);
        }
        self.visited.truncate(0);
    }

    /// Visits a variable, if it is a gate that wasn't visited. Returns true if it is the latch.
    fn visit(&mut self, var: u32) -> bool {
        let has_room = self.visited.len() < MOST_VISITED;
        if self.mark(var) == UNSEEN && has_room && self.visited.push(var).is_ok() {
            self.set_mark(var, FAR);
        }
        var == self.own
    }

    /// Visits the variables below each gate that was visited from `begin` on. Returns true if the
    /// latch is among them.
    fn descend(&mut self, sharing: &Sharing, begin: u32) -> bool {
        let mut found = false;
        for place in begin..self.many() {
            let below = below_gate(sharing, entry(self.visited.as_slice(), place));
            let first = self.visit(below.first);
            let second = self.visit(below.second);
            found = found | first | second;
        }
        found
    }

    /// Visits all gates near below a variable. Returns true if the latch is reached.
    fn visit_all(&mut self, sharing: &Sharing, next: u32) -> bool {
        let mut found = self.visit(next);
        let mut begin = 0u32;
        for _ in 0..MOST_STEPS {
            let end = self.many();
            let reached = self.descend(sharing, begin);
            found = found | reached;
            begin = end;
        }
        found
    }

    /// Counts the steps of the gates that were visited, those of lower gates first.
    fn count(&mut self, sharing: &Sharing) {
        self.visited.sort_unstable();
        for place in 0..self.many() {
            let var = entry(self.visited.as_slice(), place);
            let below = below_gate(sharing, var);
            let least = self.steps(below.first).min(self.steps(below.second));
            if least < MOST_STEPS {
                self.set_mark(var, least.wrapping_add(1));
            }
        }
    }

    /// Counts the steps from the gates below `next` down to the latch `own`. Returns true if it is
    /// reached.
    pub fn seek(&mut self, sharing: &Sharing, own: u32, next: u32) -> bool {
        self.forget();
        self.own = own;
        let found = self.visit_all(sharing, next);
        if found {
            self.count(sharing);
        }
        found
    }
}

/// Returns the variables that a step goes down to from a gate.
fn below_gate(sharing: &Sharing, var: u32) -> Below {
    match choice_of(sharing, Literal::of(var)) {
        Some(choice) => Below {
            first: choice.then.var(),
            second: choice.other.var(),
        },
        None => {
            let pair = sharing.gate(var);
            Below {
                first: pair.larger.var(),
                second: pair.smaller.var(),
            }
        }
    }
}
