//! The work that a guess may do, counted where it is done. So a guess is a function of the circuit
//! alone, and no clock is asked.

/// The units of a simulated gate, in all lanes.
pub(crate) const OF_GATE: u64 = 3;

/// Those of an input or a latch, which gets random words.
pub(crate) const OF_LEAF: u64 = 8;

/// Those of a gate that is put into a graph with shared gates.
pub(crate) const OF_SHARING: u64 = 32;

/// Those of a gate that a question visits.
pub(crate) const OF_VISIT: u64 = 8;

/// The units of work that are left. A unit takes some three nanoseconds, and up to ten if tables
/// are larger than what a processor keeps near. A reserve is added bit by bit, as latches leave
/// their classes. So where each step parts few, as in a counter, a guess gives up early.
#[derive(Drop)]
pub struct Budget {
    left: u64,
    reserve: u64,
    /// How much of the reserve a latch gives that leaves its class.
    gain: u64,
}

impl Budget {
    /// Returns a budget of `units` units, and a reserve that `latches` latches share.
    pub fn of(units: u64, reserve: u64, latches: usize) -> Budget {
        Budget {
            left: units,
            reserve,
            gain: reserve / (latches as u64).max(1),
        }
    }

    /// Returns the number of units that are left, with the reserve.
    pub(crate) fn total(&self) -> u64 {
        self.left.saturating_add(self.reserve)
    }

    /// Returns true if none is left.
    pub(crate) fn is_spent(&self) -> bool {
        self.left == 0
    }

    /// Takes `units` units for each of `count`, or all that are left.
    pub(crate) fn spend(&mut self, count: usize, units: u64) {
        let spent = (count as u64).saturating_mul(units);
        self.left = self.left.saturating_sub(spent);
    }

    /// Adds what `latches` latches give that left their classes, unless all is spent.
    pub(crate) fn gain(&mut self, latches: usize) {
        let gained = (latches as u64).saturating_mul(self.gain).min(self.reserve);
        if self.left > 0 {
            self.left = self.left.saturating_add(gained);
            self.reserve = self.reserve.saturating_sub(gained);
        }
    }
}
