//! One bit for each of the 256 sequences of a block.
ghost use Rattle.std.specs.Prelude.{ℕ, ◌≡◌, ◌<◌, ◌==◌, ◌||◌, ◌&&◌, false, true, not, if◌then◌else◌};
ghost use Rattle.lane_sim.specs.Lanes.{lane};
ghost use Rattle.lane_sim.specs.Words.{signed_if};

use crate::kernel::and_lanes;
use std::marker::Model;

/// The sequences of a block.
pub(crate) const LANES: usize = 256;

/// The values of one literal in the lanes of a block: lane `k` is bit `k % 64` of word `k / 64`.
#[derive(Clone, Copy)]
pub(crate) struct Lanes {
    words: [u64; 4],
}

impl Model for Lanes {
    ghost use Rattle.std.specs.Prelude.{ℕ, List};
    ghost use Rattle.lane_sim.specs.Lanes.{AreLanes};

    ghost Value = { List ℕ };

    ghost view = { λ lanes. lanes.words };

    ghost invariant = { λ lanes. AreLanes lanes.words };

    ghost inverse = { λ words. record { words = words } };
}

impl Lanes {
    /// Returns false in each lane.
    pub(crate) fn none() -> Lanes
        ensures { (k : ℕ) → k < 256 → lane result k ≡ false }
    {
        Lanes { words: [0; 4] }
    }

    /// Returns true in each lane.
    pub(crate) fn all() -> Lanes
        ensures { (k : ℕ) → k < 256 → lane result k ≡ true }
    {
        Lanes {
            words: [u64::MAX; 4],
        }
    }

    /// Returns the value in a lane.
    pub(crate) fn get(self, place: usize) -> bool
        requires { place < 256 }
        ensures { result ≡ lane self place }
    {
        (self.words[place / 64] >> (place % 64)) & 1 == 1
    }

    /// Returns these lanes, with lane `place` true if `value` is, else as it was.
    pub(crate) fn with(self, place: usize, value: bool) -> Lanes
        requires { place < 256 }
        ensures { (k : ℕ) → k < 256 → lane result k ≡ ((k == place && value) || lane self k) }
    {
        let mut words = self.words;
        words[place / 64] |= u64::from(value) << (place % 64);
        Lanes { words }
    }

    /// Returns the AND in each lane, each side first negated if its flag is set.
    pub(crate) fn and(self, other: Lanes, negated: bool, other_negated: bool) -> Lanes
        ensures { (k : ℕ) → k < 256 → lane result k
            ≡ (signed_if negated (lane self k) && signed_if other_negated (lane other k)) }
    {
        let a = self.words;
        let b = other.words;
        let mut words = [0; 4];
        and_lanes(&mut words, &a, &b, negated, other_negated);
        Lanes { words }
    }

    /// Returns these lanes, each negated if the flag is set.
    pub(crate) fn signed(self, negated: bool) -> Lanes
        ensures { (k : ℕ) → k < 256 → lane result k ≡ signed_if negated (lane self k) }
    {
        self.and(self, negated, negated)
    }
}
