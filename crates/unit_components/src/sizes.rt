//! The sizes from which on a circuit is cut, and from which on the whole crew works on a part.

/// Numbers of latches and gates.
#[derive(Clone, Copy)]
pub struct Sizes {
    /// A circuit with fewer isn't cut for several workers.
    pub circuit: usize,
    /// A circuit with fewer isn't cut for one worker.
    pub alone: usize,
    /// Each part has at least this number, but for the last one.
    pub part: usize,
    /// A part with no more is worked on by one worker.
    pub large: usize,
}

impl Sizes {
    /// The sizes of a run. A frame of 2^19 places takes long enough that its forks cost little. One
    /// worker gains memory by parts and little time, so it cuts from 2^22 places on. The tables of
    /// a part of 2^13 places fit in a cache. A part of 2^16 is the least of which a crew makes many
    /// pulses.
    pub const OF_RUN: Sizes = Sizes {
        circuit: 1 << 19,
        alone: 1 << 22,
        part: 1 << 13,
        large: 1 << 16,
    };

    /// The sizes of a run whose routes are told. One worker cuts no circuit, since the routes of a
    /// circuit in parts are others.
    pub const OF_ROUTES: Sizes = Sizes {
        alone: usize::MAX,
        ..Sizes::OF_RUN
    };

    /// Returns the least number of places of a circuit that is cut for `workers` workers.
    pub(crate) fn least(&self, workers: u32) -> usize {
        if workers < 2 {
            self.alone
        } else {
            self.circuit
        }
    }
}
