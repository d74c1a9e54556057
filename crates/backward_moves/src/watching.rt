//! The calls of a run of frames as each of its stages begins, for callers that show how far it is.
//! The draft doesn't depend on the watcher.

/// A stage that a run begins.
#[derive(Clone, Copy)]
pub enum MoveStage {
    /// Looks for the set of the next frame, and moves latches over it.
    Looking {
        /// The number of frames that were taken before.
        taken: usize,
        /// The latches with a known reset of the draft in which the set is looked for.
        latches: u32,
        /// The draft's gates.
        gates: usize,
    },
    /// Makes the circuit and the map of its states of the draft, and checks them.
    Checking,
    /// Writes them.
    Writing,
}

/// Sees a run under way. `begin` is called as each stage begins, in order.
pub trait MoveWatcher {
    fn begin(&mut self, stage: MoveStage);
}
