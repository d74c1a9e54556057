//! A watcher is called as each stage of a run of frames begins, for callers that show how far a run
//! is, or measure it.
//!
//! Each watcher chooses the relation that says of which stages it was notified so far. By it a run
//! states its notifications, in order.
ghost use Rattle.std.specs.Prelude.{List, ⊤, [], ◌∷◌};
ghost use Rattle.frame_runs.specs.Stages.{Notifies, Notification, notification_of};

use aig_graph::Aig;

/// The stage of a run that begins.
#[derive(Clone, Copy)]
pub enum Stage<'a> {
    /// Cleans the circuit that was read.
    Cleaning,
    /// Looks for the set of the next frame.
    Looking {
        /// The number of frames that were taken before.
        taken: usize,
        /// The graph that is searched for the set. A watcher counts its latches with a known reset
        /// and its gates if it needs them.
        aig: &'a Aig,
    },
    /// Moves latches over the set that was found, and cleans.
    Moving,
    /// Writes the circuit.
    Writing,
}

/// Sees a run under way. The answer doesn't depend on what it does.
///
/// `enter` is called as each stage begins, in order, on the thread of the call. A stage ends as the
/// next one begins, and the last stage ends with the call.
pub trait FrameWatcher {
    /// The watcher has been notified of these stages.
    ghost was_notified: { Self → List Notification → Type 0 };

    fn enter(&mut self, stage: Stage<'_>)
        ensures { Notifies was_notified self.old self.new (notification_of stage.entry ∷ []) };

    /// Hears, after the last frame, how many sets of the run were found by a maximum flow of a
    /// network. No flow of units showed those sets. This is no stage.
    fn count_networks(&mut self, networks: u32)
        ensures { Notifies was_notified self.old self.new [] };
}

/// A watcher that sees nothing.
#[derive(Clone, Copy)]
pub struct NoWatcher;

impl FrameWatcher for NoWatcher {
    ghost was_notified = { λ _ _. ⊤ };

    fn enter(&mut self, _stage: Stage<'_>) {}

    fn count_networks(&mut self, _networks: u32) {}
}
