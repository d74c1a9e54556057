use aig_graph::Keep;

/// A run under way: the circuit that it has come to, and the follower that went with it.
#[derive(Drop)]
pub struct Run<R, F> {
    /// The circuit that the run has come to, and its report so far.
    pub retimed: R,
    /// The latches of it that are held.
    pub keep: Keep,
    /// The follower that went with the run.
    pub follower: F,
    /// The most gates that a path may have, if there is a bound. The options set it for the circuit
    /// that was read.
    pub bound: Option<u32>,
}
