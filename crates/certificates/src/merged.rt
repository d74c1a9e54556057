use aig_graph::Lit;

/// A latch that reads as another literal, since the two always agree.
#[derive(Clone, Copy, Debug, PartialEq, Eq)]
pub struct MergedLatch {
    /// The latch's variable.
    pub latch: u32,
    /// What it reads as: a constant, or an earlier latch, negated if their resets differ.
    pub reads: Lit,
}
