//! The links of a node to nodes with lower numbers: at most four, since a gate has two fan-ins,
//! each with two nodes at most. They come by rising number, so that rows are filled in order
//! (`edges`).

/// The links of a node, by the place of the node.
#[derive(Clone, Copy)]
pub enum NodeLinks {
    /// The node after a latch; true if the latch's output leaves the frame.
    AfterLatch(bool),
    /// The node after a gate; true if the gate's output leaves the frame, and the node before the
    /// gate.
    AfterGate(bool, u32),
    /// The node before a gate: the numbers of its fan-ins, the smaller first.
    BeforeGate(u32, u32),
}
