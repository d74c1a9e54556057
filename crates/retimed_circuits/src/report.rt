use aig_graph::{Circuit, Sequence};
use certificates::{Certificate, MergedLatch};

/// A frame: a move of latches forward over a set of gates.
#[derive(Clone, Copy, Debug, PartialEq, Eq)]
pub struct FrameReport {
    /// How many latches with a known reset the cleaned circuit had.
    pub before: u32,
    /// How many known latches there are right after the move.
    pub after: u32,
    /// How many gates the latches moved over.
    pub moved: u32,
}

/// A cleaned and retimed circuit, and what was done.
#[derive(Drop)]
pub struct Retimed {
    /// The circuit after the last frame, cleaned.
    pub circuit: Circuit,
    /// For each free latch its place, from 0, among the free latches of the circuit that was read.
    pub kept_free: Sequence<u32>,
    /// How many latches the circuit that was read has.
    pub read_latches: u32,
    /// The latches of the cleaned circuit that were merged before the first frame, in order, and
    /// what each reads as. `None` if merging wasn't asked for.
    pub merged: Option<Sequence<MergedLatch>>,
    /// The frames taken, in order.
    pub frames: Sequence<FrameReport>,
    /// If certificates were wanted, one of each circuit that a frame was taken of. One of the last
    /// circuit follows, unless the limit of frames ended the run.
    pub certificates: Sequence<Certificate>,
}
