use aig_graph::{Circuit, Sequence};
use certificate_files::CertPart;
use retimed_circuits::FrameReport;

/// A circuit that was cleaned and retimed in rounds. In each of them latches are merged, if that is
/// asked for, and then frames are taken.
#[derive(Drop)]
pub struct Rounds {
    /// The circuit after the last frame, cleaned.
    pub circuit: Circuit,
    /// For each free latch its place, from 0, among the free latches of the circuit that was read.
    pub kept_free: Sequence<u32>,
    /// How many latches the circuit that was read has.
    pub read_latches: u32,
    /// The frames of all rounds, in order.
    pub frames: Sequence<FrameReport>,
    /// For each round the latches that it merged, if that was asked for, and its certificates.
    pub parts: Sequence<CertPart>,
}
