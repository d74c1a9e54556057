use aig_graph::{Choice, Sequence};
use certificates::{Certificate, MergedLatch};

/// The certificates of a round of a retiming, frame by frame.
#[derive(Drop)]
pub struct CertPart {
    /// The latches that read as others before the first frame, if the part lists them.
    pub merged: Option<Sequence<MergedLatch>>,
    pub blocks: Sequence<Certificate>,
}

/// The certificates of a retiming, round by round.
#[derive(Drop)]
pub struct CertFile {
    pub choice: Choice,
    pub parts: Sequence<CertPart>,
}
