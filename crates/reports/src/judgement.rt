use crate::agreement::Agreement;
use aig_graph::Sequence;
use certificate_audits::Audit;

/// The judgement of a file of certificates.
#[derive(Drop)]
pub struct Judgement {
    /// The bound on levels, if there was one.
    pub bound: Option<u32>,
    /// How many merged latches the file has, if it says which latches were merged.
    pub merged: Option<u64>,
    /// The audits of the parts that were judged, in order.
    pub audits: Sequence<Audit>,
    /// The comparison of a file with the circuit that the parts end in, if one was given.
    pub agreement: Option<Agreement>,
}
