//! The share of each worker in a pulse.
ghost use Rattle.std.specs.Prelude.{◌≡◌, ◌<◌, ⊤};
ghost use Rattle.frame_net.specs.FlowNet.{node_count};

use frame_net::Net;
use std::alloc::AllocError;

/// The number of active nodes that are many in a network of any size.
const MANY_ACTIVE: usize = 4096;

/// The number of parts of a pulse. If `handed`, each goes to a worker of the crew; if not, the
/// calling thread makes all of them, as worker 0.
#[derive(Clone, Copy)]
pub(crate) struct Share {
    pub(crate) parts: u32,
    pub(crate) handed: bool,
}

/// The way a phase is made: its share, the gate that each worker passes and leaves, and its number.
/// If `listed`, the lists of the flow's parts are of this flow, so the phase visits the nodes that
/// they name.
pub(crate) struct Phase<'a, G> {
    pub(crate) share: Share,
    pub(crate) gate: &'a G,
    pub(crate) number: u64,
    pub(crate) listed: bool,
}

impl<'a, G> Clone for Phase<'a, G> {
    // Written out: a derived one would clone field by field.
    ghost is_clone = { λ phase copy. copy ≡ phase };

    ghost is_infallible = { λ _. ⊤ };

    fn clone(&self) -> Result<Phase<'a, G>, AllocError> {
        Ok(*self)
    }
}

impl<'a, G> Copy for Phase<'a, G> {}

impl Share {
    ghost use Rattle.pulse.specs.Sharing.{next_share, share_among};

    /// Returns the share with a part for each of `workers` workers.
    pub(crate) fn among(workers: u32) -> Share
        ensures { result ≡ share_among workers }
    {
        Share {
            parts: workers,
            handed: workers > 1,
        }
    }

    /// Returns the share of the next pulse, if `active` nodes are active, or were in the pulse
    /// before. A pulse goes to the crew if at least 4096 nodes are active, or a quarter of all.
    ///
    /// If fewer are, the calling thread goes on over the parts that there are, since to join them
    /// costs a copy of all residuals. They are joined if exact labels are `due`, whose walk visits
    /// all arcs, and is faster in one part.
    pub(crate) fn next(self, net: &Net, active: usize, due: bool, crew: u32) -> Share
        requires some { 0 < crew }
        requires parts { 0 < self.parts }
        ensures share { result ≡ next_share (node_count net.now) active due crew self }
        ensures some { 0 < result.parts }
    {
        let quarter = (net.nodes() as usize).div_ceil(4);
        if active >= quarter.min(MANY_ACTIVE) {
            Share::among(crew)
        } else if due {
            Share::among(1)
        } else {
            Share {
                parts: self.parts,
                handed: false,
            }
        }
    }
}
