//! A region that is cut, and which of its parts workers draw, each to work on it alone. No worker
//! owns a part that is larger than half of a worker's share: pulses of the whole crew work on it.

use crate::parts::Parts;
use crate::sizes::Sizes;
use unit_starts::Region;

/// A region that is cut, and its parts: lent to all workers.
#[derive(Clone, Copy)]
pub(crate) struct Cut<'a> {
    pub region: Region<'a>,
    pub parts: &'a Parts,
    /// A part with more places is large.
    most: usize,
}

impl<'a> Cut<'a> {
    /// Returns the cut for these workers and sizes. A part is large if it has over half of a
    /// worker's share, and over `sizes.large` places. Fewer aren't worth pulses of a crew.
    pub fn of(region: Region<'a>, parts: &'a Parts, workers: u32, sizes: Sizes) -> Cut<'a> {
        let share = parts.all_places() / workers.max(1) as usize;
        Cut {
            region,
            parts,
            most: sizes.large.max(share / 2),
        }
    }

    /// Returns true if part `part` is large.
    pub fn is_large(&self, part: usize) -> bool {
        self.parts.places(part).len() > self.most
    }
}
