//! How the second circuit begins.
ghost use Rattle.std.specs.Prelude.{◌≡◌, ◌<◌, All, IfOk, length};
ghost use Rattle.std.specs.List.{slice_index_or};
ghost use Rattle.aig_graph.specs.Graph.{variable};
ghost use Rattle.gate_sharing.specs.Copies.{copied_end, copy_of};
ghost use Rattle.map_checks.specs.Openings.{IsLookAtStart};

use crate::kept::KeptPlaces;
use crate::starting::free_places;
use aig_graph::{Aig, Lit, NoMemory};
use gate_sharing::Copied;
use std::alloc::Global;

/// What a look at step 0 finds.
#[derive(Drop)]
pub(crate) enum Start {
    /// The places of the first circuit's free latches as which those of the second begin.
    Kept(KeptPlaces),
    /// The first latch that doesn't begin as the map says.
    Differs(usize),
}

/// Returns how the latches of the second circuit begin, by the literals of the map over the resets
/// of the first.
pub(crate) fn start_of(
    alloc: Global,
    first: &Aig,
    second: &Aig,
    image: &Copied,
    outputs: &[Lit],
) -> Result<Start, NoMemory>
    requires long { length outputs.now ≡ length second.now.latches }
    requires within { All (λ lit. variable lit < copied_end image.now) outputs.now }
    ensures { IfOk result (IsLookAtStart first.now second.now
        (λ j. copy_of image.now (slice_index_or outputs.now j 0))) }
{
    let free = free_places(alloc, first)?;
    let mut kept = KeptPlaces::none(alloc);
    for (place, latch) in second.latches().iter().enumerate() {
        let lit = image.literal(outputs[place]);
        if !kept.take(first, free.as_slice(), latch, lit)? {
            return Ok(Start::Differs(place));
        }
    }
    Ok(Start::Kept(kept))
}
