ghost use Rattle.std.specs.Prelude.{◌≡◌, IfOk};
ghost use Rattle.aig_graph.specs.Laws.{all_free};

use aig_graph::{Aig, NoMemory, Sequence};
use std::alloc::Global;

/// Returns the place of each free latch among the free latches, if all stay.
pub fn all_places(alloc: Global, aig: &Aig) -> Result<Sequence<u32>, NoMemory>
    ensures { IfOk result (λ places. places ≡ all_free aig.now) }
{
    let free = aig.free_latches();
    let mut places = Vec::with_capacity(alloc, free as usize)?;
    for place in 0..free {
        places.push_reserved(place);
    }
    Ok(Sequence::from_vec(places))
}
