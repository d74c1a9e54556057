ghost use Rattle.std.specs.Prelude.{◌≡◌, ◌<◌, IfOk};
ghost use Rattle.aig_graph.specs.declared.literal.TheConstants.{MAX_VARIABLES};
ghost use Rattle.aig_graph.specs.Tables.{table};
ghost use Rattle.witness_circuits.specs.Naming.{place_below};

use std::alloc::{AllocError, Global};

/// Returns the number of an input or latch, if the model has one of this number.
fn place_below(place: u32, count: usize) -> Option<u32>
    ensures { result ≡ place_below count place }
{
    if (place as usize) < count {
        Some(place)
    } else {
        None
    }
}

/// Returns for each of `many` inputs or latches that of the model with its number, if there is one.
///
/// # Errors
///
/// `AllocError` if memory is refused.
pub fn first_places(alloc: Global, many: u32, count: usize) -> Result<Vec<Option<u32>>, AllocError>
    ensures { IfOk result (λ places. places.items ≡ table 0 many (place_below count)) }
{
    let mut places = Vec::with_capacity(alloc, many as usize)?;
    for place in 0..many {
        places.push_reserved(place_below(place, count));
    }
    Ok(places)
}
