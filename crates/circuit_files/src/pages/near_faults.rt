ghost use Rattle.std.specs.Prelude.{◌≡◌, IfOk, map, slice_get};
ghost use Rattle.circuit_files.specs.pages.Faults.{name_of};
ghost use Rattle.circuit_files.specs.pages.Nearest.{edits, nearest_fault};

use crate::pages::named_fault::Fault;
use crate::pages::near_names::{edits, nearest_of};
use std::alloc::{AllocError, Global};

/// Counts the edits to the name of each of the faults.
fn edits_to_faults(alloc: Global, name: &[u8], faults: &[Fault]) -> Result<Vec<usize>, AllocError>
    ensures { IfOk result (λ counts. counts.items
        ≡ map (λ fault. edits name.now (name_of fault)) faults.now) }
{
    let mut counts = Vec::new(alloc);
    for fault in faults {
        counts.push(edits(alloc, name, fault.name().as_bytes())?)?;
    }
    Ok(counts)
}

fn fault_at(faults: &[Fault], place: usize) -> Option<Fault>
    ensures { result ≡ slice_get faults.now place }
{
    faults.get(place).copied()
}

impl Fault {
    /// Returns the fault whose name is the nearest to one that no fault has, if any name is near.
    pub fn nearest(alloc: Global, name: &str) -> Result<Option<Fault>, AllocError>
        ensures { IfOk result (λ found. found ≡ nearest_fault name.now) }
    {
        let faults = Fault::all();
        let counts = edits_to_faults(alloc, name.as_bytes(), faults)?;
        match nearest_of(counts.as_slice()) {
            Some(place) => Ok(fault_at(faults, place)),
            None => Ok(None),
        }
    }
}
