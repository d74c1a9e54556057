//! The latches that a run holds.
ghost use Rattle.std.specs.Prelude.{ℕ, ◌≡◌, IfOk, OnOk, IsErrOf};
ghost use Rattle.frame_runs.specs.Named.{AreLatchesBy, IsFirstMissingBy, IsFirstNoLatchBy, NoneMissingBy, kept_by};
ghost use Rattle.frame_runs.specs.declared.errors.RetimeError.TheVariants.{NoSuchLatch, NoSuchName};

use crate::errors::RetimeError;
use crate::options::Options;
use aig_graph::{Circuit, Keep, hold};
use std::alloc::Global;

/// Finds the latches that the options hold, by name and by position.
///
/// They are looked up once, as a run begins. Each step of the run says where they stand afterwards.
///
/// # Errors
///
/// `NoSuchLatch` if a position is no latch's; this is found first. `NoSuchName` if no latch has a
/// name. `NoMemory` if memory is refused.
pub fn hold_by(alloc: Global, circuit: &Circuit, options: &Options) -> Result<Keep, RetimeError>
    ensures keep { IfOk result (λ keep. keep ≡ kept_by options.now circuit.now) }
    ensures latches { OnOk result (AreLatchesBy options.now circuit.now) }
    ensures none_missing { OnOk result (NoneMissingBy options.now circuit.now) }
    ensures no_latch { (place : ℕ) → IsErrOf result (NoSuchLatch place)
        → IsFirstNoLatchBy options.now circuit.now place }
    ensures missing { (place : ℕ) → IsErrOf result (NoSuchName place)
        → IsFirstMissingBy options.now circuit.now place }
{
    let names = options.keep.as_slice();
    let keep = hold(alloc, circuit, names, options.keep_latches.as_slice())?;
    Ok(keep)
}
