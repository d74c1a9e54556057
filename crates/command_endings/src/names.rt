//! The latches that a command holds in the circuit that it reads.
ghost use Rattle.std.specs.Prelude.{ℕ, ◌≡◌, ◌<◌, All, List, Some, IfOk, length, map, slice_get};
ghost use Rattle.std.specs.Borrow.{Bor};
ghost use Rattle.circuit_files.specs.declared.outcome.Failure.TheVariants as fails;
ghost use Rattle.command_endings.specs.HeldNames.{IsFailureOfHolding, held_by};

use aig_graph::{Circuit, HoldError, Keep, hold};
use circuit_files::Failure;
use command_line::RetimingOptions;
use counted_io::Source;
use std::alloc::{AllocError, Global};

/// Returns the names, each as its bytes.
pub(crate) fn bytes_of_names(alloc: Global, keep: &[&str]) -> Result<Vec<Vec<u8>>, AllocError>
    ensures { IfOk result (λ names. map (λ name. name.items) names.items
        ≡ map (λ name. name.now) keep.now) }
{
    let mut names = Vec::new(alloc);
    for name in keep {
        names.push(name.as_bytes().to_vec(alloc)?)?;
    }
    Ok(names)
}

/// Returns the failure that no latch of the file's circuit has the name with this place.
pub fn missing_name<'a>(path: &'a str, keep: &[&'a str], place: usize) -> Failure<'a>
    ensures { (name : Bor (List ℕ)) → slice_get keep.now place ≡ Some name
        → result ≡ fails.NoSuchName path.entry name }
{
    Failure::NoSuchName(path, keep.get(place).copied().unwrap_or(""))
}

/// Returns the failure that no latch of the file's circuit stands at the position with this number.
pub fn missing_latch<'a>(path: &'a str, positions: &[u32], number: usize) -> Failure<'a>
    ensures { (position : ℕ) → slice_get positions.now number ≡ Some position
        → result ≡ fails.NoSuchLatch path.entry position }
{
    Failure::NoSuchLatch(path, positions.get(number).copied().unwrap_or(0))
}

/// Returns the failure that an error is, of the latches that are to be held in the circuit that is
/// read.
fn failure_of_holding<'a>(
    error: HoldError,
    input: Source<'a>,
    options: &RetimingOptions<'a>,
) -> Failure<'a>
    ensures { IsFailureOfHolding input.entry options.now error result }
{
    match error {
        HoldError::NoMemory => Failure::Memory,
        HoldError::NoSuchName(place) => missing_name(input.name(), options.keep.as_slice(), place),
        HoldError::NoSuchLatch(number) => {
            missing_latch(input.name(), options.keep_latches.as_slice(), number)
        }
    }
}

/// Returns the latches of the circuit that is read that the options hold.
pub fn held_latches<'a>(
    alloc: Global,
    circuit: &Circuit,
    input: Source<'a>,
    options: &RetimingOptions<'a>,
) -> Result<Keep, Failure<'a>>
    ensures held { IfOk result (λ held. held ≡ held_by options.now circuit.now) }
    ensures in_range { IfOk result (λ held. All (λ j. j < length circuit.now.aig.latches) held) }
{
    let keep = options.keep.as_slice();
    let positions = options.keep_latches.as_slice();
    let Ok(names) = bytes_of_names(alloc, keep) else {
        return Err(Failure::Memory);
    };
    match hold(alloc, circuit, names.as_slice(), positions) {
        Ok(held) => Ok(held),
        Err(error) => Err(failure_of_holding(error, input, options)),
    }
}
