//! Cleaning with latches held by their names.
ghost use Rattle.std.specs.Prelude.{IfOk};
ghost use Rattle.aig_graph.specs.Keep.{NoneMissing, held_in, names_of};
ghost use Rattle.aig_graph.specs.Streams.{SameStreams};
ghost use Rattle.cleaned_circuits.specs.Cleaned.{Cleans};

use crate::cleaning::{Cleaned, clean};
use aig_graph::{Circuit, NoMemory, keep_by_names};
use std::alloc::Global;

/// Cleans a circuit as [`clean`] does, with the latches of these names held. The circuit has
/// latches of all of them.
pub fn clean_by_names(
    alloc: Global,
    circuit: &Circuit,
    names: &[Vec<u8>],
) -> Result<Cleaned, NoMemory>
    requires { NoneMissing (names_of names.now) circuit.now }
    ensures cleaned { IfOk result (λ c. Cleans c.circuit
        (held_in (names_of names.now) circuit.now) circuit.now c.kept_free) }
    ensures streams { IfOk result (λ c. SameStreams circuit.now c.circuit c.kept_free) }
{
    // That the held latches are among the circuit's is what its readers ensure.
    circuit.known();
    let keep = keep_by_names(alloc, circuit, names)?;
    clean(alloc, circuit, &keep)
}
