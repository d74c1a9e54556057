//! Reading circuits, whatever the spelling of their files.
ghost use Rattle.std.specs.Prelude.{◌≡◌, IfOk};
ghost use Rattle.aig_binary.specs.declared.reading.SpeltCircuit.{SpeltCircuit};
ghost use Rattle.command_endings.specs.Sources.{IsCircuitAt};
ghost use Rattle.simulation_commands.specs.Reading.{ArePair};

use aig_binary::SpeltCircuit;
use aig_graph::Circuit;
use circuit_files::{Failure, circuit_at};
use counted_io::{CountedRead, Source};
use std::alloc::Global;
use std::rt::Files;

/// Two circuits, in the order in which they were read.
#[derive(Drop)]
pub struct Pair {
    pub first: SpeltCircuit,
    pub second: SpeltCircuit,
}

/// Reads the circuit.
pub(crate) fn read_circuit<'a, R: Files, I: CountedRead>(
    rt: &R,
    alloc: Global,
    source: Source<'a>,
    stdin: &mut I,
) -> Result<Circuit, Failure<'a>>
    ensures { IfOk result (λ circuit. (spelt : SpeltCircuit) × (circuit ≡ spelt.circuit)
        × IsCircuitAt source.entry (I.input stdin.old) (I.input stdin.new) spelt) }
{
    match circuit_at(rt, alloc, source, stdin) {
        Ok(spelt) => Ok(spelt.circuit),
        Err(failure) => Err(failure),
    }
}

/// Reads both circuits, in this order.
///
/// # Errors
///
/// The failure of the first one that can't be read.
pub fn pair_at<'a, R: Files, I: CountedRead>(
    rt: &R,
    alloc: Global,
    first: Source<'a>,
    second: Source<'a>,
    stdin: &mut I,
) -> Result<Pair, Failure<'a>>
    ensures { IfOk result (ArePair first.entry second.entry (I.input stdin.old)
        (I.input stdin.new)) }
{
    let first = circuit_at(rt, alloc, first, stdin)?;
    match circuit_at(rt, alloc, second, stdin) {
        Ok(second) => Ok(Pair { first, second }),
        Err(failure) => {
            drop(first);
            Err(failure)
        }
    }
}
