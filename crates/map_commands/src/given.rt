//! What the commands about maps read.
ghost use Rattle.std.specs.Prelude.{IfOk};
ghost use Rattle.map_commands.specs.Lifted.{AreGiven};
ghost use Rattle.map_commands.specs.Reading.{AreReadWithMap};

use aig_binary::SpeltCircuit;
use circuit_files::{Failure, circuit_at};
use command_line::Lifting;
use counted_io::{CountedRead, Source};
use simulation_commands::{Pair, pair_at};
use std::alloc::Global;
use std::rt::Files;

/// The circuits and a map of the states of the one to those of the other.
#[derive(Drop)]
pub(crate) struct Mapped {
    pub(crate) pair: Pair,
    pub(crate) map: SpeltCircuit,
}

/// These, and a witness circuit for the second.
#[derive(Drop)]
pub(crate) struct Given {
    pub(crate) mapped: Mapped,
    pub(crate) witness: SpeltCircuit,
}

/// Reads the circuits and the map, in this order.
pub(crate) fn mapped_at<'a, R: Files, I: CountedRead>(
    rt: &R,
    alloc: Global,
    input: Source<'a>,
    retimed: Source<'a>,
    map: Source<'a>,
    stdin: &mut I,
) -> Result<Mapped, Failure<'a>>
    ensures { IfOk result (AreReadWithMap input.entry retimed.entry map.entry (I.input stdin.old)
        (I.input stdin.new)) }
{
    let pair = pair_at(rt, alloc, input, retimed, stdin)?;
    match circuit_at(rt, alloc, map, stdin) {
        Ok(map) => Ok(Mapped { pair, map }),
        Err(failure) => {
            drop(pair);
            Err(failure)
        }
    }
}

/// Reads the circuits, the map and the witness circuit, in this order.
pub(crate) fn given_for<'a, R: Files, I: CountedRead>(
    rt: &R,
    alloc: Global,
    task: &Lifting<'a>,
    stdin: &mut I,
) -> Result<Given, Failure<'a>>
    ensures { IfOk result (AreGiven task.now (I.input stdin.old) (I.input stdin.new)) }
{
    let mapped = mapped_at(rt, alloc, task.input, task.retimed, task.map, stdin)?;
    match circuit_at(rt, alloc, task.witness, stdin) {
        Ok(witness) => Ok(Given { mapped, witness }),
        Err(failure) => {
            drop(mapped);
            Err(failure)
        }
    }
}
