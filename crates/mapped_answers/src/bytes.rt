//! Retiming with a map of states, from a circuit that was read to the bytes of a writer.
//!
//! The map is made before anything is written. So if memory is refused for it, or it is too large,
//! the writer's bytes stay as they were.
ghost use Rattle.std.specs.Prelude.{[], ◌∷◌, IfErr, IfOk};
ghost use Rattle.aig_graph.specs.Circuits.{IsNetlist};
ghost use Rattle.aig_graph.specs.Graph.{IsGraph};
ghost use Rattle.aig_binary.specs.Spellings.{text_in};
ghost use Rattle.counted_io.specs.Output.{Writes};
ghost use Rattle.frame_runs.specs.Stages.{Cleaning, Writing};
ghost use Rattle.mapped_answers.specs.Mapping.{IsMappedOf, IsMappingStop};
ghost use Rattle.merging_rounds.specs.Following.{AreRoundsSeen};

use crate::errors::AnswerError;
use crate::making::{Made, made_of};
use aig_binary::{Spelling, SpeltCircuit, write};
use aig_graph::Circuit;
use counted_io::{CountedWrite, WriteError};
use frame_runs::{BytesError, FrameWatcher, Options, Stage};
use pulse::{Crew, PhaseGate};
use std::alloc::Global;
use std::thread::Threads;

/// Writes a circuit in `spelling`.
fn write_in<W: CountedWrite>(
    circuit: &Circuit,
    spelling: Spelling,
    writer: &mut W,
) -> Result<(), WriteError>
    ensures graph { IsGraph circuit.now.aig }
    ensures netlist { IsNetlist circuit.now }
    ensures writes { Writes (W.output writer.old) (W.output writer.new) result
        (text_in spelling circuit.now) }
{
    circuit.known();
    write(circuit, spelling, writer)
}

/// Retimes a circuit that was read and writes it as `frames::run_spelt` does, and returns its map
/// too.
///
/// The map is made before the circuit is written. The circuit that was read is kept until the map
/// is there.
///
/// # Errors
///
/// `Bytes` with the error of `frames::run_spelt`, or if memory for the map is refused.
/// `MapTooLarge` if the map would have too many variables: nothing is written then.
pub fn retime_spelt_mapped<W: CountedWrite, G: PhaseGate, V: FrameWatcher>(
    rt: &(impl Threads + Sync),
    alloc: Global,
    spelt: SpeltCircuit,
    writer: &mut W,
    options: &Options,
    crew: &Crew<G>,
    watcher: &mut V,
) -> Result<Made, AnswerError>
    ensures ok { IfOk result (IsMappedOf options.now spelt (W.output writer.old)
        (W.output writer.new)) }
    ensures err { IfErr result (IsMappingStop options.now spelt (W.output writer.old)
        (W.output writer.new)) }
    ensures seen { IfOk result (λ made. AreRoundsSeen V.was_notified (Cleaning ∷ [])
        (Writing ∷ []) options.now spelt.circuit made.rounds made.keep watcher.old watcher.new) }
{
    let SpeltCircuit { circuit, spelling } = spelt;
    let mapped = made_of(rt, alloc, &circuit, options, crew, watcher);
    drop(circuit);
    let made = mapped?;
    watcher.enter(Stage::Writing);
    match write_in(
        &made.rounds.circuit,
        options.spelling.unwrap_or(spelling),
        writer,
    ) {
        Ok(()) => Ok(made),
        Err(error) => {
            drop(made);
            Err(AnswerError::Bytes(BytesError::Write(error)))
        }
    }
}
