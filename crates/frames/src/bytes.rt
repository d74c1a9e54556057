//! Retiming from the bytes of a reader to those of a writer.
ghost use Rattle.std.specs.Prelude.{◌≡◌, ℕ, [], ◌∷◌, IfOk, OnOk, IfErr, IsErrOf, unwrap_or};
ghost use Rattle.aig_binary.specs.Ending.{IsReadError, ReadsToEnd, Spells};
ghost use Rattle.counted_io.specs.Output.{Writes};
ghost use Rattle.aig_graph.specs.Circuits.{IsNetlist};
ghost use Rattle.aig_graph.specs.Graph.{IsGraph};
ghost use Rattle.aig_binary.specs.Spellings.{text_in};
ghost use Rattle.frames.specs.Answering.{AfterReading, AreOfCircuit, BeforeWriting, IsAnswered, IsCutOff, IsMissingIn, IsNoLatchIn, IsStop, IsWritten, KeepsLevelsOf, RetimesBytes};
ghost use Rattle.frame_runs.specs.Stages.{Cleaning, Writing};
ghost use Rattle.merging_rounds.specs.Following.{AreRoundsSeen};
ghost use Rattle.frame_runs.specs.declared.errors.RetimeError.TheVariants.{NoSuchLatch, NoSuchName};

use crate::runs::{rounds_of, run_watched};
use aig_binary::{AnyReader, CircuitReader, Spelling, SpeltCircuit, read_circuit, write};
use aig_graph::Circuit;
use counted_io::{CountedRead, CountedWrite, WriteError};
use file_words::ReadError;
use frame_runs::{
    BytesError, FrameWatcher, GivenCircuit, NoFollower, NoWatcher, Options, Run, Stage,
};
use merging_rounds::Rounds;
use pulse::{Crew, PhaseGate};
use std::alloc::Global;
use std::thread::Threads;

/// Writes the retimed circuit in the spelling that the options choose, or in `fallback` if they
/// choose none.
fn write_answer<W: CountedWrite>(
    rounds: &Rounds,
    fallback: Spelling,
    writer: &mut W,
    options: &Options,
) -> Result<(), WriteError>
    ensures { Writes (W.output writer.old) (W.output writer.new) result
        (text_in (unwrap_or options.now.spelling fallback) rounds.now.circuit) }
{
    let spelling = options.spelling.unwrap_or(fallback);
    write(&rounds.circuit, spelling, writer)
}

/// Tells the prover that the circuit's literals and names are in range. Costs nothing.
fn in_range(circuit: &Circuit)
    ensures graph { IsGraph circuit.now.aig }
    ensures netlist { IsNetlist circuit.now }
{
    circuit.known();
}

/// Retimes a circuit that was read, and writes it, as [`retime_bytes`] does after reading. Returns
/// the held latches of the written circuit too.
///
/// The circuit is dropped before the first frame; only its spelling is kept. The watcher is
/// notified of the stages of [`run_watched`](crate::run_watched), and then of the writing.
///
/// # Errors
///
/// Those of [`retime_bytes`], but for those of reading.
pub fn run_spelt<W: CountedWrite, G: PhaseGate, V: FrameWatcher>(
    rt: &(impl Threads + Sync),
    alloc: Global,
    spelt: SpeltCircuit,
    writer: &mut W,
    options: &Options,
    crew: &Crew<G>,
    watcher: &mut V,
) -> Result<Run<Rounds, NoFollower>, BytesError>
    ensures ok { IfOk result (λ run. IsWritten options.now spelt (W.output writer.old)
        (W.output writer.new) run.retimed) }
    ensures held { IfOk result (λ run. AreRoundsSeen V.was_notified (Cleaning ∷ [])
        (Writing ∷ []) options.now spelt.circuit run.retimed run.keep watcher.old watcher.new) }
    ensures err { IfErr result (IsStop options.now spelt (W.output writer.old)
        (W.output writer.new)) }
{
    let SpeltCircuit { circuit, spelling } = spelt;
    let owned = GivenCircuit::Owned(circuit);
    let run = run_watched(rt, alloc, owned, options, crew, watcher)?;
    in_range(&run.retimed.circuit);
    watcher.enter(Stage::Writing);
    match write_answer(&run.retimed, spelling, writer, options) {
        Ok(()) => Ok(run),
        Err(error) => {
            drop(run);
            Err(BytesError::Write(error))
        }
    }
}

/// Reads a circuit with `circuits`, a reader of circuits that has been fed nothing yet.
fn read_by<R: CountedRead, C: CircuitReader + Drop>(
    reader: &mut R,
    mut circuits: C,
) -> Result<SpeltCircuit, ReadError>
    requires { C.holds circuits [] }
    ensures read { OnOk result (ReadsToEnd (R.input reader.old) (R.input reader.new)) }
    ensures circuit { IfOk result (Spells (R.input reader.old)) }
    ensures err { IfErr result (IsReadError (R.input reader.old) (R.input reader.new)) }
{
    read_circuit(reader, &mut circuits)
}

/// Reads a circuit, retimes it and writes it. `RetimesBytes` joins the clauses of [`retime_bytes`].
fn read_and_write<R: CountedRead, W: CountedWrite, G: PhaseGate>(
    rt: &(impl Threads + Sync),
    alloc: Global,
    reader: &mut R,
    writer: &mut W,
    options: &Options,
    crew: &Crew<G>,
) -> Result<Rounds, BytesError>
    ensures { RetimesBytes options.now (R.input reader.old) (R.input reader.new)
        (W.output writer.old) (W.output writer.new) result }
{
    let spelt = read_by(reader, AnyReader::new(alloc))?;
    match run_spelt(rt, alloc, spelt, writer, options, crew, &mut NoWatcher) {
        Ok(run) => Ok(rounds_of(run)),
        Err(error) => Err(error),
    }
}

/// Reads a circuit of either spelling to the end of the reader, retimes it, and writes it. The
/// spelling written is that of the options, or that of the bytes if they choose none.
///
/// The reader is read in pieces of at most 65536 bytes, to its end even after a fault of the bytes.
/// No copy of the bytes is kept. The circuit that was read is dropped once it is cleaned.
///
/// Nothing is written before the whole answer is there. The written text depends on the bytes and
/// the options alone, and reads as the returned circuit.
///
/// # Errors
///
/// `Read` if a read fails, if memory is refused before there is a circuit, or if the bytes are no
/// circuit.
///
/// `Retime` if no latch has one of the names or positions of the options, or if memory is refused
/// later.
///
/// `Write` if a write fails: a beginning of the text is written then.
pub fn retime_bytes<R: CountedRead, W: CountedWrite, G: PhaseGate>(
    rt: &(impl Threads + Sync),
    alloc: Global,
    reader: &mut R,
    writer: &mut W,
    options: &Options,
    crew: &Crew<G>,
) -> Result<Rounds, BytesError>
    ensures read { AfterReading result (ReadsToEnd (R.input reader.old) (R.input reader.new)) }
    ensures circuit { AfterReading result (AreOfCircuit (R.input reader.old)) }
    ensures answer { IfOk result (IsAnswered (R.input reader.old) (W.output writer.old)
        (W.output writer.new) options.now) }
    ensures levels { IfOk result (KeepsLevelsOf options.now (R.input reader.old)) }
    ensures unread { (e : ReadError) → IsErrOf result (BytesError.Read e)
        → IsReadError (R.input reader.old) (R.input reader.new) e }
    ensures missing { (place : ℕ) → IsErrOf result (BytesError.Retime (NoSuchName place))
        → IsMissingIn options.now (R.input reader.old) place }
    ensures no_latch { (place : ℕ) → IsErrOf result (BytesError.Retime (NoSuchLatch place))
        → IsNoLatchIn options.now (R.input reader.old) place }
    ensures unwritten { BeforeWriting result (W.output writer.new ≡ W.output writer.old) }
    ensures cut_off { (e : WriteError) → IsErrOf result (BytesError.Write e)
        → IsCutOff options.now (R.input reader.old) (W.output writer.old) (W.output writer.new) }
{
    read_and_write(rt, alloc, reader, writer, options, crew)
}
