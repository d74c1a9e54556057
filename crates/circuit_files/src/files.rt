//! Circuits, stimuli, certificates and witnesses of files and of standard input.
ghost use Rattle.std.specs.Prelude.{◌≡◌, [], true, false, IfErr, IfOk, MatchResult};
ghost use Rattle.counted_io.specs.Input.{ReadsAll};
ghost use Rattle.aig_binary.specs.Ending.{IsReadError, Spells};
ghost use Rattle.circuit_files.specs.Reading.{AreCertificatesOf, IsBytesFailure, IsCircuitFailure, IsOfStdin, IsReadingOfStdin, IsStimulusOf, IsWitnessOf};
ghost use Rattle.circuit_files.specs.Outcomes.{IsAbout};
ghost use Rattle.circuit_files.specs.declared.outcome.Failure.TheVariants as fails;
ghost use Rattle.counted_io.specs.Streams.{is_stdin, source_name};

use crate::outcome::Failure;
use aig_binary::{AnyReader, CircuitReader, SpeltCircuit, read_circuit};
use aig_graph::Circuit;
use certificate_files::{CertFile, read_cert};
use counted_io::{Counted, CountedRead, Source, read_all};
use file_words::ReadError;
use lane_sim::{Stimulus, read_stimulus};
use std::alloc::Global;
use std::fs::File;
use std::rt::Files;
use witnesses::{Widths, Witness, read_witness};

/// Reads the circuit of a reader's bytes, by a reader of circuits that has been fed nothing yet.
fn circuit_by<R: CountedRead, C: CircuitReader + Drop>(
    reader: &mut R,
    mut circuits: C,
) -> Result<SpeltCircuit, ReadError>
    requires { C.holds circuits [] }
    ensures circuit { IfOk result (Spells (R.input reader.old)) }
    ensures err { IfErr result (IsReadError (R.input reader.old) (R.input reader.new)) }
{
    read_circuit(reader, &mut circuits)
}

/// Reads the circuit of a reader's bytes, of either spelling; `path` names their file.
fn circuit_of<'a, R: CountedRead>(
    alloc: Global,
    reader: &mut R,
    path: &'a str,
) -> Result<SpeltCircuit, Failure<'a>>
    ensures circuit { IfOk result (Spells (R.input reader.old)) }
    ensures err { IfErr result (IsCircuitFailure (R.input reader.old)
        (R.input reader.new) path.entry) }
    ensures named { IfErr result (IsAbout path.now) }
{
    match circuit_by(reader, AnyReader::new(alloc)) {
        Ok(spelt) => Ok(spelt),
        Err(error) => Err(Failure::of_reading(error, path)),
    }
}

/// Opens the file with this path, to be read.
pub fn opened<'a, R: Files>(rt: &R, path: &'a str) -> Result<R::File, Failure<'a>>
    ensures { IfErr result (λ failure. failure ≡ fails.Device path.entry) }
{
    match File::open(rt, path) {
        Ok(file) => Ok(file),
        Err(_) => Err(Failure::Device(path)),
    }
}

/// Reads the circuit of the file with this path.
fn circuit_of_file<'a, R: Files>(
    rt: &R,
    alloc: Global,
    path: &'a str,
) -> Result<SpeltCircuit, Failure<'a>>
    ensures { IfErr result (IsAbout path.now) }
{
    let input = opened(rt, path)?;
    circuit_of(alloc, &mut Counted::new(input), path)
}

/// Reads the circuit of a file or of standard input, and its spelling. It is read to its end in
/// pieces, also after a fault.
pub fn circuit_at<'a, R: Files, I: CountedRead>(
    rt: &R,
    alloc: Global,
    source: Source<'a>,
    stdin: &mut I,
) -> Result<SpeltCircuit, Failure<'a>>
    ensures stdin { is_stdin source.entry ≡ true → MatchResult result (Spells (I.input stdin.old))
        (IsOfStdin (IsCircuitFailure (I.input stdin.old) (I.input stdin.new))) }
    ensures file { is_stdin source.entry ≡ false → I.input stdin.new ≡ I.input stdin.old }
    ensures named { IfErr result (IsAbout (source_name source.entry)) }
{
    match source {
        Source::Stdin => circuit_of(alloc, stdin, source.name()),
        Source::File(path) => circuit_of_file(rt, alloc, path),
    }
}

/// Reads all bytes of a reader; `path` names their file.
fn bytes_of<'a, R: CountedRead>(
    alloc: Global,
    reader: &mut R,
    path: &'a str,
) -> Result<Vec<u8>, Failure<'a>>
    ensures ok { IfOk result (λ bytes. ReadsAll (R.input reader.old)
        (R.input reader.new) bytes.items) }
    ensures err { IfErr result (IsBytesFailure (R.input reader.old)
        (R.input reader.new) path.entry) }
    ensures named { IfErr result (IsAbout path.now) }
{
    match read_all(alloc, reader) {
        Ok(bytes) => Ok(bytes),
        Err(error) => Err(Failure::of_bytes(error, path)),
    }
}

/// Reads all bytes of the file with this path.
pub fn bytes_of_file<'a, R: Files>(
    rt: &R,
    alloc: Global,
    path: &'a str,
) -> Result<Vec<u8>, Failure<'a>>
    ensures { IfErr result (IsAbout path.now) }
{
    let input = opened(rt, path)?;
    bytes_of(alloc, &mut Counted::new(input), path)
}

/// Reads all bytes of a file or of standard input.
pub fn bytes_at<'a, R: Files, I: CountedRead>(
    rt: &R,
    alloc: Global,
    source: Source<'a>,
    stdin: &mut I,
) -> Result<Vec<u8>, Failure<'a>>
    ensures stdin { is_stdin source.entry ≡ true → MatchResult result
        (λ bytes. ReadsAll (I.input stdin.old) (I.input stdin.new) bytes.items)
        (IsOfStdin (IsBytesFailure (I.input stdin.old) (I.input stdin.new))) }
    ensures file { is_stdin source.entry ≡ false → I.input stdin.new ≡ I.input stdin.old }
    ensures named { IfErr result (IsAbout (source_name source.entry)) }
{
    match source {
        Source::Stdin => bytes_of(alloc, stdin, source.name()),
        Source::File(path) => bytes_of_file(rt, alloc, path),
    }
}

/// Reads the stimulus of the bytes of a file, with the widths of the circuit.
fn stimulus_of<'a>(
    alloc: Global,
    bytes: &[u8],
    path: &'a str,
    circuit: &Circuit,
) -> Result<Stimulus, Failure<'a>>
    ensures reads { IsStimulusOf circuit.now.aig bytes.now path.entry result }
    ensures named { IfErr result (IsAbout path.now) }
{
    let inputs = circuit.aig().inputs() as usize;
    let free = circuit.aig().free_latches() as usize;
    match read_stimulus(alloc, bytes, inputs, free) {
        Ok(stimulus) => Ok(stimulus),
        Err(fault) => Err(Failure::of_stimulus(fault, path)),
    }
}

/// Reads the stimulus of a file or of standard input, with the widths of the circuit.
pub fn stimulus_at<'a, R: Files, I: CountedRead>(
    rt: &R,
    alloc: Global,
    source: Source<'a>,
    circuit: &Circuit,
    stdin: &mut I,
) -> Result<Stimulus, Failure<'a>>
    ensures stdin { is_stdin source.entry ≡ true → IsReadingOfStdin (I.input stdin.old)
        (I.input stdin.new) (IsStimulusOf circuit.now.aig) result }
    ensures file { is_stdin source.entry ≡ false → I.input stdin.new ≡ I.input stdin.old }
    ensures named { IfErr result (IsAbout (source_name source.entry)) }
{
    let bytes = bytes_at(rt, alloc, source, stdin)?;
    stimulus_of(alloc, bytes.as_slice(), source.name(), circuit)
}

/// Reads the certificates of the bytes of a file.
fn certificates_of<'a>(alloc: Global, bytes: &[u8], path: &'a str) -> Result<CertFile, Failure<'a>>
    ensures reads { AreCertificatesOf bytes.now path.entry result }
    ensures named { IfErr result (IsAbout path.now) }
{
    match read_cert(alloc, bytes) {
        Ok(file) => Ok(file),
        Err(fault) => Err(Failure::of_certificates(fault, path)),
    }
}

/// Reads the certificates of a file or of standard input.
pub fn certificates_at<'a, R: Files, I: CountedRead>(
    rt: &R,
    alloc: Global,
    source: Source<'a>,
    stdin: &mut I,
) -> Result<CertFile, Failure<'a>>
    ensures stdin { is_stdin source.entry ≡ true → IsReadingOfStdin (I.input stdin.old)
        (I.input stdin.new) AreCertificatesOf result }
    ensures file { is_stdin source.entry ≡ false → I.input stdin.new ≡ I.input stdin.old }
    ensures named { IfErr result (IsAbout (source_name source.entry)) }
{
    let bytes = bytes_at(rt, alloc, source, stdin)?;
    certificates_of(alloc, bytes.as_slice(), source.name())
}

/// Reads the witness of the bytes of a file, for the circuit.
fn witness_of<'a>(
    alloc: Global,
    bytes: &[u8],
    path: &'a str,
    circuit: &Circuit,
) -> Result<Witness, Failure<'a>>
    ensures reads { IsWitnessOf circuit.now bytes.now path.entry result }
    ensures named { IfErr result (IsAbout path.now) }
{
    match read_witness(alloc, bytes, &Widths::of(circuit)) {
        Ok(witness) => Ok(witness),
        Err(fault) => Err(Failure::of_witness(fault, path)),
    }
}

/// Reads the witness of a file or of standard input, for the circuit.
pub fn witness_at<'a, R: Files, I: CountedRead>(
    rt: &R,
    alloc: Global,
    source: Source<'a>,
    circuit: &Circuit,
    stdin: &mut I,
) -> Result<Witness, Failure<'a>>
    ensures stdin { is_stdin source.entry ≡ true → IsReadingOfStdin (I.input stdin.old)
        (I.input stdin.new) (IsWitnessOf circuit.now) result }
    ensures file { is_stdin source.entry ≡ false → I.input stdin.new ≡ I.input stdin.old }
    ensures named { IfErr result (IsAbout (source_name source.entry)) }
{
    let bytes = bytes_at(rt, alloc, source, stdin)?;
    witness_of(alloc, bytes.as_slice(), source.name(), circuit)
}
