//! A reader of an ASCII file in pieces.
//!
//!     first line open ──newline──► items ──finish──► ended, which answers BadHeader at 0
//!     either ──fault──► failed, which answers that fault from then on
ghost use Rattle.std.specs.Prelude.{ℕ, List, ◌≡◌, ◌+◌, length, MatchResult};
ghost use Rattle.file_words.specs.declared.fault.ReadError.TheVariants.{NoMemory};
ghost use Rattle.ascii_file.specs.Reading as reading;
ghost use Rattle.file_words.specs.Answering.{Gives};
ghost use Rattle.aag_text.specs.Readers.{PhaseHolds, phase_standing};

use crate::header::begin;
use crate::items::{Items, close};
use crate::sections::Sections;
use aig_graph::Circuit;
use ascii_file::HeaderLine;
use file_words::ReadError;
use std::alloc::Global;
use std::mem;

/// How far a file has come.
#[derive(Drop)]
pub(crate) enum Phase {
    /// The first line is open.
    Header(HeaderLine),
    Items(Items),
    /// Each further call answers this.
    Failed(ReadError),
}

/// A reader of an ASCII file that comes in pieces, however cut. Of the bytes it keeps the names of
/// symbols alone.
pub struct AagReader {
    alloc: Global,
    phase: Phase,
    /// How many bytes have come.
    taken: u64,
}

impl Drop for AagReader {
    // written out: docs/PROOFS.md, Drops and exits
    fn drop(self) {
        let AagReader {
            alloc: _alloc,
            phase: _phase,
            taken: _taken,
        } = self;
    }
}

impl AagReader {
    ghost use Rattle.std.specs.Prelude.{ℕ, List, [], ◌≡◌, ◌++◌, IsOk, OnOk};
    ghost use Rattle.file_words.specs.declared.fault.ReadError.{ReadError};
    ghost use Rattle.ascii_file.specs.Reading as reading;
    ghost use Rattle.ascii_file.specs.Pieces.{fed};
    ghost use Rattle.file_words.specs.declared.fault.ReadError.TheVariants.{NoMemory};
    ghost use Rattle.file_words.specs.Answering.{Gives};
    ghost use Rattle.aag_text.specs.Standing.{HoldsOrFaults};
    ghost use Rattle.aag_text.specs.Readers.{HasReadBytes, Holds, standing, after_finish};

    /// Returns a reader to which no byte has come. Takes no memory.
    pub fn new(alloc: Global) -> AagReader
        ensures holds { Holds result [] }
        ensures standing { standing result ≡ Ok tt }
    {
        AagReader {
            alloc,
            phase: Phase::Header(HeaderLine::new(*b"aag ")),
            taken: 0,
        }
    }

    /// Takes the next bytes. A line's fault is answered by the call that brings its newline.
    ///
    /// # Errors
    ///
    /// The first fault of the bytes so far, with its offset from the first piece on; each further
    /// call then answers that fault. `NoMemory` if memory is refused, and if the pieces come to
    /// `2^64` bytes, since no offset is that great.
    pub fn feed(&mut self, piece: &[u8]) -> Result<(), ReadError>
        ensures holds { (bytes : List ℕ) → Holds self.old bytes
            → Holds self.new (bytes ++ piece.now) }
        ensures fed { (bytes : List ℕ) → Holds self.old bytes
            → HoldsOrFaults (IsOk (fed (bytes ++ piece.now))) result (fed (bytes ++ piece.now)) }
        ensures answer { result ≡ standing self.new }
        ensures stays { (fault : ReadError) → standing self.old ≡ Err fault
            → standing self.new ≡ Err fault }
    {
        let answer = self.take(piece);
        if let Err(fault) = &answer {
            self.enter(Phase::Failed(*fault));
        }
        answer
    }

    /// Returns the circuit of all bytes that have come.
    ///
    /// # Errors
    ///
    /// The first fault of the bytes, or `NoMemory`; each further call then answers that error.
    /// After a circuit each further call answers `BadHeader` at 0.
    pub fn finish(&mut self) -> Result<Circuit, ReadError>
        ensures gives { (bytes : List ℕ) → Holds self.old bytes
            → Gives NoMemory (λ circuit. circuit) result (reading.read_bytes bytes) }
        ensures after { standing self.new ≡ Err (after_finish result) }
        ensures again { (fault : ReadError) → standing self.old ≡ Err fault → result ≡ Err fault }
        ensures stays { (fault : ReadError) → standing self.old ≡ Err fault
            → standing self.new ≡ Err fault }
    {
        let phase = mem::replace(&mut self.phase, Phase::Failed(ReadError::BadHeader(0)));
        let circuit = end(self.alloc, phase, self.taken);
        if let Err(fault) = &circuit {
            self.enter(Phase::Failed(*fault));
        }
        circuit
    }

    fn take(&mut self, piece: &[u8]) -> Result<(), ReadError>
        ensures reads { (bytes : List ℕ) → Holds self.old bytes
            → HoldsOrFaults (HasReadBytes self.new (bytes ++ piece.now)) result (fed (bytes ++ piece.now)) }
        ensures going { OnOk result (standing self.new ≡ Ok tt) }
        ensures stays { (fault : ReadError) → standing self.old ≡ Err fault → result ≡ Err fault }
    {
        match &mut self.phase {
            Phase::Header(line) => {
                let taken = joined_len(self.taken, piece)?;
                let begun = begin(self.alloc, line, taken, piece)?;
                self.taken = taken;
                if let Some(items) = begun {
                    self.enter(Phase::Items(items));
                }
                Ok(())
            }
            Phase::Items(items) => {
                let taken = joined_len(self.taken, piece)?;
                items.feed(taken, piece)?;
                self.taken = taken;
                Ok(())
            }
            Phase::Failed(fault) => Err(*fault),
        }
    }

    /// Goes on in this phase; the one before is dropped.
    fn enter(&mut self, phase: Phase)
        ensures { self.new ≡ record self.old { phase = phase } }
    {
        drop(mem::replace(&mut self.phase, phase));
    }
}

/// Returns the number of bytes that have come with this piece.
fn joined_len(taken: u64, piece: &[u8]) -> Result<u64, ReadError>
    ensures { MatchResult result (λ len. len ≡ taken + length piece.now)
        (λ error. error ≡ NoMemory) }
{
    match taken.checked_add(piece.len() as u64) {
        Some(len) => Ok(len),
        None => Err(ReadError::NoMemory),
    }
}

/// Returns the circuit of a file of this length that has come so far.
fn end(alloc: Global, phase: Phase, len: u64) -> Result<Circuit, ReadError>
    ensures gives { (bytes : List ℕ) → PhaseHolds phase len bytes
        → Gives NoMemory (λ circuit. circuit) result (reading.read_bytes bytes) }
    ensures stays { (fault : ReadError) → phase_standing phase ≡ Err fault → result ≡ Err fault }
{
    match phase {
        Phase::Header(line) => {
            let mut line = line;
            let header = line.header()?;
            close(alloc, Sections::new(alloc, header), len)
        }
        Phase::Items(items) => items.finish(len),
        Phase::Failed(fault) => Err(fault),
    }
}
