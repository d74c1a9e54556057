//! A reader of a binary file in pieces.
//!
//!     first line open ──newline──► items ──finish──► ended, which answers BadHeader at 0
//!     either ──fault──► failed, which answers that fault from then on
ghost use Rattle.std.specs.Prelude.{ℕ, List, ◌≡◌, ◌++◌};
ghost use Rattle.file_words.specs.declared.fault.ReadError.TheVariants.{NoMemory};
ghost use Rattle.file_words.specs.Answering.{Gives};
ghost use Rattle.binary_file.specs.Reading.{read_binary};
ghost use Rattle.binary_file.specs.Holding.{HasBeenFed};

use crate::stage::Stage;
use aig_graph::Circuit;
use ascii_file::HeaderLine;
use file_words::ReadError;
use std::alloc::Global;
use std::mem;

/// Reads a binary file. Its bytes come in pieces, cut anywhere. Only the items are kept and none of
/// the bytes, so room grows with what was read, never by the header's numbers. The time is linear
/// in the bytes.
pub struct AigReader {
    alloc: Global,
    stage: Stage,
    /// How many bytes have come.
    offset: u64,
}

impl Drop for AigReader {
    // written out: docs/PROOFS.md, Drops and exits
    fn drop(self) {
        let AigReader {
            alloc: _alloc,
            stage: _stage,
            offset: _offset,
        } = self;
    }
}

impl AigReader {
    ghost use Rattle.std.specs.Prelude.{ℕ, List, ◌≡◌, ◌++◌, [], Err, Some, None, OnOk, IfErr};
    ghost use Rattle.file_words.specs.declared.fault.ReadError.{ReadError};
    ghost use Rattle.file_words.specs.declared.fault.ReadError.TheVariants.{BadHeader, NoMemory};
    ghost use Rattle.file_words.specs.Answering.{Gives};
    ghost use Rattle.binary_file.specs.Reading.{read_binary};
    ghost use Rattle.binary_file.specs.Holding.{HasBeenFed, Answers, reader_fault};

    /// Returns a reader to which nothing was fed. Takes no memory.
    pub fn new(alloc: Global) -> AigReader
        ensures holds { HasBeenFed result [] }
        ensures sound { reader_fault result ≡ None }
    {
        AigReader {
            alloc,
            stage: Stage::Header(HeaderLine::new(*b"aig ")),
            offset: 0,
        }
    }

    /// Takes the next bytes of the file. An empty piece changes nothing.
    ///
    /// # Errors
    ///
    /// The first fault of the bytes so far, as soon as its last byte has come, with its offset from
    /// the first piece on. `NoMemory` if memory is refused, and if the pieces come to `2^64` bytes,
    /// since no offset is that great. Every later call answers that error.
    pub fn feed(&mut self, piece: &[u8]) -> Result<(), ReadError>
        ensures held { (bytes : List ℕ) → HasBeenFed self.old bytes → HasBeenFed self.new (bytes ++ piece.now)
            × Answers result (bytes ++ piece.now) }
        ensures fails { IfErr result (λ fault. reader_fault self.new ≡ Some fault) }
        ensures stays { (fault : ReadError) → reader_fault self.old ≡ Some fault → result ≡ Err fault }
    {
        let Some(end) = self.offset.checked_add(piece.len() as u64) else {
            let fault = self.stage.refusal();
            self.enter(Stage::Failed(fault));
            return Err(fault);
        };
        let stage = mem::replace(&mut self.stage, Stage::Failed(ReadError::NoMemory));
        self.offset = end;
        match stage.feed(self.alloc, end, piece) {
            Ok(stage) => {
                self.enter(stage);
                Ok(())
            }
            Err(fault) => {
                self.enter(Stage::Failed(fault));
                Err(fault)
            }
        }
    }

    /// Returns the circuit of the file, all of whose bytes were fed. Every later call answers
    /// `BadHeader` at 0.
    ///
    /// # Errors
    ///
    /// The first fault of the file; `NoMemory`. Every later call answers that error.
    pub fn finish(&mut self) -> Result<Circuit, ReadError>
        ensures circuit { (bytes : List ℕ) → HasBeenFed self.old bytes
            → Gives NoMemory (λ c. c) result (read_binary bytes) }
        ensures ends { OnOk result (reader_fault self.new ≡ Some (BadHeader 0)) }
        ensures fails { IfErr result (λ fault. reader_fault self.new ≡ Some fault) }
        ensures stays { (fault : ReadError) → reader_fault self.old ≡ Some fault → result ≡ Err fault }
    {
        let stage = mem::replace(&mut self.stage, Stage::Failed(ReadError::BadHeader(0)));
        match stage.finish(self.alloc, self.offset) {
            Ok(circuit) => Ok(circuit),
            Err(fault) => {
                self.enter(Stage::Failed(fault));
                Err(fault)
            }
        }
    }

    /// Goes on at this stage; the one before is dropped.
    fn enter(&mut self, stage: Stage)
        ensures { self.new ≡ record self.old { stage = stage } }
    {
        drop(mem::replace(&mut self.stage, stage));
    }
}

/// Reads the circuit of a binary file, all of whose bytes are there.
///
/// # Errors
///
/// The first fault of the bytes; `NoMemory`. Never `Device`.
pub fn read_aig(alloc: Global, bytes: &[u8]) -> Result<Circuit, ReadError>
    ensures { Gives NoMemory (λ c. c) result (read_binary bytes.now) }
{
    let mut reader = AigReader::new(alloc);
    let circuit = read_rest(&mut reader, bytes);
    drop(reader);
    circuit
}

/// Returns the circuit of a file that ends with these bytes.
fn read_rest(reader: &mut AigReader, bytes: &[u8]) -> Result<Circuit, ReadError>
    ensures { (before : List ℕ) → HasBeenFed reader.old before
        → Gives NoMemory (λ c. c) result (read_binary (before ++ bytes.now)) }
{
    match reader.feed(bytes) {
        Ok(()) => reader.finish(),
        Err(fault) => Err(fault),
    }
}
