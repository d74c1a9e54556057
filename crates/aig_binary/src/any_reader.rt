//! A reader of either spelling, in pieces.
//!
//!     letters ──third byte──► ASCII reader, or binary reader, which gets the letters first
//!     letters ──letters of neither spelling, or the end──► neither, which answers BadHeader at 0
use crate::begin::{Begun, begin};
use crate::letters::Letters;
use aag_text::AagReader;
use aig_graph::Circuit;
use arrayvec::ArrayVec;
use binary_file::AigReader;
use file_words::{ReadError, Spelling};
use std::alloc::Global;
use std::mem;

/// How far a file has come.
#[derive(Drop)]
pub(crate) enum Phase {
    /// Fewer than three bytes have come.
    Letters(Letters),
    InAscii(AagReader),
    InBinary(AigReader),
    /// The first three bytes are neither spelling's, or the file has ended before them.
    Neither,
}

/// A reader of a file of either spelling that comes in pieces, however cut. The first three bytes
/// say which it is.
pub struct AnyReader {
    alloc: Global,
    phase: Phase,
}

impl Drop for AnyReader {
    // written out: docs/PROOFS.md, Drops and exits
    fn drop(self) {
        let AnyReader {
            alloc: _alloc,
            phase: _phase,
        } = self;
    }
}

impl AnyReader {
    ghost use Rattle.std.specs.Prelude.{ℕ, List, [], ◌≡◌, ◌++◌, Err, Some, None, OnOk, IfErr};
    ghost use Rattle.file_words.specs.declared.fault.ReadError.{ReadError};
    ghost use Rattle.file_words.specs.declared.fault.ReadError.TheVariants.{BadHeader, NoMemory};
    ghost use Rattle.file_words.specs.Answering.{Gives};
    ghost use Rattle.aig_binary.specs.Spellings.{spelling_of, read_any};
    ghost use Rattle.aig_binary.specs.Fed.{fed_any};
    ghost use Rattle.aig_binary.specs.Readers.{HoldsEither, fault_of_either, spelling_read};

    /// Returns a reader to which no byte has come. Takes no memory.
    pub fn new(alloc: Global) -> AnyReader
        ensures holds { HoldsEither result [] }
        ensures sound { fault_of_either result ≡ None }
    {
        AnyReader {
            alloc,
            phase: Phase::Letters(ArrayVec::new()),
        }
    }

    /// Returns the spelling that the first three bytes have named. Gives `None` before the third,
    /// or if they are neither's. Takes no memory, and its answer stays after the end of the file.
    pub fn spelling(&self) -> Option<Spelling>
        ensures read { result ≡ spelling_read self.now }
        ensures named { (bytes : List ℕ) → HoldsEither self.now bytes → result ≡ spelling_of bytes }
    {
        match &self.phase {
            Phase::InAscii(_) => Some(Spelling::Ascii),
            Phase::InBinary(_) => Some(Spelling::Binary),
            Phase::Letters(_) | Phase::Neither => None,
        }
    }

    /// Takes the next bytes. The fault of a line or delta is answered by the call that brings its
    /// last byte.
    ///
    /// # Errors
    ///
    /// `BadHeader` at 0 with the third byte, if the first three are neither spelling's. Otherwise
    /// the first fault of the bytes so far, with its offset from the first piece on, or `NoMemory`.
    /// Each further call then answers that error.
    pub fn feed(&mut self, piece: &[u8]) -> Result<(), ReadError>
        ensures holds { (bytes : List ℕ) → HoldsEither self.old bytes
            → HoldsEither self.new (bytes ++ piece.now) }
        ensures fed { (bytes : List ℕ) → HoldsEither self.old bytes
            → Gives NoMemory (λ u. u) result (fed_any (bytes ++ piece.now)) }
        ensures fails { IfErr result (λ fault. fault_of_either self.new ≡ Some fault) }
        ensures stays { (fault : ReadError) → fault_of_either self.old ≡ Some fault → result ≡ Err fault }
    {
        match &mut self.phase {
            Phase::Letters(letters) => {
                let Begun { phase, answer } = begin(self.alloc, letters.as_slice(), piece);
                self.enter(phase);
                answer
            }
            Phase::InAscii(reader) => reader.feed(piece),
            Phase::InBinary(reader) => reader.feed(piece),
            Phase::Neither => Err(ReadError::BadHeader(0)),
        }
    }

    /// Returns the circuit of all bytes that have come.
    ///
    /// # Errors
    ///
    /// The first fault of the bytes, or `NoMemory`; each further call then answers that error.
    /// After a circuit each further call answers `BadHeader` at 0.
    pub fn finish(&mut self) -> Result<Circuit, ReadError>
        ensures gives { (bytes : List ℕ) → HoldsEither self.old bytes
            → Gives NoMemory (λ circuit. circuit) result (read_any bytes) }
        ensures ends { OnOk result (fault_of_either self.new ≡ Some (BadHeader 0)) }
        ensures fails { IfErr result (λ fault. fault_of_either self.new ≡ Some fault) }
        ensures stays { (fault : ReadError) → fault_of_either self.old ≡ Some fault → result ≡ Err fault }
        ensures spelling { spelling_read self.new ≡ spelling_read self.old }
    {
        match &mut self.phase {
            Phase::InAscii(reader) => reader.finish(),
            Phase::InBinary(reader) => reader.finish(),
            Phase::Letters(_) => {
                self.enter(Phase::Neither);
                Err(ReadError::BadHeader(0))
            }
            Phase::Neither => Err(ReadError::BadHeader(0)),
        }
    }

    /// Goes on in this phase; the one before is dropped.
    fn enter(&mut self, phase: Phase)
        ensures { self.new ≡ record self.old { phase = phase } }
    {
        // By name: the paths of the drop then stand in functions of their own, and are proved once.
        drop(mem::replace(&mut self.phase, phase));
    }
}
