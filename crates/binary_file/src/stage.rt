//! The stages of a reader of binary files; `reader` has the chart. A stage is taken by value, and
//! the next one is the answer: what a fault leaves of it is dropped here.
ghost use Rattle.std.specs.Prelude.{ℕ, List, ◌≡◌, ◌+◌, ◌++◌, [], length, Ok};
ghost use Rattle.ascii_file.specs.Raw.{nothing_yet};
ghost use Rattle.file_words.specs.declared.fault.ReadError.TheVariants.{NoMemory};
ghost use Rattle.file_words.specs.Answering.{Gives};
ghost use Rattle.binary_file.specs.Headers.{IsHeaderWithin};
ghost use Rattle.binary_file.specs.Reading.{State, feed, before_item, read_binary};
ghost use Rattle.binary_file.specs.Reading as reading;
ghost use Rattle.binary_file.specs.Standing.{Stands};
ghost use Rattle.binary_file.specs.Stages.{HoldsHeader, HoldsResult};

use crate::header::binary_header;
use crate::items::{Items, offset_of};
use crate::sections::Sections;
use aig_graph::Circuit;
use ascii_file::{Header, HeaderLine};
use file_words::{ReadError, cut};
use std::alloc::Global;

/// How far a reader has come.
#[derive(Drop)]
pub(crate) enum Stage {
    /// In the first line.
    Header(HeaderLine),
    /// After it.
    Items(Items),
    /// At a fault, or at the end of an input that was read.
    Failed(ReadError),
}

impl Stage {
    ghost use Rattle.std.specs.Prelude.{ℕ, List, [], ◌≡◌, ◌+◌, ◌++◌, length, Err, Some, None};
    ghost use Rattle.file_words.specs.declared.fault.ReadError.{ReadError};
    ghost use Rattle.file_words.specs.declared.fault.ReadError.TheVariants.{NoMemory};
    ghost use Rattle.file_words.specs.Answering.{Fails, Gives};
    ghost use Rattle.binary_file.specs.Reading.{read_binary};
    ghost use Rattle.binary_file.specs.Reading as reading;
    ghost use Rattle.binary_file.specs.Stages.{HoldsStage, HoldsResult, failure};

    /// Takes a piece that ends at the offset.
    pub(crate) fn feed(self, alloc: Global, end: u64, piece: &[u8]) -> Result<Stage, ReadError>
        ensures held { (bytes : List ℕ) → HoldsStage self bytes
            → (failure self ≡ None → length bytes + length piece.now ≡ end)
            → HoldsResult result (bytes ++ piece.now) }
        ensures stays { (fault : ReadError) → failure self ≡ Some fault → result ≡ Err fault }
    {
        match self {
            Stage::Header(line) => feed_header(alloc, line, end, piece),
            Stage::Items(items) => feed_items(alloc, items, end, piece),
            Stage::Failed(fault) => Err(fault),
        }
    }

    /// Returns the circuit of an input that ends here, at offset `end`.
    pub(crate) fn finish(self, alloc: Global, end: u64) -> Result<Circuit, ReadError>
        ensures circuit { (bytes : List ℕ) → HoldsStage self bytes
            → (failure self ≡ None → length bytes ≡ end)
            → Gives NoMemory (λ c. c) result (read_binary bytes) }
        ensures stays { (fault : ReadError) → failure self ≡ Some fault → result ≡ Err fault }
    {
        match self {
            Stage::Header(line) => finish_header(alloc, line, end),
            Stage::Items(items) => items.finish(alloc, end),
            Stage::Failed(fault) => Err(fault),
        }
    }

    /// Returns the error for a piece whose end has no offset.
    pub(crate) fn refusal(&self) -> ReadError
        ensures held { (bytes more : List ℕ) → HoldsStage self.now bytes
            → Fails NoMemory result (reading.feed (reading.AtHeader []) (bytes ++ more)) }
        ensures stays { (fault : ReadError) → failure self.now ≡ Some fault → result ≡ fault }
    {
        match self {
            Stage::Header(_) | Stage::Items(_) => ReadError::NoMemory,
            Stage::Failed(fault) => *fault,
        }
    }
}

/// Takes a piece after the first line.
fn feed_items(alloc: Global, items: Items, end: u64, piece: &[u8]) -> Result<Stage, ReadError>
    ensures { (bytes : List ℕ) (state : State) → feed (reading.AtHeader []) bytes ≡ Ok state
        → Stands items (length bytes) state → length bytes + length piece.now ≡ end
        → HoldsResult result (bytes ++ piece.now) }
{
    let mut items = items;
    match items.feed(alloc, end, piece) {
        Ok(()) => Ok(Stage::Items(items)),
        Err(fault) => {
            drop(items);
            Err(fault)
        }
    }
}

/// Takes a piece right after the first line.
fn feed_first_items(
    alloc: Global,
    header: Header,
    end: u64,
    piece: &[u8],
) -> Result<Stage, ReadError>
    requires { IsHeaderWithin header }
    ensures { (bytes : List ℕ) → feed (reading.AtHeader []) bytes
        ≡ Ok (before_item header nothing_yet (length bytes)) → length bytes + length piece.now ≡ end
        → HoldsResult result (bytes ++ piece.now) }
{
    let items = Items::new(alloc, header, offset_of(piece, end));
    feed_items(alloc, items, end, piece)
}

/// Takes a piece that begins in the first line.
fn feed_header(alloc: Global, line: HeaderLine, end: u64, piece: &[u8]) -> Result<Stage, ReadError>
    ensures { (bytes : List ℕ) → HoldsHeader line bytes → length bytes + length piece.now ≡ end
        → HoldsResult result (bytes ++ piece.now) }
{
    let mut line = line;
    match cut(piece, b'\n') {
        Some((part, left)) => {
            line.extend(part);
            match binary_header(&mut line) {
                Ok(header) => feed_first_items(alloc, header, end, left),
                Err(fault) => Err(fault),
            }
        }
        None => {
            line.extend(piece);
            Ok(Stage::Header(line))
        }
    }
}

/// Returns the circuit of an input that ends in the first line.
fn finish_header(alloc: Global, line: HeaderLine, end: u64) -> Result<Circuit, ReadError>
    ensures { (bytes : List ℕ) → HoldsHeader line bytes → length bytes ≡ end
        → Gives NoMemory (λ c. c) result (read_binary bytes) }
{
    let mut line = line;
    match binary_header(&mut line) {
        Ok(header) => Sections::new(alloc, header).finish(alloc, end),
        Err(fault) => Err(fault),
    }
}
