//! The state between two pieces of a binary file: the whole items so far, and the open one.
//!
//!     Numbers ──newline──► next item          First ──last byte──► Second ──last byte──► next item
//!     Symbol  ──newline──► next line, or Comment               Comment stays
//!
//! The open item is taken out by value while a piece is fed. `Comment` stands in its place until
//! then, since it owns nothing and dropping it takes no step. If the piece has a fault, the items
//! are dropped, and nobody looks at the stand-in.
ghost use Rattle.std.specs.Prelude.{ℕ, ◌≡◌, ◌+◌, length};
ghost use Rattle.file_words.specs.declared.fault.ReadError.TheVariants.{NoMemory};
ghost use Rattle.file_words.specs.Answering.{Gives};
ghost use Rattle.binary_file.specs.Reading.{State};
ghost use Rattle.binary_file.specs.Opened.{IsInNumbers, IsInSymbol};
ghost use Rattle.binary_file.specs.Standing.{circuit_at};

use crate::DeltaReader;
use crate::delta::take_delta;
use crate::opened::{Opened, take_numbers, take_text};
use crate::sections::Sections;
use aig_graph::Circuit;
use ascii_file::{Header, NumberLine, SymbolLine};
use file_words::{ReadError, cut};
use std::alloc::Global;
use std::mem;

/// What has come after the header: whole items, and the item that has begun.
#[derive(Drop)]
pub(crate) struct Items {
    sections: Sections,
    opened: Opened,
    /// The offset of the item that has begun; of a gate's second delta that of the delta.
    at: u64,
}

impl Items {
    ghost use Rattle.std.specs.Prelude.{ℕ, List, ◌≡◌, ◌+◌, ◌<◌, length, IfOk};
    ghost use Rattle.ascii_file.specs.declared.header.Header.{Header};
    ghost use Rattle.ascii_file.specs.declared.raw.Section.TheVariants.{Gates};
    ghost use Rattle.ascii_file.specs.Raw.{Raw, nothing_yet};
    ghost use Rattle.file_words.specs.declared.fault.ReadError.TheVariants.{NoMemory};
    ghost use Rattle.file_words.specs.Answering.{Gives};
    ghost use Rattle.binary_file.specs.Deltas.{delta_value};
    ghost use Rattle.binary_file.specs.Headers.{IsHeaderWithin};
    ghost use Rattle.binary_file.specs.Items.{next_section, next_gate};
    ghost use Rattle.binary_file.specs.Reading.{State, before_item, step, feed, end_first, end_second};
    ghost use Rattle.binary_file.specs.Contents.{IsAt};
    ghost use Rattle.binary_file.specs.Opened.{IsInNumbers, IsInSymbol, IsInFirst, IsInSecond};
    ghost use Rattle.binary_file.specs.Standing.{Stands, StandsAfterReading, Feeds, circuit_at};

    /// Returns the items of a file of which nothing has come after the header, which ends at offset
    /// `at`. Takes no memory.
    pub(crate) fn new(alloc: Global, header: Header, at: u64) -> Items
        requires { IsHeaderWithin header }
        ensures { Stands result at (before_item header nothing_yet at) }
    {
        let sections = Sections::new(alloc, header);
        let opened = Opened::new(alloc, sections.section());
        Items {
            sections,
            opened,
            at,
        }
    }

    /// Begins the next item, at the offset.
    fn begin(&mut self, alloc: Global, at: u64)
        ensures { (h : Header) (raw : Raw) → IsAt self.old.sections h raw
            → Stands self.new at (before_item h raw at) }
    {
        self.opened = Opened::new(alloc, self.sections.section());
        self.at = at;
    }

    /// Takes the newline of a line of numbers; the next item begins at the offset.
    fn end_numbers(&mut self, alloc: Global, line: NumberLine, after: u64) -> Result<(), ReadError>
        ensures { (state : State) (offset : ℕ) → IsInNumbers self.old.sections self.old.at offset
            line state → offset + 1 ≡ after → StandsAfterReading self.new after result (step state 10) }
    {
        match take_numbers(&mut self.sections, self.at, line) {
            Ok(()) => self.begin(alloc, after),
            Err(fault) => return Err(fault),
        }
        Ok(())
    }

    /// Takes the newline of a line after the gates; the next one begins at the offset.
    fn end_symbol(&mut self, alloc: Global, line: SymbolLine, after: u64) -> Result<(), ReadError>
        ensures { (state : State) (offset : ℕ) → IsInSymbol self.old.sections self.old.at offset
            line state → offset + 1 ≡ after → StandsAfterReading self.new after result (step state 10) }
    {
        match take_text(&mut self.sections, self.at, line) {
            Ok(true) => self.begin(alloc, after),
            Ok(false) => self.opened = Opened::Comment,
            Err(fault) => return Err(fault),
        }
        Ok(())
    }

    /// Takes the delta of a gate's first fan-in; the second delta begins at the offset.
    fn end_first(&mut self, number: u64, after: u64) -> Result<(), ReadError>
        ensures { (h : Header) (raw : Raw) (delta : List ℕ) → IsAt self.old.sections h raw
            → next_section h raw ≡ Gates → number ≡ delta_value delta
            → self.old.at + length delta ≡ after
            → StandsAfterReading self.new after result (end_first h raw self.old.at delta) }
    {
        match self.sections.first_fan_in(self.at, number) {
            Ok(rhs0) => self.opened = Opened::Second(rhs0, DeltaReader::new()),
            Err(fault) => return Err(fault),
        }
        self.at = after;
        Ok(())
    }

    /// Takes the delta of a gate's second fan-in; the next item begins at the offset.
    fn end_second(
        &mut self,
        alloc: Global,
        rhs0: u32,
        number: u64,
        after: u64,
    ) -> Result<(), ReadError>
        ensures { (h : Header) (raw : Raw) (delta : List ℕ) → IsAt self.old.sections h raw
            → next_section h raw ≡ Gates → rhs0 < next_gate h raw → number ≡ delta_value delta
            → self.old.at + length delta ≡ after
            → StandsAfterReading self.new after result (end_second h raw self.old.at rhs0 delta) }
    {
        match self.sections.take_gate(self.at, rhs0, number) {
            Ok(()) => self.begin(alloc, after),
            Err(fault) => return Err(fault),
        }
        Ok(())
    }

    /// Takes bytes of a line of numbers: up to its newline, or all.
    fn feed_numbers<'a>(
        &mut self,
        alloc: Global,
        line: NumberLine,
        end: u64,
        piece: &'a [u8],
    ) -> Result<&'a [u8], ReadError>
        ensures fed { (state : State) (offset : ℕ) → IsInNumbers self.old.sections self.old.at
            offset line state → offset + length piece.now ≡ end
            → Feeds self.new end state piece.now result }
        ensures shorter { 0 < length piece.now → IfOk result
            (λ left. length left.now < length piece.now) }
    {
        let mut line = line;
        match cut(piece, b'\n') {
            Some((part, left)) => {
                line.extend(part);
                match self.end_numbers(alloc, line, offset_of(left, end)) {
                    Ok(()) => Ok(left),
                    Err(fault) => Err(fault),
                }
            }
            None => {
                line.extend(piece);
                self.opened = Opened::Numbers(line);
                Ok(&piece[piece.len()..])
            }
        }
    }

    /// Takes bytes of a line after the gates: up to its newline, or all.
    fn feed_symbol<'a>(
        &mut self,
        alloc: Global,
        line: SymbolLine,
        end: u64,
        piece: &'a [u8],
    ) -> Result<&'a [u8], ReadError>
        ensures fed { (state : State) (offset : ℕ) → IsInSymbol self.old.sections self.old.at offset
            line state → offset + length piece.now ≡ end
            → Feeds self.new end state piece.now result }
        ensures shorter { 0 < length piece.now → IfOk result
            (λ left. length left.now < length piece.now) }
    {
        let mut line = line;
        match cut(piece, b'\n') {
            Some((part, left)) => {
                line.extend(part)?;
                match self.end_symbol(alloc, line, offset_of(left, end)) {
                    Ok(()) => Ok(left),
                    Err(fault) => Err(fault),
                }
            }
            None => {
                line.extend(piece)?;
                self.opened = Opened::Symbol(line);
                Ok(&piece[piece.len()..])
            }
        }
    }

    /// Takes whole gates if the first delta of one hasn't begun, and otherwise a byte of it.
    fn feed_gates<'a>(
        &mut self,
        alloc: Global,
        delta: DeltaReader,
        end: u64,
        piece: &'a [u8],
    ) -> Result<&'a [u8], ReadError>
        requires { 0 < length piece.now }
        ensures fed { (state : State) (offset : ℕ) → IsInFirst self.old.sections self.old.at offset
            delta state → offset + length piece.now ≡ end
            → Feeds self.new end state piece.now result }
        ensures shorter { IfOk result (λ left. length left.now < length piece.now) }
    {
        if !delta.is_new() {
            return self.feed_first(delta, end, piece);
        }
        match self.sections.take_gates(piece) {
            Ok(left) => {
                if left.len() == piece.len() {
                    return self.feed_first(delta, end, piece);
                }
                self.begin(alloc, offset_of(left, end));
                Ok(left)
            }
            Err(fault) => Err(fault),
        }
    }

    /// Takes a byte of a gate's first delta.
    fn feed_first<'a>(
        &mut self,
        delta: DeltaReader,
        end: u64,
        piece: &'a [u8],
    ) -> Result<&'a [u8], ReadError>
        requires { 0 < length piece.now }
        ensures fed { (state : State) (offset : ℕ) → IsInFirst self.old.sections self.old.at offset
            delta state → offset + length piece.now ≡ end
            → Feeds self.new end state piece.now result }
        ensures shorter { IfOk result (λ left. length left.now < length piece.now) }
    {
        let mut delta = delta;
        match take_delta(&mut delta, piece) {
            Ok((Some(number), left)) => match self.end_first(number, offset_of(left, end)) {
                Ok(()) => Ok(left),
                Err(fault) => Err(fault),
            },
            Ok((None, left)) => {
                self.opened = Opened::First(delta);
                Ok(left)
            }
            Err(_) => Err(ReadError::BadDelta(self.at)),
        }
    }

    /// Takes a byte of a gate's second delta.
    fn feed_second<'a>(
        &mut self,
        alloc: Global,
        rhs0: u32,
        delta: DeltaReader,
        end: u64,
        piece: &'a [u8],
    ) -> Result<&'a [u8], ReadError>
        requires { 0 < length piece.now }
        ensures fed { (state : State) (offset : ℕ) → IsInSecond self.old.sections self.old.at offset
            rhs0 delta state → offset + length piece.now ≡ end
            → Feeds self.new end state piece.now result }
        ensures shorter { IfOk result (λ left. length left.now < length piece.now) }
    {
        let mut delta = delta;
        match take_delta(&mut delta, piece) {
            Ok((Some(number), left)) => match self.end_second(
                alloc,
                rhs0,
                number,
                offset_of(left, end),
            ) {
                Ok(()) => Ok(left),
                Err(fault) => Err(fault),
            },
            Ok((None, left)) => {
                self.opened = Opened::Second(rhs0, delta);
                Ok(left)
            }
            Err(_) => Err(ReadError::BadDelta(self.at)),
        }
    }

    /// Takes bytes of a piece that isn't empty and ends at offset `end`. Returns what is left of
    /// it.
    fn feed_some<'a>(
        &mut self,
        alloc: Global,
        end: u64,
        piece: &'a [u8],
    ) -> Result<&'a [u8], ReadError>
        requires { 0 < length piece.now }
        ensures fed { (state : State) (offset : ℕ) → Stands self.old offset state
            → offset + length piece.now ≡ end → Feeds self.new end state piece.now result }
        ensures shorter { IfOk result (λ left. length left.now < length piece.now) }
    {
        match mem::replace(&mut self.opened, Opened::Comment) {
            Opened::Numbers(line) => self.feed_numbers(alloc, line, end, piece),
            Opened::Symbol(line) => self.feed_symbol(alloc, line, end, piece),
            Opened::First(delta) => self.feed_gates(alloc, delta, end, piece),
            Opened::Second(rhs0, delta) => self.feed_second(alloc, rhs0, delta, end, piece),
            Opened::Comment => Ok(&piece[piece.len()..]),
        }
    }

    /// Takes a piece that ends at the offset.
    pub(crate) fn feed(&mut self, alloc: Global, end: u64, piece: &[u8]) -> Result<(), ReadError>
        ensures { (state : State) (offset : ℕ) → Stands self.old offset state
            → offset + length piece.now ≡ end → StandsAfterReading self.new end result (feed state piece.now) }
    {
        let mut left = piece;
        while !left.is_empty() {
            left = self.feed_some(alloc, end, left)?;
        }
        Ok(())
    }

    /// Returns the circuit of an input that ends here, at offset `end`.
    pub(crate) fn finish(self, alloc: Global, end: u64) -> Result<Circuit, ReadError>
        ensures { (state : State) → Stands self end state
            → Gives NoMemory (λ c. c) result (circuit_at end state) }
    {
        let Items {
            sections,
            opened,
            at,
        } = self;
        match opened {
            Opened::Numbers(line) => finish_numbers(sections, alloc, at, line, end),
            Opened::Symbol(line) => finish_symbol(sections, alloc, at, line, end),
            Opened::First(_delta) => {
                drop(sections);
                Err(ReadError::Truncated(at))
            }
            Opened::Second(_, _delta) => {
                drop(sections);
                Err(ReadError::Truncated(at))
            }
            Opened::Comment => sections.finish(alloc, end),
        }
    }
}

/// Returns the circuit of an input that ends in a line of numbers, or before it.
fn finish_numbers(
    sections: Sections,
    alloc: Global,
    at: u64,
    line: NumberLine,
    end: u64,
) -> Result<Circuit, ReadError>
    ensures { (state : State) → IsInNumbers sections at end line state
        → Gives NoMemory (λ c. c) result (circuit_at end state) }
{
    if at == end {
        return sections.finish(alloc, end);
    }
    let mut sections = sections;
    match take_numbers(&mut sections, at, line) {
        Ok(()) => sections.finish(alloc, end),
        Err(fault) => {
            drop(sections);
            Err(fault)
        }
    }
}

/// Returns the circuit of an input that ends in a line after the gates, or before it.
fn finish_symbol(
    sections: Sections,
    alloc: Global,
    at: u64,
    line: SymbolLine,
    end: u64,
) -> Result<Circuit, ReadError>
    ensures { (state : State) → IsInSymbol sections at end line state
        → Gives NoMemory (λ c. c) result (circuit_at end state) }
{
    if at == end {
        drop(line);
        return sections.finish(alloc, end);
    }
    let mut sections = sections;
    match take_text(&mut sections, at, line) {
        Ok(_) => sections.finish(alloc, end),
        Err(fault) => {
            drop(sections);
            Err(fault)
        }
    }
}

/// Returns the offset at which the rest of a piece begins, by the offset of its end.
pub(crate) fn offset_of(left: &[u8], end: u64) -> u64
    ensures { (offset : ℕ) → offset + length left.now ≡ end → result ≡ offset }
{
    end.saturating_sub(left.len() as u64)
}
