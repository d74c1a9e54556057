//! The state between two pieces of an ASCII file: the items of the lines that have ended, and the
//! open line.
//!
//!     line of numbers ──newline──► next line, of the section that isn't full
//!     line after the gates ──newline──► next line, or comment          comment stays
//!
//! The open line is taken out by value, and `Comment` stands in its place until then, since it owns
//! nothing.
ghost use Rattle.std.specs.Prelude.{ℕ, List, ◌≡◌, Bool, true};
ghost use Rattle.ascii_file.specs.Raw.{RawSymbol};
ghost use Rattle.ascii_file.specs.Reading as reading;
ghost use Rattle.file_words.specs.declared.fault.ReadError.TheVariants.{NoMemory};
ghost use Rattle.file_words.specs.Answering.{Gives};
ghost use Rattle.aag_text.specs.Taking.{raw_of, IsAt};
ghost use Rattle.aag_text.specs.Standing.{state_of};

use crate::circuit::resolve;
use crate::lines::{OpenLine, line_of};
use crate::sections::Sections;
use aig_graph::Circuit;
use ascii_file::{Header, NumberLine, Section, SymbolLine, SymbolText};
use file_words::{ReadError, cut};
use std::alloc::Global;
use std::mem;

/// The items after the header, as their lines come in pieces.
#[derive(Drop)]
pub(crate) struct Items {
    alloc: Global,
    sections: Sections,
    line: OpenLine,
    /// The offset at which the open line begins.
    at: u64,
}

impl Items {
    ghost use Rattle.std.specs.Prelude.{ℕ, List, [], ◌≡◌, ◌+◌, ◌≤◌, ◌++◌, true, false, length};
    ghost use Rattle.ascii_file.specs.Raw.{RawSymbol, nothing_yet};
    ghost use Rattle.ascii_file.specs.Headers.{IsHeaderWithin};
    ghost use Rattle.ascii_file.specs.Pieces.{fed};
    ghost use Rattle.ascii_file.specs.Reading as reading;
    ghost use Rattle.file_words.specs.declared.fault.ReadError.TheVariants.{NoMemory};
    ghost use Rattle.file_words.specs.Answering.{Gives};
    ghost use Rattle.ascii_file.specs.parts.Rows.{row_of};
    ghost use Rattle.ascii_file.specs.parts.Open.{numbers_with};
    ghost use Rattle.ascii_file.specs.parts.Symbols.{text_of, text_with};
    ghost use Rattle.aag_text.specs.Taking.{raw_of, IsAt};
    ghost use Rattle.aag_text.specs.Standing.{StandAt, TakesLine, HoldsOrFaults, Hold};

    /// Returns the items after a header. Their first line begins at offset `at`. Takes no memory.
    pub(crate) fn new(alloc: Global, header: Header, at: u64) -> Items
        requires { IsHeaderWithin header }
        ensures at { result.at ≡ at }
        ensures stands { StandAt result.sections result.line at
            (reading.InItems header nothing_yet at) [] }
    {
        let sections = Sections::new(alloc, header);
        let line = line_of(alloc, sections.section());
        Items {
            alloc,
            sections,
            line,
            at,
        }
    }

    /// Takes the next bytes, which end at the offset. After an `Err` the items are of no more use.
    pub(crate) fn feed(&mut self, end: u64, piece: &[u8]) -> Result<(), ReadError>
        requires { length piece.now ≤ end }
        ensures { (bytes : List ℕ) → Hold self.old bytes → length (bytes ++ piece.now) ≡ end
            → HoldsOrFaults (Hold self.new (bytes ++ piece.now)) result (fed (bytes ++ piece.now)) }
    {
        let mut left = piece;
        while let Some((part, rest)) = cut(left, b'\n') {
            self.line.extend(part)?;
            self.take_line()?;
            self.at = end - rest.len() as u64;
            left = rest;
        }
        self.line.extend(left)?;
        Ok(())
    }

    /// Returns the circuit of the items, which end at offset `end`.
    pub(crate) fn finish(self, end: u64) -> Result<Circuit, ReadError>
        ensures { (bytes : List ℕ) → Hold self bytes → length bytes ≡ end
            → Gives NoMemory (λ circuit. circuit) result (reading.read_bytes bytes) }
    {
        let mut items = self;
        if items.at < end {
            match items.take_line() {
                Ok(()) => {}
                Err(fault) => {
                    drop(items);
                    return Err(fault);
                }
            }
        }
        let Items {
            alloc,
            sections,
            ..
        } = items;
        close(alloc, sections, end)
    }

    /// Takes the open line, of which all bytes have come, and opens the next. After an `Err` the
    /// items are of no more use.
    fn take_line(&mut self) -> Result<(), ReadError>
        ensures { (state : reading.State) (line : List ℕ)
            → StandAt self.old.sections self.old.line self.old.at state line
            → TakesLine self.old self.new state line result }
    {
        match mem::replace(&mut self.line, OpenLine::Comment) {
            OpenLine::Numbers(line) => self.take_numbers(line),
            OpenLine::Symbol(line) => self.take_symbol(line),
            OpenLine::Comment => Ok(()),
        }
    }

    fn take_numbers(&mut self, line: NumberLine) -> Result<(), ReadError>
        ensures { (symbols : List RawSymbol) (bytes : List ℕ) → IsAt self.old.sections symbols
            → reading.is_complete self.old.sections.header (raw_of self.old.sections symbols)
            ≡ false → numbers_with line [] ≡ row_of bytes
            → TakesLine self.old self.new (reading.InItems self.old.sections.header
            (raw_of self.old.sections symbols) self.old.at) bytes result }
    {
        let mut line = line;
        self.sections.take_numbers(self.at, line.numbers())?;
        self.line = line_of(self.alloc, self.sections.section());
        Ok(())
    }

    fn take_symbol(&mut self, line: SymbolLine) -> Result<(), ReadError>
        ensures { (symbols : List RawSymbol) (bytes : List ℕ) → IsAt self.old.sections symbols
            → reading.is_complete self.old.sections.header (raw_of self.old.sections symbols) ≡ true
            → text_with line [] ≡ text_of bytes
            → TakesLine self.old self.new (reading.InItems self.old.sections.header
            (raw_of self.old.sections symbols) self.old.at) bytes result }
    {
        match line.text() {
            SymbolText::Comment => self.line = OpenLine::Comment,
            text => {
                self.sections.take_symbol(self.at, text)?;
                self.line = line_of(self.alloc, self.sections.section());
            }
        }
        Ok(())
    }
}

/// Returns the circuit of the items that have been read, at the end of the file.
pub(crate) fn close(alloc: Global, sections: Sections, end: u64) -> Result<Circuit, ReadError>
    ensures { (symbols : List RawSymbol) (in_comment : Bool) (at : ℕ) → IsAt sections symbols
        → (in_comment ≡ true → reading.is_complete sections.header (raw_of sections symbols) ≡ true)
        → Gives NoMemory (λ circuit. circuit) result
        (reading.finish end (state_of sections symbols in_comment at)) }
{
    match sections.section() {
        Section::Symbols => resolve(alloc, sections),
        _ => {
            drop(sections);
            Err(ReadError::Truncated(end))
        }
    }
}
