ghost use Rattle.std.specs.Prelude.{ℕ, List, ◌≡◌, ◌++◌, false};
ghost use Rattle.ascii_file.specs.declared.header.Header.{Header};
ghost use Rattle.ascii_file.specs.declared.raw.Section.TheVariants.{Symbols};
ghost use Rattle.ascii_file.specs.Raw.{Raw};
ghost use Rattle.ascii_file.specs.Reading.{is_symbols};
ghost use Rattle.binary_file.specs.Items.{next_section};
ghost use Rattle.binary_file.specs.Reading.{before_item, read_line};
ghost use Rattle.binary_file.specs.Contents.{Contents, IsAt};
ghost use Rattle.binary_file.specs.Taking.{Takes};
ghost use Rattle.binary_file.specs.Opened.{IsNumbers, IsText, IsOpened, TakesText};

use crate::DeltaReader;
use crate::sections::Sections;
use ascii_file::{NumberLine, Section, SymbolLine, SymbolText};
use file_words::ReadError;
use std::alloc::Global;

/// The item that has begun, as far as it has come.
#[derive(Drop)]
pub(crate) enum Opened {
    /// A line of numbers.
    Numbers(NumberLine),
    /// A line after the gates.
    Symbol(SymbolLine),
    /// A gate's first delta.
    First(DeltaReader),
    /// A gate's second delta, after its first fan-in.
    Second(u32, DeltaReader),
    /// The comment, which runs to the end.
    Comment,
}

impl Opened {
    /// Returns the next item of a section, of which no byte has come.
    pub(crate) fn new(alloc: Global, section: Section) -> Opened
        ensures { (c : Contents) (h : Header) (raw : Raw) (at : ℕ) → IsAt c h raw
            → section ≡ next_section h raw → IsOpened c at at result (before_item h raw at) }
    {
        match section {
            Section::Gates => Opened::First(DeltaReader::new()),
            Section::Symbols => Opened::Symbol(SymbolLine::new(alloc)),
            _ => Opened::Numbers(NumberLine::new()),
        }
    }
}

/// Takes a line of numbers that begins at the offset, all of whose bytes have come.
pub(crate) fn take_numbers(
    sections: &mut Sections,
    at: u64,
    line: NumberLine,
) -> Result<(), ReadError>
    ensures { (h : Header) (raw : Raw) (bytes : List ℕ) → IsAt sections.old h raw
        → is_symbols (next_section h raw) ≡ false → IsNumbers line bytes
        → Takes h sections.new result (read_line h raw at bytes) }
{
    let mut line = line;
    sections.take_numbers(at, line.numbers())
}

/// Takes a line after the gates that begins at offset `at`; all its bytes have come. Returns false
/// if it is the line of a comment.
pub(crate) fn take_text(
    sections: &mut Sections,
    at: u64,
    line: SymbolLine,
) -> Result<bool, ReadError>
    ensures { (h : Header) (raw : Raw) (bytes : List ℕ) → IsAt sections.old h raw
        → next_section h raw ≡ Symbols → IsText line bytes
        → TakesText h sections.new raw at bytes result }
{
    match line.text() {
        SymbolText::Comment => Ok(false),
        text => match sections.take_symbol(at, text) {
            Ok(()) => Ok(true),
            Err(fault) => Err(fault),
        },
    }
}
