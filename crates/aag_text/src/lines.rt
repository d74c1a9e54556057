ghost use Rattle.std.specs.Prelude.{◌≡◌, [], false};
ghost use Rattle.ascii_file.specs.Reading.{is_symbols};
ghost use Rattle.aag_text.specs.Lines.{IsOpen, is_comment};

use ascii_file::{NumberLine, Section, SymbolLine};
use std::alloc::{AllocError, Global};

/// A line after the header, which comes in pieces.
#[derive(Drop)]
pub(crate) enum OpenLine {
    /// Of a section before the symbols.
    Numbers(NumberLine),
    /// Behind the gates: a symbol, or the first line of the comment.
    Symbol(SymbolLine),
    /// Of the comment, after its first line.
    Comment,
}

impl OpenLine {
    ghost use Rattle.std.specs.Prelude.{ℕ, List, ◌≡◌, ◌++◌, Bool, OnOk};
    ghost use Rattle.aag_text.specs.Lines.{IsOpen, is_comment};

    /// Takes the next bytes of the line. After an `Err` it is of no more use.
    pub(crate) fn extend(&mut self, part: &[u8]) -> Result<(), AllocError>
        ensures comment { is_comment self.new ≡ is_comment self.old }
        ensures goes_on { OnOk result ((complete : Bool) (begun : List ℕ)
            → IsOpen self.old complete begun → IsOpen self.new complete (begun ++ part.now)) }
    {
        match self {
            OpenLine::Numbers(line) => line.extend(part),
            OpenLine::Symbol(line) => line.extend(part)?,
            OpenLine::Comment => {}
        }
        Ok(())
    }
}

/// Returns a line of the section, of which no byte has come.
pub(crate) fn line_of(alloc: Global, section: Section) -> OpenLine
    ensures opens { IsOpen result (is_symbols section) [] }
    ensures item { is_comment result ≡ false }
{
    match section {
        Section::Symbols => OpenLine::Symbol(SymbolLine::new(alloc)),
        _ => OpenLine::Numbers(NumberLine::new()),
    }
}
