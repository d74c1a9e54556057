use crate::sections::Sections;
use aig_graph::Sequence;
use ascii_file::{SymbolKind, SymbolText};
use file_words::ReadError;

impl Sections {
    ghost use Rattle.std.specs.Prelude.{ℕ, List, ◌≡◌, false};
    ghost use Rattle.ascii_file.specs.declared.header.Header.{Header};
    ghost use Rattle.ascii_file.specs.declared.raw.Section.TheVariants.{Symbols};
    ghost use Rattle.ascii_file.specs.Raw.{Raw, RawSymbol};
    ghost use Rattle.ascii_file.specs.Items.{begins_comment};
    ghost use Rattle.ascii_file.specs.Meaning.{symbols_of};
    ghost use Rattle.file_words.specs.declared.fault.ReadError.TheVariants.{NoMemory};
    ghost use Rattle.file_words.specs.Answering.{Gives};
    ghost use Rattle.ascii_file.specs.parts.Symbols.{text_of};
    ghost use Rattle.binary_file.specs.Items.{next_section};
    ghost use Rattle.binary_file.specs.Reading.{read_line};
    ghost use Rattle.ascii_file.specs.parts.Names.{symbol_at};
    ghost use Rattle.binary_file.specs.Contents.{IsAt};
    ghost use Rattle.binary_file.specs.ReaderItems.{symbol_taken};
    ghost use Rattle.binary_file.specs.Taking.{Takes};

    /// Takes a symbol's line, which begins at offset `at`. All other sections are full, and the
    /// line isn't that of a comment.
    ///
    /// # Errors
    ///
    /// `Trailing` if it doesn't begin as a symbol. `BadSymbol` if it isn't one, its position is out
    /// of range, or one of its kind and position has come. `NoMemory`. The sections are then of no
    /// more use.
    pub fn take_symbol(&mut self, at: u64, text: SymbolText) -> Result<(), ReadError>
        ensures { (h : Header) (raw : Raw) (line : List ℕ) → IsAt self.old h raw
            → next_section h raw ≡ Symbols
            → begins_comment line ≡ false → text ≡ text_of line
            → Takes h self.new result (read_line h raw at line) }
    {
        let _ = &self.header;
        match text {
            SymbolText::Name(kind, position, name) => self.take_name(at, kind, position, name),
            SymbolText::Malformed => Err(ReadError::BadSymbol(at)),
            SymbolText::NoSymbol => Err(ReadError::Trailing(at)),
            SymbolText::Comment => Err(ReadError::Trailing(at)),
        }
    }

    fn take_name(
        &mut self,
        at: u64,
        kind: SymbolKind,
        position: u32,
        name: Sequence<u8>,
    ) -> Result<(), ReadError>
        ensures { (symbols : List RawSymbol) → self.old.names ≡ symbols_of symbols
            → Gives NoMemory (λ _. self.new) result
            (symbol_taken self.old symbols at (symbol_at kind position name)) }
    {
        if position >= self.header.count_of(kind) {
            return Err(ReadError::BadSymbol(at));
        }
        match self.names.insert(kind, position, name) {
            Ok(true) => Ok(()),
            Ok(false) => Err(ReadError::BadSymbol(at)),
            Err(_) => Err(ReadError::NoMemory),
        }
    }
}
