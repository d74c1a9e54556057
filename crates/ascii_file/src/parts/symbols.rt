//! A line after the gates: `begun` is the automaton of what comes before the name, and each byte
//! after that is one of the name.
ghost use Rattle.std.specs.Prelude.{◌≡◌, [], false};
ghost use Rattle.ascii_file.specs.parts.Named.{is_named};

use crate::SymbolKind;
use crate::parts::begun::{Begun, is_constraint};
use aig_graph::Sequence;
use std::alloc::{AllocError, Global};

/// What a line after the gates is.
#[derive(Drop)]
pub enum SymbolText {
    /// It doesn't begin as a symbol or a comment.
    NoSymbol,
    /// It begins the comment.
    Comment,
    /// It begins as a symbol and isn't one.
    Malformed,
    /// A position and a name for what stands there. A position of `u32::MAX` stands for each
    /// greater one too.
    Name(SymbolKind, u32, Sequence<u8>),
}

/// A line after the gates, which comes in pieces: a symbol, or the first of the comment. Of its
/// bytes the name is held.
#[derive(Drop)]
pub struct SymbolLine {
    begun: Begun,
    name: Vec<u8>,
    ghost unnamed: { is_named begun ≡ false → name.items ≡ [] },
}

impl SymbolLine {
    ghost use Rattle.std.specs.Prelude.{ℕ, List, [], ◌∷◌, ◌++◌, ◌≡◌, OnOk};
    ghost use Rattle.ascii_file.specs.parts.Symbols.{text_of, text_with};

    /// Returns a line of which no byte has come. Takes no memory.
    pub fn new(alloc: Global) -> SymbolLine
        ensures { (rest : List ℕ) → text_with result rest ≡ text_of rest }
    {
        SymbolLine {
            begun: Begun::Nothing,
            name: Vec::new(alloc),
        }
    }

    /// Takes the next bytes of the line. After an `Err` the line is of no more use.
    pub fn extend(&mut self, part: &[u8]) -> Result<(), AllocError>
        ensures { OnOk result ((rest : List ℕ) → text_with self.new rest
            ≡ text_with self.old (part.now ++ rest)) }
    {
        for byte in part {
            self.take_byte(*byte)?;
        }
        Ok(())
    }

    /// Returns what the line is. All its bytes have come.
    pub fn text(self) -> SymbolText
        ensures { result ≡ text_with self [] }
    {
        let SymbolLine { begun, name } = self;
        match begun {
            Begun::Nothing => SymbolText::NoSymbol,
            Begun::Letter(kind) => {
                if is_constraint(kind) {
                    SymbolText::Comment
                } else {
                    SymbolText::Malformed
                }
            }
            Begun::Position(_, _) => SymbolText::Malformed,
            Begun::Name(kind, position) => SymbolText::Name(
                kind,
                position,
                Sequence::from_vec(name),
            ),
            Begun::Comment => SymbolText::Comment,
            Begun::Malformed => SymbolText::Malformed,
            Begun::NoSymbol => SymbolText::NoSymbol,
        }
    }

    fn take_byte(&mut self, byte: u8) -> Result<(), AllocError>
        ensures { OnOk result ((rest : List ℕ) → text_with self.new rest
            ≡ text_with self.old (byte ∷ rest)) }
    {
        match self.begun {
            Begun::Name(_, _) => self.name.push(byte)?,
            other => self.begun = other.after(byte),
        }
        Ok(())
    }
}
