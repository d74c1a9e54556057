//! A line after the gates, byte by byte.
//!
//!     Nothing ──one of i l o b c j f──► Letter ──digit──► Position ──space──► Name
//!     Nothing ──any other──► NoSymbol
//!     Letter c ──no digit──► Comment
//!     Letter, Position ──any other──► Malformed
//!     NoSymbol, Comment, Malformed stay, and so does Name, which keeps all further bytes
ghost use Rattle.std.specs.Prelude.{◌≡◌, ◌==◌, ℕ, List, [], ◌∷◌};
ghost use Rattle.ascii_file.specs.Items as items;
ghost use Rattle.ascii_file.specs.Raw.{kind_number};
ghost use Rattle.ascii_file.specs.parts.Symbols.{text_of, begun_with, letter_with, position_with, named_at};

use crate::SymbolKind;
use crate::parts::numbers::with_digit;

/// How far a line after the gates has come. The bytes of a name stand beside it.
#[derive(Clone, Copy)]
pub(crate) enum Begun {
    Nothing,
    Letter(SymbolKind),
    /// The number that the digits so far spell, if there is one.
    Position(SymbolKind, Option<u32>),
    Name(SymbolKind, u32),
    Comment,
    Malformed,
    NoSymbol,
}

/// Returns the kind that a symbol's first byte stands for.
fn kind_of(byte: u8) -> Option<SymbolKind>
    ensures { result ≡ items.kind_of byte }
{
    match byte {
        b'i' => Some(SymbolKind::Input),
        b'l' => Some(SymbolKind::Latch),
        b'o' => Some(SymbolKind::Output),
        b'b' => Some(SymbolKind::Bad),
        b'c' => Some(SymbolKind::Constraint),
        b'j' => Some(SymbolKind::Justice),
        b'f' => Some(SymbolKind::Fairness),
        _ => None,
    }
}

pub(crate) fn is_constraint(kind: SymbolKind) -> bool
    ensures { result ≡ (kind_number kind == 4) }
{
    matches!(kind, SymbolKind::Constraint)
}

/// Takes the first byte.
fn after_nothing(byte: u8) -> Begun
    ensures { (rest : List ℕ) → begun_with result [] rest ≡ text_of (byte ∷ rest) }
{
    match kind_of(byte) {
        Some(kind) => Begun::Letter(kind),
        None => Begun::NoSymbol,
    }
}

/// Takes the byte that follows the letter.
fn after_letter(kind: SymbolKind, byte: u8) -> Begun
    ensures { (rest : List ℕ) → begun_with result [] rest ≡ letter_with kind (byte ∷ rest) }
{
    if is_constraint(kind) && !byte.is_ascii_digit() {
        return Begun::Comment;
    }
    after_position(kind, None, byte)
}

/// Takes one more digit of a position, or the space that ends it.
fn after_position(kind: SymbolKind, number: Option<u32>, byte: u8) -> Begun
    ensures { (rest : List ℕ) → begun_with result [] rest
        ≡ position_with kind number (byte ∷ rest) }
{
    if byte == b' ' {
        return named(kind, number);
    }
    if byte.is_ascii_digit() {
        return Begun::Position(kind, Some(with_digit(number.unwrap_or(0), byte - b'0')));
    }
    Begun::Malformed
}

/// Ends the position, which has to be a number.
fn named(kind: SymbolKind, number: Option<u32>) -> Begun
    ensures { (rest : List ℕ) → begun_with result [] rest ≡ named_at kind number rest }
{
    match number {
        Some(position) => Begun::Name(kind, position),
        None => Begun::Malformed,
    }
}

impl Begun {
    ghost use Rattle.std.specs.Prelude.{ℕ, List, [], ◌∷◌, ◌≡◌, false};
    ghost use Rattle.ascii_file.specs.parts.Named.{is_named};
    ghost use Rattle.ascii_file.specs.parts.Symbols.{begun_with};

    /// Takes one more byte, if that isn't one of a name.
    pub(crate) fn after(self, byte: u8) -> Begun
        requires { is_named self ≡ false }
        ensures { (rest : List ℕ) → begun_with result [] rest ≡ begun_with self [] (byte ∷ rest) }
    {
        match self {
            Begun::Nothing => after_nothing(byte),
            Begun::Letter(kind) => after_letter(kind, byte),
            Begun::Position(kind, number) => after_position(kind, number, byte),
            other => other,
        }
    }
}
