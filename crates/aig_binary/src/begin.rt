ghost use Rattle.std.specs.Prelude.{◌≡◌, ◌++◌, Some, IfErr};
ghost use Rattle.file_words.specs.declared.fault.ReadError.TheVariants.{NoMemory};
ghost use Rattle.file_words.specs.Answering.{Gives};
ghost use Rattle.file_words.specs.declared.spelling.Spelling.TheVariants.{Ascii, Binary};
ghost use Rattle.aig_binary.specs.Spellings.{spelling_of};
ghost use Rattle.aig_binary.specs.Fed.{fed_any};
ghost use Rattle.aig_binary.specs.Readers.{PhaseHoldsEither, phase_fault};

use crate::any_reader::Phase;
use crate::first_bytes::spelling;
use crate::letters::{LETTERS, first_letters};
use aag_text::AagReader;
use binary_file::AigReader;
use file_words::{ReadError, Spelling};
use std::alloc::Global;

/// How far a file has come with a piece, and what the piece answers.
#[derive(Drop)]
pub(crate) struct Begun {
    pub phase: Phase,
    pub answer: Result<(), ReadError>,
}

/// Begins with an ASCII reader. The letters go to it as they came: if they ran it out of memory, it
/// answers that again with the piece.
fn begin_ascii(alloc: Global, begun: &[u8], piece: &[u8]) -> Begun
    requires { spelling_of (begun.now ++ piece.now) ≡ Some Ascii }
    ensures holds { PhaseHoldsEither result.phase (begun.now ++ piece.now) }
    ensures fed { Gives NoMemory (λ u. u) result.answer (fed_any (begun.now ++ piece.now)) }
    ensures fails { IfErr result.answer (λ fault. phase_fault result.phase ≡ Some fault) }
{
    let mut ascii = AagReader::new(alloc);
    let _ = ascii.feed(begun);
    let answer = ascii.feed(piece);
    Begun {
        phase: Phase::InAscii(ascii),
        answer,
    }
}

fn begin_binary(alloc: Global, begun: &[u8], piece: &[u8]) -> Begun
    requires { spelling_of (begun.now ++ piece.now) ≡ Some Binary }
    ensures holds { PhaseHoldsEither result.phase (begun.now ++ piece.now) }
    ensures fed { Gives NoMemory (λ u. u) result.answer (fed_any (begun.now ++ piece.now)) }
    ensures fails { IfErr result.answer (λ fault. phase_fault result.phase ≡ Some fault) }
{
    let mut binary = AigReader::new(alloc);
    let _ = binary.feed(begun);
    let answer = binary.feed(piece);
    Begun {
        phase: Phase::InBinary(binary),
        answer,
    }
}

/// Takes a piece after fewer than three bytes.
pub(crate) fn begin(alloc: Global, begun: &[u8], piece: &[u8]) -> Begun
    ensures holds { PhaseHoldsEither result.phase (begun.now ++ piece.now) }
    ensures fed { Gives NoMemory (λ u. u) result.answer (fed_any (begun.now ++ piece.now)) }
    ensures fails { IfErr result.answer (λ fault. phase_fault result.phase ≡ Some fault) }
{
    let letters = first_letters(begun, piece);
    if letters.len() < LETTERS {
        return Begun {
            phase: Phase::Letters(letters),
            answer: Ok(()),
        };
    }
    match spelling(letters.as_slice()) {
        Some(Spelling::Ascii) => begin_ascii(alloc, begun, piece),
        Some(Spelling::Binary) => begin_binary(alloc, begun, piece),
        None => Begun {
            phase: Phase::Neither,
            answer: Err(ReadError::BadHeader(0)),
        },
    }
}
