//! A delta out of a piece. One that a piece may cut in two is taken byte by byte. Those of a gate
//! that is whole in the piece are taken at once.
ghost use Rattle.std.specs.Prelude.{ℕ, List, ◌≡◌, ◌<◌, ◌≤◌, ◌%◌, length, IfOk, OnErr, Err, MatchOption, Result};
ghost use Rattle.file_words.specs.declared.fault.ReadError.{ReadError};
ghost use Rattle.file_words.specs.declared.fault.ReadError.TheVariants.{BadDelta};
ghost use Rattle.binary_file.specs.Reading.{State, feed};
ghost use Rattle.binary_file.specs.Cutting.{IsWholeDelta, IsWholeGate, AreDeltaStates, IsDeltaTaken};

use crate::{DeltaError, DeltaReader};

/// The most bytes that a delta has, and that a gate has.
const DELTA_BYTES: usize = 5;

pub(crate) const GATE_BYTES: usize = 2 * DELTA_BYTES;

/// A gate that is whole at the front of some bytes, and how many of them it takes.
#[derive(Clone, Copy)]
pub(crate) struct WholeGate {
    pub(crate) rhs0: u32,
    pub(crate) rhs1: u32,
    pub(crate) len: usize,
}

/// Takes the first byte of a piece. Returns the number of the delta if that is its last byte, and
/// what is left of the piece.
pub(crate) fn take_delta<'a>(
    reader: &mut DeltaReader,
    piece: &'a [u8],
) -> Result<(Option<u64>, &'a [u8]), DeltaError>
    requires { 0 < length piece.now }
    ensures taken { (at : ℕ) (state : List ℕ → State) (end_delta : List ℕ → Result State ReadError)
        → AreDeltaStates at state end_delta
        → IfOk result (λ taken. IsDeltaTaken state end_delta reader.old reader.new piece.now taken.0
        taken.1.now) }
    ensures too_long { (at : ℕ) (state : List ℕ → State) (end_delta : List ℕ
        → Result State ReadError) → AreDeltaStates at state end_delta
        → OnErr result (feed (state reader.old) piece.now ≡ Err (BadDelta at)) }
    ensures shorter { IfOk result (λ taken. length taken.1.now < length piece.now) }
{
    match reader.push(piece[0]) {
        Ok(number) => Ok((number, &piece[1..])),
        Err(fault) => Err(fault),
    }
}

/// Returns the gate with this literal that the bytes begin with, or none if it has a fault.
pub(crate) fn whole_gate(lhs: u32, bytes: &[u8]) -> Option<WholeGate>
    requires { 10 ≤ length bytes.now }
    ensures { MatchOption result (Unit {0}) (λ gate. IsWholeGate lhs bytes.now gate) }
{
    let (first, len) = whole_delta(bytes)?;
    let (second, more) = whole_delta(&bytes[len..])?;
    if first == 0 || first > u64::from(lhs) {
        return None;
    }
    let rhs0 = lhs - first as u32;
    if second > u64::from(rhs0) {
        return None;
    }
    Some(WholeGate {
        rhs0,
        rhs1: rhs0 - second as u32,
        len: len + more,
    })
}

/// Returns the number of the delta that the bytes begin with, and the number of its bytes. Gives
/// none if it has more than five.
fn whole_delta(bytes: &[u8]) -> Option<(u64, usize)>
    requires { 5 ≤ length bytes.now }
    ensures { MatchOption result (Unit {0}) (λ found. IsWholeDelta bytes.now found.0 found.1) }
{
    let first = group(bytes[0]);
    if bytes[0] < 128 {
        return Some((first, 1));
    }
    let second = group(bytes[1]);
    if bytes[1] < 128 {
        return Some((first + 128 * second, 2));
    }
    let third = group(bytes[2]);
    if bytes[2] < 128 {
        return Some((first + 128 * (second + 128 * third), 3));
    }
    let fourth = group(bytes[3]);
    if bytes[3] < 128 {
        return Some((first + 128 * (second + 128 * (third + 128 * fourth)), 4));
    }
    let fifth = group(bytes[4]);
    if bytes[4] < 128 {
        return Some((
            first + 128 * (second + 128 * (third + 128 * (fourth + 128 * fifth))),
            5,
        ));
    }
    None
}

/// Returns the seven bits of the number that a byte of a delta has.
fn group(byte: u8) -> u64
    ensures { result ≡ byte % 128 }
{
    u64::from(byte % 128)
}
