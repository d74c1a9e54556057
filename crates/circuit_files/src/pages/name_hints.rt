//! The nearest name to one that a circuit hasn't.
ghost use Rattle.std.specs.Prelude.{◌≡◌};
ghost use Rattle.std.specs.List.{flat_map};
ghost use Rattle.counted_io.specs.Buffered.{Puts};
ghost use Rattle.circuit_files.specs.pages.HintedLines.{lead, nearest_line, shown_byte};

use crate::circuit_at;
use crate::pages::near_names::nearest;
use crate::pages::showing::printable;
use aig_graph::{Circuit, Symbol, Symbols};
use counted_io::{Buffered, Counted, CountedWrite, Source};
use std::alloc::{AllocError, Global};
use std::io;
use std::rt::Files;

/// Puts a name so that no byte of it steers the terminal.
fn put_printable<W: CountedWrite>(out: &mut Buffered<'_, W>, name: &[u8])
    ensures { Puts W.output out.old out.new (flat_map shown_byte name.now) }
{
    for byte in name {
        out.put_byte(printable(*byte));
    }
}

/// Returns the beginning of the line of the nearest name.
fn lead(of_all: bool) -> &'static [u8]
    ensures { result.now ≡ lead of_all }
{
    if of_all {
        b"the nearest name is "
    } else {
        b"the nearest name of a latch is "
    }
}

fn put_found<W: CountedWrite>(name: &[u8], of_all: bool, out: &mut Buffered<'_, W>)
    ensures { Puts W.output out.old out.new (nearest_line of_all name.now) }
{
    out.put(lead(of_all));
    put_printable(out, name);
    out.put_byte(b'\n');
}

/// Returns the number of bytes of the word that a part of a name has with this one more. Gives
/// `None` if the part isn't the beginning of the word.
fn longer(matched: Option<usize>, word: &[u8], byte: u8) -> Option<usize> {
    match matched {
        Some(count) if count < word.len() && word[count] == byte => Some(count + 1),
        _ => None,
    }
}

/// Returns true if a part that has `matched` bytes of the word is the word.
fn is_whole(matched: Option<usize>, word: &[u8]) -> bool {
    match matched {
        Some(count) => count == word.len(),
        None => false,
    }
}

/// Returns true if a name is several words, and this is one of them. Some tools write all names of
/// a latch as one.
fn has_word(name: &[u8], word: &[u8]) -> bool {
    let mut matched = Some(0);
    for byte in name {
        if *byte != b' ' {
            matched = longer(matched, word, *byte);
        } else if is_whole(matched, word) {
            return true;
        } else {
            matched = Some(0);
        }
    }
    is_whole(matched, word)
}

/// Returns the place of the first name that has the word.
fn with_word(names: &[&[u8]], word: &[u8]) -> Option<usize> {
    for (place, name) in names.iter().enumerate() {
        if has_word(*name, word) {
            return Some(place);
        }
    }
    None
}

/// Appends the names of symbols.
fn push_names<'a>(symbols: &'a [Symbol], names: &mut Vec<&'a [u8]>) -> Result<(), AllocError> {
    for symbol in symbols {
        names.push(symbol.name.as_slice())?;
    }
    Ok(())
}

/// Appends the names of the latches, or of all that has one.
fn push_names_of<'a>(
    symbols: &'a Symbols,
    of_all: bool,
    names: &mut Vec<&'a [u8]>,
) -> Result<(), AllocError> {
    let kinds = [
        symbols.latches.as_slice(),
        symbols.inputs.as_slice(),
        symbols.outputs.as_slice(),
        symbols.bad.as_slice(),
        symbols.constraints.as_slice(),
        symbols.justice.as_slice(),
        symbols.fairness.as_slice(),
    ];
    let wanted = if of_all { kinds.len() } else { 1 };
    for kind in &kinds[..wanted] {
        push_names(*kind, names)?;
    }
    Ok(())
}

/// Puts the name of a latch, or of anything, that has this one as a word, else the nearest one, if
/// one is near.
fn put_nearest<W: CountedWrite>(
    alloc: Global,
    circuit: &Circuit,
    name: &str,
    of_all: bool,
    out: &mut Buffered<'_, W>,
) -> Result<(), AllocError> {
    let mut names = Vec::new(alloc);
    push_names_of(circuit.symbols(), of_all, &mut names)?;
    let near = match with_word(names.as_slice(), name.as_bytes()) {
        Some(place) => Some(place),
        None => nearest(alloc, name.as_bytes(), names.as_slice())?,
    };
    if let Some(place) = near {
        put_found(names.get(place).copied().unwrap_or(b""), of_all, out);
    }
    Ok(())
}

/// Puts the nearest name to one that the circuit of a file hasn't. The file is read again, for its
/// names.
pub(crate) fn put_name<R: Files, W: CountedWrite>(
    rt: &R,
    alloc: Global,
    path: &str,
    name: &str,
    of_all: bool,
    out: &mut Buffered<'_, W>,
) {
    let mut nothing = Counted::new(io::empty());
    if let Ok(spelt) = circuit_at(rt, alloc, Source::File(path), &mut nothing) {
        let _ = put_nearest(alloc, &spelt.circuit, name, of_all, out);
        drop(spelt);
    }
}
