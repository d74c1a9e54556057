//! The line at fault, for a terminal. A file may have one line of any length, and any bytes. So a
//! beginning of the line is shown, as bytes that every terminal shows.
ghost use Rattle.std.specs.Prelude.{◌≡◌, ◌≤◌, ◌++◌, ◌==◌, IfOk, length, map, position};
ghost use Rattle.circuit_files.specs.pages.Lines.{line_length, printable, shown};

use std::alloc::{AllocError, Global};

/// The most bytes that are shown of a line.
const LONGEST: usize = 60;

/// Returns the index of the first newline.
fn newline_at(bytes: &[u8]) -> Option<usize>
    ensures { result ≡ position (λ b. b == 10) bytes.now }
{
    bytes.iter().position(|byte| *byte == b'\n')
}

/// Returns the number of bytes before the first newline.
fn line_length(bytes: &[u8]) -> usize
    ensures value { result ≡ line_length bytes.now }
    ensures within { result ≤ length bytes.now }
{
    match newline_at(bytes) {
        Some(end) => end,
        None => bytes.len(),
    }
}

/// Returns a byte that every terminal shows as one column: `byte` itself, or `?`.
pub fn printable(byte: u8) -> u8
    ensures { result ≡ printable byte }
{
    if byte < b' ' || b'~' < byte {
        b'?'
    } else {
        byte
    }
}

fn put_printable(text: &mut Vec<u8>, bytes: &[u8]) -> Result<(), AllocError>
    ensures { IfOk result (λ _. text.new.items ≡ text.old.items ++ map printable bytes.now) }
{
    for byte in bytes {
        text.push(printable(*byte))?;
    }
    Ok(())
}

/// Returns the line that the bytes begin with, with its newline. Of a long line some bytes are
/// shown. A byte that isn't printable ASCII is shown as `?`.
#[tactic(auto, unfolding(crate::specs::pages::Lines::shown))]
pub fn shown_line(alloc: Global, bytes: &[u8]) -> Result<Vec<u8>, AllocError>
    ensures { IfOk result (λ text. text.items ≡ shown bytes.now) }
{
    let end = line_length(bytes).min(LONGEST);
    let mut text = Vec::new(alloc);
    put_printable(&mut text, &bytes[..end])?;
    text.push(b'\n')?;
    Ok(text)
}
