//! The line of a file at an offset, and its number, read again.
ghost use Rattle.std.specs.Prelude.{◌≤◌, length};

use crate::pages::showing::shown_line;
use std::alloc::Global;
use std::fs::File;
use std::io::{Read, Seek, SeekFrom};
use std::rt::Files;

/// How many bytes are read again at a time.
const PIECE: usize = 4096;

/// Reads bytes of a file, from an offset on, as many as one read gives; none if that fails.
pub(crate) fn read_piece<R: Files>(rt: &R, path: &str, from: u64, piece: &mut [u8]) -> usize
    ensures { result ≤ length piece.new }
{
    let Ok(mut file) = File::open(rt, path) else {
        return 0;
    };
    let Ok(_) = file.seek(SeekFrom::Start(from)) else {
        return 0;
    };
    file.read(piece).unwrap_or(0)
}

/// Returns true if a file begins as an ASCII circuit.
pub(crate) fn is_ascii<R: Files>(rt: &R, path: &str) -> bool {
    let mut letters = [0u8; 3];
    read_piece(rt, path, 0, &mut letters) == 3 && letters.as_slice() == b"aag".as_slice()
}

fn newlines(bytes: &[u8]) -> u64 {
    let mut count: u64 = 0;
    for byte in bytes {
        if *byte == b'\n' {
            count = count.saturating_add(1);
        }
    }
    count
}

/// Returns the number of the line at an offset, from 1, by the newlines before it. Gives none if
/// these can't be read.
pub(crate) fn line_number<R: Files>(rt: &R, path: &str, offset: u64) -> Option<u64> {
    let Ok(mut file) = File::open(rt, path) else {
        return None;
    };
    let mut piece = [0u8; PIECE];
    let mut left = offset;
    let mut number: u64 = 1;
    for _ in 0..offset {
        let wanted = left.min(PIECE as u64) as usize;
        let Ok(count) = file.read(&mut piece[..wanted]) else {
            return None;
        };
        number = number.saturating_add(newlines(&piece[..count]));
        left -= count as u64;
        if left == 0 {
            return Some(number);
        }
        if count == 0 {
            return None;
        }
    }
    Some(number)
}

/// Returns the line of a file at an offset, or nothing if the line is missing.
pub(crate) fn line_of_file<R: Files>(
    rt: &R,
    alloc: Global,
    path: &str,
    offset: u64,
) -> Option<Vec<u8>> {
    let mut piece = [0u8; PIECE];
    let count = read_piece(rt, path, offset, &mut piece);
    if count == 0 {
        return None;
    }
    match shown_line(alloc, &piece[..count]) {
        Ok(line) => Some(line),
        Err(_) => None,
    }
}
