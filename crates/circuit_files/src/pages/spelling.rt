//! A circuit whose file has another spelling than its name says.
use crate::pages::hints::can_be_read_again;
use crate::pages::line::read_piece;
use counted_io::{CountedWrite, write_all};
use std::rt::Files;

/// The hint if a file of binary name is in ASCII.
const IN_ASCII: &[u8] = b"written in ASCII: --binary writes binary\n";

/// The hint if a file of ASCII name is binary.
const IN_BINARY: &[u8] = b"written in binary: --ascii writes ASCII\n";

/// Returns the hint for a circuit in a file of this name, by the second of its bytes.
fn surprise_of(path: &str, second: u8) -> Option<&'static [u8]> {
    if path.ends_with(".aig") && second == b'a' {
        Some(IN_ASCII)
    } else if path.ends_with(".aag") && second == b'i' {
        Some(IN_BINARY)
    } else {
        None
    }
}

/// Says on standard error if a circuit that was written has another spelling than the name of its
/// file says. Only a regular file is read again. A write that fails changes nothing.
pub fn tell_spelling<R: Files, E: CountedWrite>(rt: &R, path: &str, err: &mut E) {
    if !can_be_read_again(rt, path) {
        return;
    }
    let mut piece = [0u8; 2];
    let count = read_piece(rt, path, 0, &mut piece);
    if count == 2 {
        if let Some(text) = surprise_of(path, piece[1]) {
            let _ = write_all(err, text);
        }
    }
}
