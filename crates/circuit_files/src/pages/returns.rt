//! Lines of a list that end with carriage returns name files, or latches, that end so.
use crate::pages::hints::can_be_read_again;
use crate::pages::line::read_piece;
use crate::pages::message::Message;
use counted_io::{CountedWrite, Source};
use std::rt::Files;

/// How many bytes of a list are looked at.
const PIECE: usize = 4096;

/// Returns true if the first line ends with a carriage return.
fn has_return(bytes: &[u8]) -> bool {
    for k in 1..bytes.len() {
        if bytes[k] == b'\n' {
            return bytes[k - 1] == b'\r';
        }
    }
    false
}

/// Says on standard error, if that is a terminal, that the lines of a list end with carriage
/// returns. Only a regular file is read again. A write that fails changes nothing.
pub fn tell_returns<R: Files, E: CountedWrite>(
    rt: &R,
    list: Source<'_>,
    is_terminal: bool,
    err: &mut E,
) {
    let Source::File(path) = list else {
        return;
    };
    if !is_terminal || !can_be_read_again(rt, path) {
        return;
    }
    let mut piece = [0u8; PIECE];
    let count = read_piece(rt, path, 0, &mut piece);
    if has_return(&piece[..count]) {
        let mut message = Message::new(err, is_terminal);
        message.put(b"the first line of ");
        message.put(path.as_bytes());
        message.put(b" ends with a carriage return, and so does the last name in it\n");
        message.send();
    }
}
