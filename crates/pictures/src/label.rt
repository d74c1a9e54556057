//! Names of a file are any bytes, while a label of DOT is UTF-8 text in which quotation marks,
//! backslashes and ampersands have a meaning. So those are escaped, and bytes that are no text are
//! shown by their numbers.
ghost use Rattle.std.specs.Prelude.{◌≡◌, ◌<◌};
ghost use Rattle.std.specs.Str.{is_utf8};
ghost use Rattle.std.specs.List.{flat_map};
ghost use Rattle.counted_io.specs.Buffered.{Puts};
ghost use Rattle.pictures.specs.Labels.{hex_byte, hex_digit, label, label_byte, other_byte, stands};

use counted_io::{Buffered, CountedWrite};
use std::str;

fn hex_digit(number: u8) -> u8
    requires { number < 16 }
    ensures { result ≡ hex_digit number }
{
    if number < 10 {
        b'0' + number
    } else {
        b'A' - 10 + number
    }
}

/// Puts a byte by its number, as text that shows it.
fn put_hex<W: CountedWrite>(out: &mut Buffered<'_, W>, byte: u8)
    ensures { Puts W.output out.old out.new (hex_byte byte) }
{
    out.put(b"\\\\x");
    out.put_byte(hex_digit(byte / 16));
    out.put_byte(hex_digit(byte % 16));
}

/// Returns true if a byte of a name stands for itself.
fn stands(utf8: bool, byte: u8) -> bool
    ensures { result ≡ stands utf8 byte }
{
    if byte < 128 {
        32 <= byte && byte < 127
    } else {
        utf8
    }
}

/// Puts a byte that is no quotation mark, backslash or ampersand.
fn put_other<W: CountedWrite>(out: &mut Buffered<'_, W>, utf8: bool, byte: u8)
    ensures { Puts W.output out.old out.new (other_byte utf8 byte) }
{
    if stands(utf8, byte) {
        out.put_byte(byte);
    } else {
        put_hex(out, byte);
    }
}

fn put_label_byte<W: CountedWrite>(out: &mut Buffered<'_, W>, utf8: bool, byte: u8)
    ensures { Puts W.output out.old out.new (label_byte utf8 byte) }
{
    if byte == b'"' {
        out.put(b"\\\"");
    } else if byte == b'\\' {
        out.put(b"\\\\");
    } else if byte == b'&' {
        out.put(b"&amp;");
    } else {
        put_other(out, utf8, byte);
    }
}

fn put_label_bytes<W: CountedWrite>(out: &mut Buffered<'_, W>, utf8: bool, name: &[u8])
    ensures { Puts W.output out.old out.new (flat_map (label_byte utf8) name.now) }
{
    for byte in name {
        put_label_byte(out, utf8, *byte);
    }
}

fn is_utf8(bytes: &[u8]) -> bool
    ensures { result ≡ is_utf8 bytes.now }
{
    str::from_utf8(bytes).is_ok()
}

/// Puts a name as it stands in a quoted label.
pub(crate) fn put_label<W: CountedWrite>(out: &mut Buffered<'_, W>, name: &[u8])
    ensures { Puts W.output out.old out.new (label name.now) }
{
    put_label_bytes(out, is_utf8(name), name);
}
