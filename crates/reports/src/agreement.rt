//! Whether a file is the text of a circuit, and the line that says it.
ghost use Rattle.std.specs.Prelude.{◌≡◌};
ghost use Rattle.counted_io.specs.Buffered.{Puts};
ghost use Rattle.reports.specs.Agreements.{IsAgreement, agreement_text, difference_line};

use counted_io::{Buffered, CountedWrite};

/// What comes of comparing a file with the text of a circuit.
#[derive(Clone, Copy)]
pub enum Agreement {
    /// The file is the text.
    Same,
    /// The first byte that differs, or that one of them lacks, has this offset.
    DiffersAt(u64),
}

/// Compares a file with a text. Takes no memory.
pub fn compare(text: &[u8], file: &[u8]) -> Agreement
    ensures { IsAgreement text.now file.now result }
{
    let common = text.len().min(file.len());
    for place in 0..common {
        if text[place] != file[place] {
            return Agreement::DiffersAt(place as u64);
        }
    }
    if text.len() == file.len() {
        Agreement::Same
    } else {
        Agreement::DiffersAt(common as u64)
    }
}

/// Puts the line of a file that differs first at this offset.
fn put_difference<W: CountedWrite>(out: &mut Buffered<'_, W>, offset: u64)
    ensures { Puts W.output out.old out.new (difference_line offset) }
{
    out.put(b"out differs at ");
    out.put_number(offset);
    out.put_byte(b'\n');
}

/// Puts the outcome of comparing a file, or nothing if none was compared.
pub(crate) fn put_agreement<W: CountedWrite>(
    out: &mut Buffered<'_, W>,
    agreement: Option<Agreement>,
)
    ensures { Puts W.output out.old out.new (agreement_text agreement) }
{
    match agreement {
        None => out.put(b""),
        Some(Agreement::Same) => out.put(b"out same\n"),
        Some(Agreement::DiffersAt(offset)) => put_difference(out, offset),
    }
}
