ghost use Rattle.std.specs.Prelude.{ℕ, List, ◌≡◌, ◌∷◌, [], IfOk, Ok, codes};
ghost use Rattle.ascii_file.specs.Reading.{unless};
ghost use Rattle.file_words.specs.declared.fault.ReadError.TheVariants.{MaxIndex};
ghost use Rattle.ascii_file.specs.parts.Header.{header_row, header_with};
ghost use Rattle.binary_file.specs.Headers.{IsHeaderWithin};
ghost use Rattle.binary_file.specs.Reading as reading;
ghost use Rattle.binary_file.specs.Header.{is_miscounted};

use ascii_file::{Header, HeaderLine};
use file_words::ReadError;

/// Returns the header of a binary file that the line spells. All its bytes have come.
pub(crate) fn binary_header(line: &mut HeaderLine) -> Result<Header, ReadError>
    ensures header { (bytes : List ℕ) → header_with line.old [] ≡ header_row (codes "aig ") bytes
        → result ≡ reading.read_header bytes }
    ensures within { IfOk result IsHeaderWithin }
{
    match line.limited() {
        Ok(header) => with_all_variables(header),
        Err(fault) => Err(fault),
    }
}

/// Returns the header if it counts as many variables as its greatest.
fn with_all_variables(header: Header) -> Result<Header, ReadError>
    ensures { result ≡ unless ((is_miscounted header, MaxIndex 0) ∷ []) (Ok header) }
{
    let variables = u64::from(header.inputs) + u64::from(header.latches) + u64::from(header.gates);
    if variables == u64::from(header.greatest) {
        Ok(header)
    } else {
        Err(ReadError::MaxIndex(0))
    }
}
