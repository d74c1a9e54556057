//! An object on a line.
ghost use Rattle.std.specs.Prelude.{◌≡◌, ◌∷◌, ◌++◌, []};
ghost use Rattle.counted_io.specs.Buffered.{Puts};
ghost use Rattle.counted_io.specs.Output.{Writes};
ghost use Rattle.serde_json.specs.View.{view};
ghost use Rattle.json_reports.specs.Lines.{IsPlain, PrintsLine, PrintsMade};

use counted_io::{Buffered, CountedWrite, WriteError};
use serde_json::Value;
use std::alloc::{AllocError, Global};
use thiserror::Error;

/// Why an object wasn't printed.
#[derive(Clone, Copy, Debug, Error)]
pub enum PrintError {
    /// Memory was refused.
    #[error("out of memory")]
    NoMemory,
    /// A write failed.
    #[error("device")]
    Device,
}

impl From<AllocError> for PrintError {
    ghost use Rattle.json_reports.specs.declared.printing.PrintError.TheVariants.{NoMemory};

    ghost from_gives = { λ _ e. e ≡ NoMemory };

    fn from(_error: AllocError) -> PrintError {
        PrintError::NoMemory
    }
}

/// Puts a text and a newline.
fn put_line<W: CountedWrite>(out: &mut Buffered<'_, W>, text: &[u8])
    ensures { Puts W.output out.old out.new (text.now ++ 10 ∷ []) }
{
    out.put(text);
    out.put_byte(b'\n');
}

/// Writes a text and a newline.
fn write_line<W: CountedWrite>(text: &[u8], writer: &mut W) -> Result<(), WriteError>
    ensures { Writes (W.output writer.old) (W.output writer.new) result (text.now ++ 10 ∷ []) }
{
    let mut out = Buffered::new(writer);
    put_line(&mut out, text);
    out.flush()
}

/// Prints an object of JSON on a line.
///
/// # Errors
///
/// `NoMemory` if there is no room for the text: the writer isn't called then. `Device` if a write
/// failed: a beginning of the line was written then, and the writer isn't called again.
pub fn print_object<W: CountedWrite>(
    alloc: Global,
    object: &Value,
    writer: &mut W,
) -> Result<(), PrintError>
    ensures { IsPlain (view object.now)
        → PrintsLine (view object.now) (W.output writer.old) (W.output writer.new) result }
{
    let text = object.to_vec(alloc)?;
    match write_line(text.as_slice(), writer) {
        Ok(()) => Ok(()),
        Err(_) => Err(PrintError::Device),
    }
}

/// Prints an object that was to be made on a line.
///
/// # Errors
///
/// `NoMemory` if it wasn't made; those of [`print_object`].
pub(crate) fn print_made<W: CountedWrite>(
    alloc: Global,
    made: Result<Value, AllocError>,
    writer: &mut W,
) -> Result<(), PrintError>
    ensures { PrintsMade made (W.output writer.old) (W.output writer.new) result }
{
    match made {
        Ok(object) => {
            let printed = print_object(alloc, &object, writer);
            drop(object);
            printed
        }
        Err(_) => Err(PrintError::NoMemory),
    }
}
