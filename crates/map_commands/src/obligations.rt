//! The line of what a check of a map doesn't show.
ghost use Rattle.std.specs.Prelude.{◌≡◌};
ghost use Rattle.counted_io.specs.Buffered.{Puts};
ghost use Rattle.counted_io.specs.Output.{Writes};
ghost use Rattle.map_commands.specs.Obligations.{equal_line, obligation_text, retiming_line};
ghost use Rattle.map_commands.specs.Obligations as wanted;

use counted_io::{Buffered, CountedWrite, WriteError};
use map_checks::Obligation;

/// Returns the question that is open: of step 0, of the constraints a step later, of the latches a
/// step later, or of the properties.
fn question_of(obligation: Obligation) -> &'static str
    ensures { result.now ≡ wanted.question_of obligation }
{
    match obligation {
        Obligation::ConstraintAtReset(_) | Obligation::LatchAtReset(_) => "reset",
        Obligation::Constraint(_) => "keep",
        Obligation::Latch(_) => "next",
        Obligation::Output(_)
        | Obligation::Bad(_)
        | Obligation::Invariant(_)
        | Obligation::Justice(_)
        | Obligation::Fairness(_) => "read",
    }
}

/// Returns the kind that it is open of.
fn kind_of_obligation(obligation: Obligation) -> &'static str
    ensures { result.now ≡ wanted.kind_of_obligation obligation }
{
    match obligation {
        Obligation::ConstraintAtReset(_) | Obligation::Constraint(_) | Obligation::Invariant(_) =>
            "constraint",
        Obligation::LatchAtReset(_) | Obligation::Latch(_) => "latch",
        Obligation::Output(_) => "output",
        Obligation::Bad(_) => "bad",
        Obligation::Justice(_) => "justice",
        Obligation::Fairness(_) => "fairness",
    }
}

/// Returns its place among those of its kind, from 0.
fn place_of_obligation(obligation: Obligation) -> usize
    ensures { result ≡ wanted.place_of_obligation obligation }
{
    match obligation {
        Obligation::ConstraintAtReset(place)
        | Obligation::LatchAtReset(place)
        | Obligation::Constraint(place)
        | Obligation::Latch(place)
        | Obligation::Output(place)
        | Obligation::Bad(place)
        | Obligation::Invariant(place)
        | Obligation::Justice(place)
        | Obligation::Fairness(place) => place,
    }
}

fn put_obligation<W: CountedWrite>(out: &mut Buffered<'_, W>, obligation: Obligation)
    ensures { Puts W.output out.old out.new (obligation_text obligation) }
{
    out.put(b"not shown: ");
    out.put(question_of(obligation).as_bytes());
    out.put(b" ");
    out.put(kind_of_obligation(obligation).as_bytes());
    out.put(b" ");
    out.put_number(place_of_obligation(obligation) as u64);
    out.put_byte(b'\n');
}

/// Prints what isn't shown.
///
/// # Errors
///
/// `Device` if a write failed: a beginning of the text was written then, and the writer isn't
/// called again.
pub(crate) fn print_obligation<W: CountedWrite>(
    obligation: Obligation,
    writer: &mut W,
) -> Result<(), WriteError>
    ensures { Writes (W.output writer.old) (W.output writer.new) result
        (obligation_text obligation) }
{
    let mut out = Buffered::new(writer);
    put_obligation(&mut out, obligation);
    out.flush()
}

/// Prints that a circuit is a retiming.
///
/// # Errors
///
/// `Device` if a write failed: a beginning of the text was written then, and the writer isn't
/// called again.
pub(crate) fn print_retiming<W: CountedWrite>(writer: &mut W) -> Result<(), WriteError>
    ensures { Writes (W.output writer.old) (W.output writer.new) result retiming_line }
{
    let mut out = Buffered::new(writer);
    out.put(b"retiming\n");
    out.flush()
}

/// Prints that the properties of two circuits are the same.
///
/// # Errors
///
/// `Device` if a write failed: a beginning of the text was written then, and the writer isn't
/// called again.
pub(crate) fn print_equal<W: CountedWrite>(writer: &mut W) -> Result<(), WriteError>
    ensures { Writes (W.output writer.old) (W.output writer.new) result equal_line }
{
    let mut out = Buffered::new(writer);
    out.put(b"equal\n");
    out.flush()
}
