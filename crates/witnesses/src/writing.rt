//! A witness as AIGER's tools read it. What was found of it follows after its end, as comments, so
//! the text is still a witness.
ghost use Rattle.std.specs.Prelude.{◌≡◌, ◌∷◌, [], decimal};
ghost use Rattle.std.specs.List.{flat_map};
ghost use Rattle.counted_io.specs.Buffered.{Puts};
ghost use Rattle.counted_io.specs.Output.{Writes};
ghost use Rattle.witnesses.specs.Texts.{digit_code, digit_text, objection_text, reason, properties_text, property_text, reached_text, row_text, spaced_property, witness_text, whole_text};

use crate::confirming::Objection;
use crate::witness::{Digit, Property, Reached, Witness};
use aig_graph::Sequence;
use counted_io::{Buffered, CountedWrite, WriteError};

fn digit_code(digit: Digit) -> u8
    ensures { result ≡ digit_code digit }
{
    match digit {
        Digit::Zero => b'0',
        Digit::One => b'1',
        Digit::Either => b'x',
    }
}

fn put_digits<W: CountedWrite>(out: &mut Buffered<'_, W>, digits: &[Digit])
    ensures { Puts W.output out.old out.new (flat_map digit_text digits.now) }
{
    for digit in digits {
        out.put_byte(digit_code(*digit));
    }
}

/// Puts a line of values.
fn put_row<W: CountedWrite>(out: &mut Buffered<'_, W>, digits: &[Digit])
    ensures { Puts W.output out.old out.new (row_text digits.now) }
{
    put_digits(out, digits);
    out.put_byte(b'\n');
}

/// Puts a line for each step, and the line that ends them.
fn put_steps<W: CountedWrite>(out: &mut Buffered<'_, W>, steps: &[Sequence<Digit>])
    ensures { Puts W.output out.old out.new (flat_map row_text steps.now) }
{
    for step in steps {
        put_row(out, step.as_slice());
    }
}

/// Puts the letter of a kind of property, and a number.
fn put_numbered<W: CountedWrite>(out: &mut Buffered<'_, W>, letter: u8, number: usize)
    ensures { Puts W.output out.old out.new (letter ∷ decimal number) }
{
    out.put_byte(letter);
    out.put_number(number as u64);
}

fn put_property<W: CountedWrite>(out: &mut Buffered<'_, W>, property: Property)
    ensures { Puts W.output out.old out.new (property_text property) }
{
    match property {
        Property::Bad(number) => put_numbered(out, b'b', number),
        Property::Justice(number) => put_numbered(out, b'j', number),
    }
}

fn put_spaced<W: CountedWrite>(out: &mut Buffered<'_, W>, property: Property)
    ensures { Puts W.output out.old out.new (spaced_property property) }
{
    out.put_byte(b' ');
    put_property(out, property);
}

/// Puts properties with a space before each.
fn put_all_spaced<W: CountedWrite>(out: &mut Buffered<'_, W>, properties: &[Property])
    ensures { Puts W.output out.old out.new (flat_map spaced_property properties.now) }
{
    for property in properties {
        put_spaced(out, *property);
    }
}

/// Puts the line of the properties.
fn put_properties<W: CountedWrite>(out: &mut Buffered<'_, W>, properties: &[Property])
    ensures { Puts W.output out.old out.new (properties_text properties.now) }
{
    let Some((first, others)) = properties.split_first() else {
        out.put_byte(b'\n');
        return;
    };
    put_property(out, *first);
    put_all_spaced(out, others);
    out.put_byte(b'\n');
}

fn put_witness<W: CountedWrite>(out: &mut Buffered<'_, W>, witness: &Witness)
    ensures { Puts W.output out.old out.new (witness_text witness.now) }
{
    out.put(b"1\n");
    put_properties(out, witness.properties.as_slice());
    put_row(out, witness.latches.as_slice());
    put_steps(out, witness.inputs.as_slice());
    out.put(b".\n");
}

/// Puts the comment that a property fails at a step.
fn put_reached<W: CountedWrite>(out: &mut Buffered<'_, W>, reached: Reached)
    ensures { Puts W.output out.old out.new (reached_text reached) }
{
    out.put(b"c ");
    put_property(out, reached.property);
    out.put(b" holds at step ");
    out.put_number(reached.step as u64);
    out.put_byte(b'\n');
}

fn put_all_reached<W: CountedWrite>(out: &mut Buffered<'_, W>, reached: &[Reached])
    ensures { Puts W.output out.old out.new (flat_map reached_text reached.now) }
{
    for one in reached {
        put_reached(out, *one);
    }
}

fn put_whole<W: CountedWrite>(out: &mut Buffered<'_, W>, witness: &Witness, reached: &[Reached])
    ensures { Puts W.output out.old out.new (whole_text witness.now reached.now) }
{
    put_witness(out, witness);
    put_all_reached(out, reached);
}

/// Prints a witness, as AIGER's tools write it, and after its end a comment for each of these
/// steps: `c b0 holds at step 3`.
///
/// # Errors
///
/// `Device` if a write failed: a beginning of the text was written then, and the writer isn't
/// called again.
pub fn print_witness<W: CountedWrite>(
    witness: &Witness,
    reached: &[Reached],
    writer: &mut W,
) -> Result<(), WriteError>
    ensures { Writes (W.output writer.old) (W.output writer.new) result
        (whole_text witness.now reached.now) }
{
    let mut out = Buffered::new(writer);
    put_whole(&mut out, witness, reached);
    out.flush()
}

/// Puts what is objected, after the property.
fn put_reason<W: CountedWrite>(out: &mut Buffered<'_, W>, objection: Objection)
    ensures { Puts W.output out.old out.new (reason objection) }
{
    match objection {
        Objection::Unchecked(_) => out.put(b" isn't checked\n"),
        Objection::Unreached(_) => out.put(b" doesn't hold in OUT\n"),
        Objection::Lost(_) => out.put(b" doesn't hold in IN at the same step\n"),
    }
}

fn put_objection<W: CountedWrite>(out: &mut Buffered<'_, W>, objection: Objection)
    ensures { Puts W.output out.old out.new (objection_text objection) }
{
    put_property(out, objection.property());
    put_reason(out, objection);
}

/// Prints why a witness isn't confirmed, on one line.
///
/// # Errors
///
/// `Device` if a write failed: a beginning of the text was written then, and the writer isn't
/// called again.
pub fn print_objection<W: CountedWrite>(
    objection: Objection,
    writer: &mut W,
) -> Result<(), WriteError>
    ensures { Writes (W.output writer.old) (W.output writer.new) result (objection_text objection) }
{
    let mut out = Buffered::new(writer);
    put_objection(&mut out, objection);
    out.flush()
}
