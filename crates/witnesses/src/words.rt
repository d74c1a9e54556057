//! The words of the line of properties. A number is read up to 2^64 - 1, which is past every
//! circuit's properties, and stays there.
ghost use Rattle.std.specs.Prelude.{◌≡◌, []};
ghost use Rattle.file_words.specs.Lines.{pieces};
ghost use Rattle.witnesses.specs.declared.fault.WitnessError.TheVariants.{NoMemory};
ghost use Rattle.file_words.specs.Answering.{Gives};
ghost use Rattle.witnesses.specs.Properties.{has_property, properties_of, property_of, with_property};

use crate::fault::WitnessError;
use crate::widths::Widths;
use crate::witness::Property;
use aig_graph::Sequence;
use file_words::{Line, cut, number};
use std::alloc::Global;

/// Returns the property that a word names: `b` or `j`, and its number.
fn property(word: &[u8]) -> Option<Property>
    ensures { result ≡ property_of word.now }
{
    let (letter, digits) = word.split_first()?;
    let number = number(digits)? as usize;
    match *letter {
        b'b' => Some(Property::Bad(number)),
        b'j' => Some(Property::Justice(number)),
        _ => None,
    }
}

/// Returns true if the circuit has the property.
fn has(widths: &Widths, property: Property) -> bool
    ensures { result ≡ has_property widths.now property }
{
    match property {
        Property::Bad(number) => number < widths.bad,
        Property::Justice(number) => number < widths.justice,
    }
}

/// Takes a word of the line at an offset.
fn push_property(
    properties: &mut Vec<Property>,
    widths: &Widths,
    at: u64,
    word: &[u8],
) -> Result<(), WitnessError>
    ensures { Gives NoMemory (λ _. properties.new.items) result
        (with_property widths.now at properties.old.items word.now) }
{
    let Some(property) = property(word) else {
        return Err(WitnessError::BadLine(at));
    };
    if !has(widths, property) {
        return Err(WitnessError::NoSuchProperty(at));
    }
    properties.push(property)?;
    Ok(())
}

/// Reads the line as one of properties, with one space between.
pub(crate) fn properties(
    alloc: Global,
    line: &Line<'_>,
    widths: &Widths,
) -> Result<Sequence<Property>, WitnessError>
    ensures { Gives NoMemory (λ properties. properties) result
        (properties_of widths.now line.now.at [] (pieces line.now.text.now)) }
{
    let mut properties = Vec::new(alloc);
    let mut rest = line.text;
    while let Some((word, more)) = cut(rest, b' ') {
        push_property(&mut properties, widths, line.at, word)?;
        rest = more;
    }
    push_property(&mut properties, widths, line.at, rest)?;
    Ok(Sequence::from_vec(properties))
}
