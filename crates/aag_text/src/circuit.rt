//! The last step of reading: the lists that the sections left become a circuit. Literals are
//! renumbered by the places of the variables that the lines define, inputs first, then latches,
//! then gates. Gates take an order in which each reads only what stands before it.
ghost use Rattle.std.specs.Prelude.{List, ◌≡◌, true};
ghost use Rattle.ascii_file.specs.Raw.{RawSymbol};
ghost use Rattle.ascii_file.specs.Reading as reading;
ghost use Rattle.file_words.specs.declared.fault.ReadError.TheVariants.{NoMemory};
ghost use Rattle.file_words.specs.Answering.{Gives};
ghost use Rattle.aag_text.specs.Taking.{raw_of, IsAt};

mod arranging;
mod lists;
mod numbering;
mod order;
mod placing;
mod resolving;

use crate::circuit::lists::RawLists;
use crate::sections::Sections;
use aig_graph::Circuit;
use file_words::ReadError;
use std::alloc::Global;

/// Returns the circuit of sections that have all their items.
pub(crate) fn resolve(alloc: Global, sections: Sections) -> Result<Circuit, ReadError>
    ensures { (symbols : List RawSymbol) → IsAt sections symbols
        → reading.is_complete sections.header (raw_of sections symbols) ≡ true
        → Gives NoMemory (λ circuit. circuit) result
        (reading.resolve sections.header (raw_of sections symbols)) }
{
    let Sections {
        header,
        inputs,
        latches,
        properties,
        gates,
        places,
        names,
        ..
    } = sections;
    let lists = RawLists {
        header,
        inputs,
        latches,
        properties,
        gates,
        names,
        places,
    };
    resolving::resolve(alloc, lists)
}
