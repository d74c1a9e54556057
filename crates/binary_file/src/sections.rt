//! The items of a file that were read. The section that comes next is kept nowhere, so it can't
//! disagree with the items. It is the first one with fewer items than the header says.
ghost use Rattle.std.specs.Prelude.{◌≡◌};
ghost use Rattle.ascii_file.specs.Raw.{safety_count};

mod circuits;
mod gates;
mod lines;
mod numbers;
mod symbols;

use aig_graph::{Gate, Latch};
use ascii_file::{Header, Names, PropertyLists, Section};
use std::alloc::Global;
use std::marker::Model;

/// What is read of a binary file after its header, item by item. Room grows with what was read,
/// never by the header's numbers.
pub struct Sections {
    pub(crate) header: Header,
    pub(crate) latches: Vec<Latch>,
    pub(crate) properties: PropertyLists,
    pub(crate) gates: Vec<Gate>,
    pub(crate) names: Names,
}

impl Drop for Sections {
    // written out: docs/PROOFS.md, Drops and exits
    fn drop(self) {
        let Sections {
            header: _header,
            latches: _latches,
            properties: _properties,
            gates: _gates,
            names: _names,
        } = self;
    }
}

impl Model for Sections {
    ghost use Rattle.binary_file.specs.Contents.{Contents};
    ghost use Rattle.binary_file.specs.Kept.{IsKept};

    ghost Value = { Contents };

    ghost view = { λ s. record { header = s.header; latches = s.latches.items; properties = s.properties; gates = s.gates.items; names = s.names } };

    ghost invariant = { λ s. IsKept (record { header = s.header; latches = s.latches.items; properties = s.properties; gates = s.gates.items; names = s.names }) };
}

impl Sections {
    ghost use Rattle.std.specs.Prelude.{ℕ, ◌≡◌, ◌+◌, ◌*◌, ◌<◌, ◌^◌, length};
    ghost use Rattle.std.specs.List.{sum};
    ghost use Rattle.ascii_file.specs.declared.header.Header.{Header};
    ghost use Rattle.ascii_file.specs.Raw.{Raw, nothing_yet, safety_count, count_of};
    ghost use Rattle.binary_file.specs.Headers.{IsHeaderWithin};
    ghost use Rattle.binary_file.specs.Items.{next_section};
    ghost use Rattle.binary_file.specs.Contents.{IsAt, section_to_fill};

    /// Returns sections of which nothing is read but the header. Takes no memory.
    pub fn new(alloc: Global, header: Header) -> Sections
        requires { IsHeaderWithin header }
        ensures { IsAt result header nothing_yet }
    {
        Sections {
            header,
            latches: Vec::new(alloc),
            properties: PropertyLists::new(alloc),
            gates: Vec::new(alloc),
            names: Names::new(alloc),
        }
    }

    /// Returns the section of the next item: the first one that isn't full. That of inputs has no
    /// items.
    pub fn section(&self) -> Section
        ensures here { result ≡ section_to_fill self.now }
        ensures next { (h : Header) (raw : Raw) → IsAt self.now h raw
            → result ≡ next_section h raw }
    {
        self.first_with_room()
    }

    fn first_with_room(&self) -> Section
        ensures { result ≡ section_to_fill self.now }
    {
        let header = self.header;
        let properties = &self.properties;
        if self.latches.len() < header.latches as usize {
            Section::Latches
        } else if properties.safety_len() < safety_count(&header) {
            Section::Safety
        } else if properties.sizes_len() < header.justice as usize {
            Section::Sizes
        } else if properties.liveness_len()
            < properties.size_sum() as usize + header.fairness as usize
        {
            Section::Liveness
        } else if self.gates.len() < header.gates as usize {
            Section::Gates
        } else {
            Section::Symbols
        }
    }
}

/// Returns the number of literals of outputs, bad states and constraints.
fn safety_count(header: &Header) -> usize
    ensures { result ≡ safety_count header.now }
{
    header.outputs as usize + header.bad as usize + header.constraints as usize
}
