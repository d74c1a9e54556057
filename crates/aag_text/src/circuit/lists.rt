//! The lists that the sections of a file left. That they fit the header is looked at here once
//! more, in linear time, so `resolve` needn't require it of its caller.
use crate::circuit::placing::{Placed, place_all};
use ascii_file::{Header, Names, Places, PropertyLists, RawGate, RawLatch};
use file_words::ReadError;
use std::alloc::Global;

/// The lists that the sections of a file left, by the file's own literals. Each variable that a
/// line defines has its place, counted from 0 in file order.
#[derive(Drop)]
pub struct RawLists {
    pub header: Header,
    pub inputs: Vec<u32>,
    pub latches: Vec<RawLatch>,
    pub properties: PropertyLists,
    pub gates: Vec<RawGate>,
    pub names: Names,
    pub places: Places,
}

impl RawLists {
    ghost use Rattle.std.specs.Prelude.{◌≡◌, ◌+◌, ◌≤◌, ◌^◌, ◌↔◌, length, IsTrue};
    ghost use Rattle.std.specs.List.{sum};
    ghost use Rattle.ascii_file.specs.Raw.{safety_count};
    ghost use Rattle.ascii_file.specs.Headers.{IsHeaderWithin};
    ghost use Rattle.file_words.specs.declared.fault.ReadError.TheVariants.{NoMemory};
    ghost use Rattle.file_words.specs.Answering.{Gives};
    ghost use Rattle.aag_text.specs.Numbering.{placed_lists};
    ghost use Rattle.aag_text.specs.Resolving.{IsConsistent};

    /// Returns true if there are as many items of each section as the header says, and names of
    /// such alone.
    pub(crate) fn are_consistent(&self) -> bool
        requires within { IsHeaderWithin self.now.header }
        ensures { IsTrue result ↔ IsConsistent self.now }
    {
        self.are_counted() && self.are_properties_counted() && self.names.are_within(&self.header)
    }

    fn are_counted(&self) -> bool
        ensures { IsTrue result ↔ ((length self.now.inputs.items ≡ self.now.header.inputs)
            × (length self.now.latches.items ≡ self.now.header.latches)) }
    {
        self.inputs.len() == self.header.inputs as usize
            && self.latches.len() == self.header.latches as usize
    }

    fn are_properties_counted(&self) -> bool
        requires within { IsHeaderWithin self.now.header }
        ensures { IsTrue result ↔ ((length self.now.properties.safety
            ≡ safety_count self.now.header)
            × (length self.now.properties.sizes ≡ self.now.header.justice)
            × (length self.now.properties.liveness ≡ sum self.now.properties.sizes
            + self.now.header.fairness)) }
    {
        let header = &self.header;
        let safety = header.outputs + header.bad + header.constraints;
        let liveness = self.properties.size_sum() as usize + header.fairness as usize;
        self.properties.safety_len() == safety as usize
            && self.properties.sizes_len() == header.justice as usize
            && self.properties.liveness_len() == liveness
    }

    /// Returns the lists by places, or `Undefined`.
    pub(crate) fn placed(&self, alloc: Global) -> Result<Placed, ReadError>
        requires { 1 + length self.now.inputs.items + length self.now.latches.items + length
            self.now.gates.items ≤ 2 ^ 28 }
        ensures { Gives NoMemory (λ p. p) result (placed_lists self.now.places
            (length self.now.inputs.items + length self.now.latches.items + length
            self.now.gates.items)
            self.now.latches.items self.now.properties.safety self.now.properties.liveness
            self.now.gates.items) }
    {
        let count = self.inputs.len() + self.latches.len() + self.gates.len();
        place_all(
            alloc,
            &self.places,
            count as u32,
            self.latches.as_slice(),
            self.properties.safety(),
            self.properties.liveness(),
            self.gates.as_slice(),
        )
    }
}
