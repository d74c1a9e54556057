use crate::sections::Sections;
use aig_graph::{Aig, Circuit};
use ascii_file::Section;
use file_words::ReadError;
use std::alloc::Global;

impl Sections {
    ghost use Rattle.std.specs.Prelude.{ℕ, ◌≡◌, Ok};
    ghost use Rattle.ascii_file.specs.declared.header.Header.{Header};
    ghost use Rattle.ascii_file.specs.declared.raw.Section.TheVariants.{Symbols};
    ghost use Rattle.ascii_file.specs.Raw.{Raw};
    ghost use Rattle.file_words.specs.declared.fault.ReadError.TheVariants.{NoMemory};
    ghost use Rattle.file_words.specs.Answering.{Gives};
    ghost use Rattle.binary_file.specs.Contents.{IsAt, section_to_fill, netlist_of_contents};
    ghost use Rattle.binary_file.specs.Taking.{circuit_at_end};

    /// Returns the circuit of an input of this length, of which all was read.
    ///
    /// # Errors
    ///
    /// `Truncated` if an item is missing; `NoMemory`.
    pub fn finish(self, alloc: Global, end: u64) -> Result<Circuit, ReadError>
        ensures { (h : Header) (raw : Raw) → IsAt self h raw
            → Gives NoMemory (λ c. c) result (circuit_at_end end h raw) }
    {
        match self.section() {
            Section::Symbols => self.into_circuit(alloc),
            _ => Err(ReadError::Truncated(end)),
        }
    }

    fn into_circuit(self, alloc: Global) -> Result<Circuit, ReadError>
        requires { section_to_fill self ≡ Symbols }
        ensures { Gives NoMemory (λ c. c) result (Ok (netlist_of_contents self)) }
    {
        let Sections {
            header,
            latches,
            properties,
            gates,
            names,
        } = self;
        let props = properties.into_props(alloc, &header)?;
        let symbols = names.into_symbols(alloc)?;
        let aig = Aig::from_parts(header.inputs, latches, gates);
        Ok(Circuit::new(aig, props, symbols))
    }
}
