//! Items line by line. The section of a line follows from the header's numbers and from what has
//! come. The checks of a line stand in the order in which their faults are named, and no later line
//! changes one. So the first fault of the file is the one that is met first.
ghost use Rattle.std.specs.Prelude.{◌≤◌, length};
ghost use Rattle.ascii_file.specs.Headers.{IsHeaderWithin};

mod items;

use crate::sections::items::{gate_of, is_bad_reset, is_past, is_undefinable, latch_of, only};
use aig_graph::Sequence;
use ascii_file::{
    Header, Names, Places, PropertyLists, RawGate, RawLatch, Section, SymbolKind, SymbolText,
};
use file_words::ReadError;
use std::alloc::{AllocError, Global};

/// The greatest number of literals that all justice properties have together.
const MAX_JUSTICE_LITERALS: u64 = 1 << 24;

/// The items that the lines of an ASCII file have given so far, in the file's own literals. Room
/// grows with the items that have come, whatever the header counts. After an `Err` the sections are
/// of no more use.
#[derive(Drop)]
pub struct Sections {
    pub header: Header,
    /// The literals that the lines of inputs define.
    pub inputs: Vec<u32>,
    pub latches: Vec<RawLatch>,
    pub properties: PropertyLists,
    pub gates: Vec<RawGate>,
    /// Of each variable that a line defines its place among them, in file order from 0.
    pub places: Places,
    /// The names that the symbols give.
    pub names: Names,
    ghost within: { IsHeaderWithin header },
    ghost inputs_counted: { length inputs.items ≤ header.inputs },
    ghost latches_counted: { length latches.items ≤ header.latches },
    ghost gates_counted: { length gates.items ≤ header.gates },
}

impl Sections {
    ghost use Rattle.std.specs.Prelude.{ℕ, List, [], ◌∷◌, ◌++◌, ◌≡◌, ◌+◌, ◌*◌, true, false, Some, None, Ok, IsTrue, MatchOption, OnOk};
    ghost use Rattle.aig_graph.specs.Graph.{variable};
    ghost use Rattle.file_words.specs.declared.fault.ReadError.TheVariants.{BadLine, BadSymbol};
    ghost use Rattle.ascii_file.specs.declared.raw.Section.TheVariants.{Inputs, Latches, Safety, Sizes, Liveness, Gates, Symbols};
    ghost use Rattle.ascii_file.specs.Raw.{RawSymbol, nothing_yet, defined};
    ghost use Rattle.ascii_file.specs.Items.{SymbolItem, begins_comment};
    ghost use Rattle.ascii_file.specs.Reading as reading;
    ghost use Rattle.ascii_file.specs.Files.{IsCountedBy};
    ghost use Rattle.ascii_file.specs.parts.Rows.{row_of};
    ghost use Rattle.ascii_file.specs.parts.Symbols.{text_of};
    ghost use Rattle.ascii_file.specs.parts.Names.{symbol_at};
    ghost use Rattle.ascii_file.specs.parts.Places.{place_of};
    ghost use Rattle.aag_text.specs.Items.{item_of_numbers};
    ghost use Rattle.aag_text.specs.Taking.{raw_of, ArePlacesOf, IsAt, Takes};

    /// Returns sections of no item. Takes no memory.
    pub fn new(alloc: Global, header: Header) -> Sections
        requires { IsHeaderWithin header }
        ensures header { result.header ≡ header }
        ensures raw { raw_of result [] ≡ nothing_yet }
        ensures stands { IsAt result [] }
    {
        Sections {
            header,
            inputs: Vec::new(alloc),
            latches: Vec::new(alloc),
            properties: PropertyLists::new(alloc),
            gates: Vec::new(alloc),
            places: Places::new(alloc),
            names: Names::new(alloc),
        }
    }

    /// Returns the section of the next item: the first that has fewer items than the header says.
    pub fn section(&self) -> Section
        ensures { (symbols : List RawSymbol) → result
            ≡ reading.next_section self.now.header (raw_of self.now symbols) }
    {
        let header = &self.header;
        let safety = header.outputs + header.bad + header.constraints;
        let liveness = self.properties.size_sum() as usize + header.fairness as usize;
        if self.inputs.len() < header.inputs as usize {
            Section::Inputs
        } else if self.latches.len() < header.latches as usize {
            Section::Latches
        } else if self.properties.safety_len() < safety as usize {
            Section::Safety
        } else if self.properties.sizes_len() < header.justice as usize {
            Section::Sizes
        } else if self.properties.liveness_len() < liveness {
            Section::Liveness
        } else if self.gates.len() < header.gates as usize {
            Section::Gates
        } else {
            Section::Symbols
        }
    }

    /// Returns true if all items but symbols have come.
    pub fn is_complete(&self) -> bool
        ensures value { (symbols : List RawSymbol) → result
            ≡ reading.is_complete self.now.header (raw_of self.now symbols) }
        ensures counted { (symbols : List RawSymbol) → IsAt self.now symbols → IsTrue result
            → IsCountedBy self.now.header (raw_of self.now symbols) }
    {
        matches!(self.section(), Section::Symbols)
    }

    /// Takes the next line, of a section before the symbols, by its numbers; it begins at offset
    /// `at`. The numbers are `None` unless the line is at most nine numbers with one space between.
    /// A number past 32 bits is `u32::MAX`.
    ///
    /// # Errors
    ///
    /// The fault of the line, or `NoMemory`.
    pub fn take_numbers(&mut self, at: u64, numbers: Option<&[u32]>) -> Result<(), ReadError>
        ensures { (symbols : List RawSymbol) (line : List ℕ) → IsAt self.old symbols
            → reading.is_complete self.old.header (raw_of self.old symbols) ≡ false
            → MatchOption numbers.entry (row_of line ≡ None) (λ ns. row_of line ≡ Some ns.now)
            → Takes self.old self.new result
            (reading.read_line self.old.header (raw_of self.old symbols) at line) }
    {
        let Some(numbers) = numbers else {
            return Err(ReadError::BadLine(at));
        };
        match self.section() {
            Section::Inputs => self.take_input(at, numbers),
            Section::Latches => self.take_latch(at, numbers),
            Section::Safety => self.take_safety(at, numbers),
            Section::Sizes => self.take_size(at, numbers),
            Section::Liveness => self.take_liveness(at, numbers),
            Section::Gates => self.take_gate(at, numbers),
            Section::Symbols => Err(ReadError::BadLine(at)),
        }
    }

    /// Takes the next line, after the gates, by its reading: a symbol, or none. One that begins the
    /// comment isn't for this call, which then takes nothing.
    ///
    /// # Errors
    ///
    /// The fault of the line, or `NoMemory`.
    pub fn take_symbol(&mut self, at: u64, text: SymbolText) -> Result<(), ReadError>
        ensures { (symbols : List RawSymbol) (line : List ℕ) → IsAt self.old symbols
            → reading.is_complete self.old.header (raw_of self.old symbols) ≡ true
            → begins_comment line ≡ false → text ≡ text_of line
            → Takes self.old self.new result
            (reading.read_line self.old.header (raw_of self.old symbols) at line) }
    {
        match text {
            SymbolText::NoSymbol => Err(ReadError::Trailing(at)),
            SymbolText::Malformed => Err(ReadError::BadSymbol(at)),
            SymbolText::Name(kind, position, name) => self.take_name(at, kind, position, name),
            SymbolText::Comment => Ok(()),
        }
    }

    fn take_input(&mut self, at: u64, numbers: &[u32]) -> Result<(), ReadError>
        requires { reading.next_section self.old.header (raw_of self.old []) ≡ Inputs }
        ensures { (symbols : List RawSymbol) → IsAt self.old symbols
            → Takes self.old self.new result
            (reading.take_item self.old.header (raw_of self.old symbols) at (BadLine at)
            (item_of_numbers Inputs numbers.now)) }
    {
        let Some(lit) = only(numbers) else {
            return Err(ReadError::BadLine(at));
        };
        self.check_definition(at, lit, &[])?;
        self.add_variable(lit / 2)?;
        self.inputs.push(lit)?;
        Ok(())
    }

    fn take_latch(&mut self, at: u64, numbers: &[u32]) -> Result<(), ReadError>
        requires { reading.next_section self.old.header (raw_of self.old []) ≡ Latches }
        ensures { (symbols : List RawSymbol) → IsAt self.old symbols
            → Takes self.old self.new result
            (reading.take_item self.old.header (raw_of self.old symbols) at (BadLine at)
            (item_of_numbers Latches numbers.now)) }
    {
        let Some(latch) = latch_of(numbers) else {
            return Err(ReadError::BadLine(at));
        };
        self.check_definition(at, latch.current, &[latch.next])?;
        if is_bad_reset(&latch) {
            return Err(ReadError::BadReset(at));
        }
        self.add_variable(latch.current / 2)?;
        self.latches.push(latch)?;
        Ok(())
    }

    fn take_safety(&mut self, at: u64, numbers: &[u32]) -> Result<(), ReadError>
        requires { reading.next_section self.old.header (raw_of self.old []) ≡ Safety }
        ensures { (symbols : List RawSymbol) → IsAt self.old symbols
            → Takes self.old self.new result
            (reading.take_item self.old.header (raw_of self.old symbols) at (BadLine at)
            (item_of_numbers Safety numbers.now)) }
    {
        let Some(lit) = only(numbers) else {
            return Err(ReadError::BadLine(at));
        };
        if lit > self.greatest_literal() {
            return Err(ReadError::MaxIndex(at));
        }
        match self.properties.push_safety(lit) {
            Ok(()) => Ok(()),
            Err(_) => Err(ReadError::NoMemory),
        }
    }

    fn take_size(&mut self, at: u64, numbers: &[u32]) -> Result<(), ReadError>
        requires { reading.next_section self.old.header (raw_of self.old []) ≡ Sizes }
        ensures { (symbols : List RawSymbol) → IsAt self.old symbols
            → Takes self.old self.new result
            (reading.take_item self.old.header (raw_of self.old symbols) at (BadLine at)
            (item_of_numbers Sizes numbers.now)) }
    {
        let Some(size) = only(numbers) else {
            return Err(ReadError::BadLine(at));
        };
        if u64::from(self.properties.size_sum()) + u64::from(size) > MAX_JUSTICE_LITERALS {
            return Err(ReadError::TooLarge(at));
        }
        match self.properties.push_size(size) {
            Ok(()) => Ok(()),
            Err(_) => Err(ReadError::NoMemory),
        }
    }

    fn take_liveness(&mut self, at: u64, numbers: &[u32]) -> Result<(), ReadError>
        requires { reading.next_section self.old.header (raw_of self.old []) ≡ Liveness }
        ensures { (symbols : List RawSymbol) → IsAt self.old symbols
            → Takes self.old self.new result
            (reading.take_item self.old.header (raw_of self.old symbols) at (BadLine at)
            (item_of_numbers Liveness numbers.now)) }
    {
        let Some(lit) = only(numbers) else {
            return Err(ReadError::BadLine(at));
        };
        if lit > self.greatest_literal() {
            return Err(ReadError::MaxIndex(at));
        }
        match self.properties.push_liveness(lit) {
            Ok(()) => Ok(()),
            Err(_) => Err(ReadError::NoMemory),
        }
    }

    fn take_gate(&mut self, at: u64, numbers: &[u32]) -> Result<(), ReadError>
        requires { reading.next_section self.old.header (raw_of self.old []) ≡ Gates }
        ensures { (symbols : List RawSymbol) → IsAt self.old symbols
            → Takes self.old self.new result
            (reading.take_item self.old.header (raw_of self.old symbols) at (BadLine at)
            (item_of_numbers Gates numbers.now)) }
    {
        let Some(gate) = gate_of(numbers) else {
            return Err(ReadError::BadLine(at));
        };
        self.check_definition(at, gate.lhs, &[gate.rhs0, gate.rhs1])?;
        self.add_variable(gate.lhs / 2)?;
        self.gates.push(gate)?;
        Ok(())
    }

    fn take_name(
        &mut self,
        at: u64,
        kind: SymbolKind,
        position: u32,
        name: Sequence<u8>,
    ) -> Result<(), ReadError>
        ensures { (symbols : List RawSymbol) → IsAt self.old symbols
            → reading.next_section self.old.header (raw_of self.old symbols) ≡ Symbols
            → Takes self.old self.new result
            (reading.take_item self.old.header (raw_of self.old symbols) at (BadSymbol at)
            (Some (SymbolItem (symbol_at kind position name)))) }
    {
        if position >= self.header.count_of(kind) {
            return Err(ReadError::BadSymbol(at));
        }
        match self.names.insert(kind, position, name) {
            Ok(true) => Ok(()),
            Ok(false) => Err(ReadError::BadSymbol(at)),
            Err(_) => Err(ReadError::NoMemory),
        }
    }

    /// Checks a line that defines the literal and reads the others.
    fn check_definition(&self, at: u64, lit: u32, others: &[u32]) -> Result<(), ReadError>
        ensures checks { (symbols : List RawSymbol) → IsAt self.now symbols
            → result ≡ reading.unless
            (reading.definition_checks self.now.header (raw_of self.now symbols) at lit others.now)
            (Ok (tt {0})) }
        ensures absent { OnOk result (place_of self.now.places (variable lit) ≡ None) }
    {
        if is_past(self.greatest_literal(), lit, others) {
            return Err(ReadError::MaxIndex(at));
        }
        if is_undefinable(lit) {
            return Err(ReadError::BadLiteral(at));
        }
        if self.places.place(lit / 2).is_some() {
            return Err(ReadError::DefinedTwice(at));
        }
        Ok(())
    }

    /// Gives the variable the next place.
    fn add_variable(&mut self, variable: u32) -> Result<(), AllocError>
        requires { place_of self.old.places variable ≡ None }
        ensures same { self.new ≡ record self.old { places = self.new.places } }
        ensures places { (symbols : List RawSymbol) → IsAt self.old symbols
            → OnOk result (ArePlacesOf self.new.places
            (defined (raw_of self.old symbols) ++ variable ∷ [])) }
    {
        let place = self.inputs.len() + self.latches.len() + self.gates.len();
        self.places.insert(variable, place as u32)
    }

    fn greatest_literal(&self) -> u32
        ensures { result ≡ 2 * self.now.header.greatest + 1 }
    {
        2 * self.header.greatest + 1
    }
}
