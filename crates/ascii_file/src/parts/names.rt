//! The symbols of a file, by kind and position: they may come in any order, and a second one of a
//! position is a fault.
use crate::parts::kind_names::KindNames;
use crate::{Header, SymbolKind};
use aig_graph::{NoMemory, Sequence, Symbols};
use std::alloc::Global;
use std::marker::Model;

/// The symbols of a file as they come: the names of each kind, by rising position. A position of a
/// kind has one name.
pub struct Names {
    inputs: KindNames,
    latches: KindNames,
    outputs: KindNames,
    bad: KindNames,
    constraints: KindNames,
    justice: KindNames,
    fairness: KindNames,
}

impl Drop for Names {
    // written out: docs/PROOFS.md, Drops and exits
    fn drop(self) {
        let Names {
            inputs: _inputs,
            latches: _latches,
            outputs: _outputs,
            bad: _bad,
            constraints: _constraints,
            justice: _justice,
            fairness: _fairness,
        } = self;
    }
}

impl Model for Names {
    ghost use Rattle.aig_graph.specs.declared.properties.Symbols.{Symbols};

    ghost Value = { Symbols };

    ghost view = { λ n. record { inputs = n.inputs; latches = n.latches; outputs = n.outputs; bad = n.bad; constraints = n.constraints; justice = n.justice; fairness = n.fairness } };
}

impl Names {
    ghost use Rattle.std.specs.Prelude.{List, [], ◌≡◌, ◌↔◌, not, IsTrue, IfOk, OnErr, if◌then◌else◌};
    ghost use Rattle.std.specs.List.{list_any};
    ghost use Rattle.ascii_file.specs.Raw.{RawSymbol};
    ghost use Rattle.ascii_file.specs.Reading.{is_of_same};
    ghost use Rattle.ascii_file.specs.parts.Parts.{AreNamesWithin};
    ghost use Rattle.ascii_file.specs.parts.Names.{AreNamesOf, symbol_at, with_new, has_position, names_of_kind, with_symbol_in};

    /// Returns a table of no names. Takes no memory.
    pub fn new(alloc: Global) -> Names
        ensures { AreNamesOf result [] }
    {
        Names {
            inputs: KindNames::new(alloc),
            latches: KindNames::new(alloc),
            outputs: KindNames::new(alloc),
            bad: KindNames::new(alloc),
            constraints: KindNames::new(alloc),
            justice: KindNames::new(alloc),
            fairness: KindNames::new(alloc),
        }
    }

    /// Adds a symbol, and returns true if its position is new. A position of a kind that has a name
    /// keeps it. Takes time in the logarithm of the number of names of the kind.
    ///
    /// # Errors
    ///
    /// `NoMemory` if memory is refused.
    pub fn insert(
        &mut self,
        kind: SymbolKind,
        position: u32,
        name: Sequence<u8>,
    ) -> Result<bool, NoMemory>
        ensures new { (symbols : List RawSymbol) → AreNamesOf self.old symbols
            → IfOk result
            (λ is_new. is_new
            ≡ not (list_any (is_of_same (symbol_at kind position name)) symbols)) }
        ensures names { (symbols : List RawSymbol) → AreNamesOf self.old symbols
            → IfOk result
            (λ is_new. AreNamesOf self.new
            (with_new is_new symbols (symbol_at kind position name))) }
        ensures err { OnErr result (self.new ≡ self.old) }
    {
        self.put(kind, position, name)
    }

    /// Adds a symbol as [`Names::insert`] does, to the names alone.
    fn put(&mut self, kind: SymbolKind, position: u32, name: Sequence<u8>) -> Result<bool, NoMemory>
        ensures new { IfOk result (λ is_new. is_new
            ≡ not (has_position (names_of_kind self.old kind) position)) }
        ensures names { IfOk result (λ is_new. self.new
            ≡ (if is_new then with_symbol_in self.old
            (symbol_at kind position name) else self.old)) }
        ensures err { OnErr result (self.new ≡ self.old) }
    {
        match kind {
            SymbolKind::Input => self.inputs.insert(position, name),
            SymbolKind::Latch => self.latches.insert(position, name),
            SymbolKind::Output => self.outputs.insert(position, name),
            SymbolKind::Bad => self.bad.insert(position, name),
            SymbolKind::Constraint => self.constraints.insert(position, name),
            SymbolKind::Justice => self.justice.insert(position, name),
            SymbolKind::Fairness => self.fairness.insert(position, name),
        }
    }

    /// Returns true if all positions are below the numbers that the header states. Takes time in
    /// the number of names.
    pub fn are_within(&self, header: &Header) -> bool
        ensures { IsTrue result ↔ AreNamesWithin header.now self.now }
    {
        self.inputs.are_below(header.inputs)
            && self.latches.are_below(header.latches)
            && self.outputs.are_below(header.outputs)
            && self.bad.are_below(header.bad)
            && self.constraints.are_below(header.constraints)
            && self.justice.are_below(header.justice)
            && self.fairness.are_below(header.fairness)
    }

    /// Returns the symbol table of a circuit.
    ///
    /// # Errors
    ///
    /// `NoMemory` if memory is refused.
    pub fn into_symbols(self, alloc: Global) -> Result<Symbols, NoMemory>
        ensures { IfOk result (λ symbols. symbols ≡ self) }
    {
        let mut names = self;
        names.take_symbols(alloc)
    }

    /// Takes the names as a symbol table; none are left if the answer is `Ok`.
    fn take_symbols(&mut self, alloc: Global) -> Result<Symbols, NoMemory>
        ensures { IfOk result (λ symbols. symbols ≡ self.old) }
    {
        let mut symbols = Symbols::none(alloc);
        match self.move_into(alloc, &mut symbols) {
            Ok(()) => Ok(symbols),
            Err(fault) => Err(fault),
        }
    }

    /// Puts the names of each kind in place of those of the table.
    fn move_into(&mut self, alloc: Global, symbols: &mut Symbols) -> Result<(), NoMemory>
        ensures { IfOk result (λ _. symbols.new ≡ self.old) }
    {
        symbols.inputs = self.inputs.take_sequence(alloc)?;
        symbols.latches = self.latches.take_sequence(alloc)?;
        symbols.outputs = self.outputs.take_sequence(alloc)?;
        symbols.bad = self.bad.take_sequence(alloc)?;
        symbols.constraints = self.constraints.take_sequence(alloc)?;
        symbols.justice = self.justice.take_sequence(alloc)?;
        symbols.fairness = self.fairness.take_sequence(alloc)?;
        Ok(())
    }
}
