//! Names by position, in an ordered map. A file may list its symbols in any order, few of them or
//! all. A circuit has them by rising position, and no position twice.
ghost use Rattle.std.specs.Prelude.{◌<◌, ◌↔◌, All, IsTrue};
ghost use Rattle.std.specs.Ordering.{nat_cmp};
ghost use Rattle.std.specs.BTreeMap.{keys, IsOrdered};

use aig_graph::{NoMemory, Sequence, Symbol};
use std::alloc::Global;
use std::collections::BTreeMap;
use std::marker::Model;
use std::mem;

/// The names of one kind, by rising position.
#[derive(Drop)]
pub(crate) struct KindNames {
    names: BTreeMap<u32, Sequence<u8>>,
}

impl Model for KindNames {
    ghost use Rattle.std.specs.Prelude.{List};
    ghost use Rattle.aig_graph.specs.declared.properties.Symbol.{Symbol};
    ghost use Rattle.ascii_file.specs.parts.Names.{symbols_in};

    ghost Value = { List Symbol };

    ghost view = { λ n. symbols_in n.names.entries };
}

/// Returns true if all keys are below the count.
fn are_keys_below(names: &BTreeMap<u32, Sequence<u8>>, count: u32) -> bool
    ensures below { IsTrue result ↔ All (λ position. position < count) (keys names.now) }
    ensures ordered { IsOrdered nat_cmp names.now }
{
    names.keys().all(|position| *position < count)
}

impl KindNames {
    ghost use Rattle.std.specs.Prelude.{◌≡◌, ◌↔◌, [], not, IsTrue, IfOk, OnErr, if◌then◌else◌};
    ghost use Rattle.aig_graph.specs.Circuits.{AreNamesBelow};
    ghost use Rattle.ascii_file.specs.Meaning.{with_name};
    ghost use Rattle.ascii_file.specs.parts.Names.{has_position};

    /// Returns a map of no names. Takes no memory.
    pub(crate) fn new(alloc: Global) -> KindNames
        ensures { result ≡ [] }
    {
        KindNames {
            names: BTreeMap::new(alloc),
        }
    }

    /// Adds a name, and returns true if its position is new. A position that has a name keeps it.
    pub(crate) fn insert(&mut self, position: u32, name: Sequence<u8>) -> Result<bool, NoMemory>
        ensures new { IfOk result (λ is_new. is_new ≡ not (has_position self.old position)) }
        ensures names { IfOk result (λ is_new. self.new
            ≡ (if is_new then with_name self.old
            (record { position = position; name = name }) else self.old)) }
        ensures err { OnErr result (self.new ≡ self.old) }
    {
        if self.names.contains_key(&position) {
            return Ok(false);
        }
        self.names.insert(position, name)?;
        Ok(true)
    }

    /// Returns true if all positions are below the count.
    pub(crate) fn are_below(&self, count: u32) -> bool
        ensures { IsTrue result ↔ AreNamesBelow count self.now }
    {
        are_keys_below(&self.names, count)
    }

    /// Takes the names as one sequence; none are left.
    pub(crate) fn take_sequence(&mut self, alloc: Global) -> Result<Sequence<Symbol>, NoMemory>
        ensures { IfOk result (λ names. names ≡ self.old) }
    {
        mem::replace(self, KindNames::new(alloc)).into_sequence(alloc)
    }

    /// Returns the names in one sequence.
    fn into_sequence(self, alloc: Global) -> Result<Sequence<Symbol>, NoMemory>
        ensures { IfOk result (λ names. names ≡ self) }
    {
        let mut symbols = Vec::with_capacity(alloc, self.names.len())?;
        for (position, name) in self.names {
            symbols.push(Symbol { position, name })?;
        }
        Ok(Sequence::from_vec(symbols))
    }
}
