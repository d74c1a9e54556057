ghost use Rattle.std.specs.Prelude.{◌≡◌, ◌++◌, ◌∷◌, [], None, OnOk, is_some};
ghost use Rattle.std.specs.Map.{lookup};
ghost use Rattle.cleaned_circuits.specs.Merged.{same_fan_ins};

use aig_graph::{Gate, Lit, NoMemory};
use indexmap::IndexMap;
use std::alloc::Global;
use std::marker::Model;

/// The pairs of literals of some gates.
#[derive(Drop)]
pub(crate) struct Pairs {
    gates: IndexMap<Gate, Lit>,
}

impl Model for Pairs {
    ghost use Rattle.std.specs.Prelude.{List, ℕ};
    ghost use Rattle.aig_graph.specs.declared.graph.Gate.{Gate};

    ghost Value = { List (Gate × ℕ) };

    ghost view = { λ k. k.gates.entries };
}

impl Pairs {
    /// Returns a table of no pairs.
    pub(crate) fn new(alloc: Global) -> Pairs
        ensures { result ≡ [] }
    {
        Pairs {
            gates: IndexMap::new(alloc),
        }
    }

    /// Returns the literal beside the pair.
    pub(crate) fn find(&self, gate: Gate) -> Option<Lit>
        ensures { result ≡ lookup (same_fan_ins gate) self.now }
    {
        self.gates.get(&gate).copied()
    }

    /// Adds another pair than each one's.
    pub(crate) fn add(&mut self, gate: Gate) -> Result<(), NoMemory>
        requires { lookup (same_fan_ins gate) self.old ≡ None }
        ensures { OnOk result (self.new ≡ self.old ++ (gate, 0) ∷ []) }
    {
        self.gates.insert(gate, Lit::FALSE)?;
        Ok(())
    }
}
