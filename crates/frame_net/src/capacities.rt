//! The capacities of a network's arcs. They never change once the network is made, so a flow of it
//! shares the table, and copies none.
ghost use Rattle.std.specs.Prelude.{◌≡◌, ◌<◌, IfOk, length, slice_index};

use aig_graph::NoMemory;
use std::alloc::Global;
use std::marker::Model;
use std::sync::Arc;

/// The capacities of all arcs, by arc: one table, which a network and its flows own together. The
/// last of them drops it.
#[derive(Drop)]
pub struct Capacities {
    table: Arc<Vec<u32>>,
}

impl Model for Capacities {
    ghost use Rattle.std.specs.Prelude.{List, ℕ};

    ghost Value = { List ℕ };

    ghost view = { λ c. c.table.value.items };
}

impl Capacities {
    /// Returns the capacities that the table holds, with one owner.
    pub(crate) fn new(alloc: Global, table: Vec<u32>) -> Result<Capacities, NoMemory>
        ensures { IfOk result (λ c. c ≡ table.items) }
    {
        let table = Arc::new(alloc, table)?;
        Ok(Capacities { table })
    }

    /// Returns one more owner of the table. Takes no memory; it is refused only if the number of
    /// owners is at its limit.
    pub fn share(&self) -> Result<Capacities, NoMemory>
        ensures { IfOk result (λ c. c ≡ self.now) }
    {
        let table = Arc::try_clone(&self.table)?;
        Ok(Capacities { table })
    }

    /// Returns the capacity of an arc.
    pub fn at(&self, arc: u32) -> u32
        requires { arc < length self.now }
        ensures { result ≡ slice_index self.now arc }
    {
        self.table[arc as usize]
    }

    /// Returns the capacities by arc.
    pub fn as_slice(&self) -> &[u32]
        ensures { result.now ≡ self.now }
    {
        self.table.as_slice()
    }
}
