//! The names of gates, by the pair of names of their fan-ins.
use aig_graph::{Aig, Gate, Lit, MAX_VARIABLES, NoMemory};
use clean::{KeptGates, known_substitute};
use std::alloc::Global;

/// The names of pairs that don't reduce to a constant or to one of their two names.
#[derive(Drop)]
pub(crate) struct PairNames {
    names: KeptGates,
}

impl PairNames {
    /// Returns no names. The first one given will be the variable `first`.
    pub(crate) fn none(alloc: Global, aig: &Aig, first: u32) -> Result<PairNames, NoMemory> {
        let room = Vec::with_capacity(alloc, aig.gates().len())?;
        let names = KeptGates::over(alloc, aig, first.min(MAX_VARIABLES as u32), room)?;
        Ok(PairNames { names })
    }

    /// Returns the name of a pair, or `None` if names have run out.
    pub(crate) fn name(&mut self, pair: Gate) -> Result<Option<Lit>, NoMemory> {
        if let Some(name) = known_substitute(&self.names, &pair) {
            return Ok(Some(name));
        }
        self.names.cover(pair.rhs0.var())?;
        if (self.names.next_variable() as usize) < MAX_VARIABLES {
            let name = self.names.add(pair)?;
            Ok(Some(name))
        } else {
            Ok(None)
        }
    }
}
