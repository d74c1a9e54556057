//! Copies of a circuit's names.
ghost use Rattle.std.specs.Prelude.{◌≡◌, IfOk};

use crate::NoMemory;
use crate::properties::{Symbol, Symbols};
use crate::sequence::Sequence;
use std::alloc::Global;

impl Symbol {
    /// Returns a copy of the name, at another position.
    pub fn at(&self, alloc: Global, position: u32) -> Result<Symbol, NoMemory>
        ensures { IfOk result (λ copy. copy ≡ record self.now { position = position }) }
    {
        let bytes = Vec::from_slice(alloc, self.name.as_slice())?;
        Ok(Symbol {
            position,
            name: Sequence::from_vec(bytes),
        })
    }
}

fn copied(alloc: Global, names: &Sequence<Symbol>) -> Result<Sequence<Symbol>, NoMemory>
    ensures { IfOk result (λ copies. copies ≡ names.now) }
{
    let mut copies = Vec::with_capacity(alloc, names.len())?;
    for name in names.as_slice() {
        copies.push(name.at(alloc, name.position)?)?;
    }
    Ok(Sequence::from_vec(copies))
}

impl Symbols {
    /// Returns a copy with these names of latches in the place of its own.
    pub fn with_latches(
        &self,
        alloc: Global,
        latches: Sequence<Symbol>,
    ) -> Result<Symbols, NoMemory>
        ensures { IfOk result (λ copy. copy ≡ record self.now { latches = latches }) }
    {
        let inputs = copied(alloc, &self.inputs)?;
        let outputs = copied(alloc, &self.outputs)?;
        let bad = copied(alloc, &self.bad)?;
        let constraints = copied(alloc, &self.constraints)?;
        let justice = copied(alloc, &self.justice)?;
        let fairness = copied(alloc, &self.fairness)?;
        Ok(Symbols {
            inputs,
            latches,
            outputs,
            bad,
            constraints,
            justice,
            fairness,
        })
    }
}
